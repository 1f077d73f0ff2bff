//! Which of the messages at a chip leaves in a dimension.

ghost use Rattle.std.specs.Prelude.{◌≡◌, ◌<◌, ◌≤◌, ◌-◌, ◌+◌, length, position, IfSome, not, ◌&&◌};
ghost use Rattle.cm_model.specs.Router.{is_older, has_to_cross};
ghost use Rattle.cm_model.specs.Buffers.{chosen_place, first_place, last_place};
ghost use Rattle.cm_model.specs.Buffers.{element_at, is_older_one, is_older_or_none, oldest_place, youngest_place};
ghost use Rattle.cm_router.specs.Places.{oldest_from, youngest_from};

use cm_message::{Message, Rule, Tag};

/// The place of whom a router with room for so many messages chooses of these, which stand there in order of arrival:
/// of those that have to cross the dimension who goes first by the rule, or where none has to and no room is left, who
/// goes last (which messages go, and that a full router refers one: ours).
pub(crate) fn chosen_place(messages: &[Message], room: u8, dim: u8, rule: Rule) -> Option<usize>
    requires dimension { dim < 12 }
    requires some { 0 < room }
    ensures value { result ≡ chosen_place rule room dim messages.now }
    ensures within { IfSome result (λ place. place < length messages.now) }
{
    match first_place(messages, dim, rule) {
        Some(place) => Some(place),
        None if messages.len() == usize::from(room) => last_place(messages, rule),
        None => None,
    }
}

/// The place of who goes first of those that have to cross the dimension.
fn first_place(messages: &[Message], dim: u8, rule: Rule) -> Option<usize>
    requires dimension { dim < 12 }
    ensures value { result ≡ first_place rule dim messages.now }
    ensures within { IfSome result (λ place. place < length messages.now) }
{
    match rule {
        Rule::First => first_to_cross(messages, dim),
        Rule::Oldest => oldest_to_cross(messages, dim),
    }
}

/// The place of who goes last, where somebody stands there.
fn last_place(messages: &[Message], rule: Rule) -> Option<usize>
    requires some { 0 < length messages.now }
    ensures value { result ≡ last_place rule messages.now }
    ensures within { IfSome result (λ place. place < length messages.now) }
{
    match rule {
        Rule::First => Some(messages.len() - 1),
        Rule::Oldest => youngest(messages),
    }
}

fn first_to_cross(messages: &[Message], dim: u8) -> Option<usize>
    requires dimension { dim < 12 }
    ensures value { result ≡ position (has_to_cross dim) messages.now }
    ensures within { IfSome result (λ place. place < length messages.now) }
{
    messages
        .iter()
        .position(|message| has_to_cross(message, dim))
}

/// The place of the oldest that has to cross, gone through from behind.
fn oldest_to_cross(messages: &[Message], dim: u8) -> Option<usize>
    requires dimension { dim < 12 }
    ensures value { result ≡ oldest_place dim messages.now }
    ensures within { IfSome result (λ place. place < length messages.now) }
{
    let mut oldest: Option<usize> = None;
    for i in (0..messages.len()).rev() {
        oldest = oldest_with(messages, dim, i, oldest);
    }
    oldest
}

/// The place of the youngest, gone through from behind.
fn youngest(messages: &[Message]) -> Option<usize>
    ensures value { result ≡ youngest_place messages.now }
    ensures within { IfSome result (λ place. place < length messages.now) }
{
    let mut youngest: Option<usize> = None;
    for i in (0..messages.len()).rev() {
        youngest = youngest_with(messages, i, youngest);
    }
    youngest
}

/// The place of the oldest that has to cross from a place on, where that of those behind it is this one.
fn oldest_with(messages: &[Message], dim: u8, place: usize, behind: Option<usize>) -> Option<usize>
    requires dimension { dim < 12 }
    requires place { place < length messages.now }
    requires behind { behind ≡ oldest_from dim messages.now (place + 1) }
    requires within { IfSome behind (λ i. i < length messages.now) }
    ensures value { result ≡ oldest_from dim messages.now place }
    ensures within { IfSome result (λ i. i < length messages.now) }
{
    if goes_first(messages, dim, behind, &messages[place]) {
        Some(place)
    } else {
        behind
    }
}

/// The place of the youngest from a place on, where that of those behind it is this one.
fn youngest_with(messages: &[Message], place: usize, behind: Option<usize>) -> Option<usize>
    requires place { place < length messages.now }
    requires behind { behind ≡ youngest_from messages.now (place + 1) }
    requires within { IfSome behind (λ i. i < length messages.now) }
    ensures value { result ≡ youngest_from messages.now place }
    ensures within { IfSome result (λ i. i < length messages.now) }
{
    if is_older_or_none(messages, behind, &messages[place]) {
        Some(place)
    } else {
        behind
    }
}

/// Whether a message has to cross, and none at that place, if one is given, is older.
fn goes_first(messages: &[Message], dim: u8, place: Option<usize>, message: &Message) -> bool
    requires dimension { dim < 12 }
    requires within { IfSome place (λ i. i < length messages.now) }
    ensures value { result
        ≡ (has_to_cross dim message.now && not (is_older_one (element_at messages.now place) message.now)) }
{
    has_to_cross(message, dim) && !is_older_at(messages, place, message)
}

/// Whether there is a message at a place, if one is given, and it is older than this one.
fn is_older_at(messages: &[Message], place: Option<usize>, message: &Message) -> bool
    requires within { IfSome place (λ i. i < length messages.now) }
    ensures value { result ≡ is_older_one (element_at messages.now place) message.now }
{
    match place {
        Some(i) => is_older(&messages[i].tag, &message.tag),
        None => false,
    }
}

/// Whether there is no message at a place, or it is older than this one.
fn is_older_or_none(messages: &[Message], place: Option<usize>, message: &Message) -> bool
    requires within { IfSome place (λ i. i < length messages.now) }
    ensures value { result ≡ is_older_or_none (element_at messages.now place) message.now }
{
    match place {
        Some(i) => is_older(&messages[i].tag, &message.tag),
        None => true,
    }
}

/// Whether a tag is older than another: by birth, and then by origin.
pub fn is_older(tag: &Tag, other: &Tag) -> bool
    ensures value { result ≡ is_older tag.now other.now }
{
    if tag.birth != other.birth {
        tag.birth < other.birth
    } else if tag.chip != other.chip {
        tag.chip < other.chip
    } else {
        tag.proc.get() < other.proc.get()
    }
}

/// Whether the message has to cross this dimension.
fn has_to_cross(message: &Message, dim: u8) -> bool
    requires dimension { dim < 12 }
    ensures value { result ≡ has_to_cross dim message.now }
{
    message.rel >> dim & 1 == 1
}
