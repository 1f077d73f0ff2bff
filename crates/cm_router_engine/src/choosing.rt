//! Whom a chip chooses, by its tickets. Of messages only the tags of those that have to cross are read: where they are
//! kept lies far from the tickets.

ghost use Rattle.std.specs.Prelude.{◌≡◌, ℕ, ◌+◌, ◌<◌, ◌&&◌, not, IfSome, length, position, get_or};
ghost use Rattle.cm_model.specs.Array.{nth_or_nil};
ghost use Rattle.cm_model.specs.Router.{has_to_cross};
ghost use Rattle.cm_model.specs.Buffers.{chosen_place, first_place, last_place, oldest_place, youngest_place};
ghost use Rattle.cm_model.specs.Buffers.{element_at, is_older_one, is_older_or_none};
ghost use Rattle.cm_slots.specs.Tickets.{has_to_go};
ghost use Rattle.cm_router_engine.specs.Standing.{no_message, standing, HaveMessages};

use crate::row::message_of;
use cm_message::{Message, Rule};
use cm_router::is_older;
use cm_slots::{Shape, Ticket, TicketQueues};

/// The place of whom a chip chooses, with room for so many: of those that have to cross the dimension who goes first by
/// the rule, or where none has to and no room is left, who goes last.
pub(crate) fn place_of_chosen(
    row: &[Message],
    slots: &TicketQueues,
    chip: usize,
    sizes: Shape,
    dim: u8,
    rule: Rule,
) -> Option<usize>
    requires chip { chip < length slots.now }
    requires dim { dim < 12 }
    requires kept { HaveMessages (length row.now) (nth_or_nil slots.now chip) }
    ensures value { result ≡ chosen_place rule sizes.room dim (standing row.now (nth_or_nil slots.now chip)) }
    ensures within { IfSome result (λ place. place < length (nth_or_nil slots.now chip)) }
{
    match first_place(row, slots, chip, dim, rule) {
        Some(place) => Some(place),
        None if slots.len(chip) == usize::from(sizes.room) => last_place(row, slots, chip, rule),
        None => None,
    }
}

fn first_place(
    row: &[Message],
    slots: &TicketQueues,
    chip: usize,
    dim: u8,
    rule: Rule,
) -> Option<usize>
    requires chip { chip < length slots.now }
    requires dim { dim < 12 }
    requires kept { HaveMessages (length row.now) (nth_or_nil slots.now chip) }
    ensures value { result ≡ first_place rule dim (standing row.now (nth_or_nil slots.now chip)) }
    ensures within { IfSome result (λ place. place < length (nth_or_nil slots.now chip)) }
{
    match rule {
        Rule::First => first_to_cross(slots, chip, dim),
        Rule::Oldest => oldest_to_cross(row, slots, chip, dim),
    }
}

/// The place of who goes last, where somebody stands there.
fn last_place(row: &[Message], slots: &TicketQueues, chip: usize, rule: Rule) -> Option<usize>
    requires chip { chip < length slots.now }
    requires some { 0 < length (nth_or_nil slots.now chip) }
    requires kept { HaveMessages (length row.now) (nth_or_nil slots.now chip) }
    ensures value { result ≡ last_place rule (standing row.now (nth_or_nil slots.now chip)) }
    ensures within { IfSome result (λ place. place < length (nth_or_nil slots.now chip)) }
{
    match rule {
        Rule::First => Some(slots.len(chip) - 1),
        Rule::Oldest => youngest(row, slots, chip),
    }
}

/// The place of the first that has to cross.
fn first_to_cross(slots: &TicketQueues, chip: usize, dim: u8) -> Option<usize>
    requires chip { chip < length slots.now }
    requires dim { dim < 12 }
    ensures value { result ≡ position (has_to_go dim) (nth_or_nil slots.now chip) }
    ensures within { IfSome result (λ place. place < length (nth_or_nil slots.now chip)) }
{
    let mut place = 0;
    while let Some(ticket) = slots.ticket(chip, place) {
        if has_to_go(ticket, dim) {
            return Some(place);
        }
        place += 1;
    }
    None
}

/// The place of the oldest that has to cross, gone through from behind.
fn oldest_to_cross(row: &[Message], slots: &TicketQueues, chip: usize, dim: u8) -> Option<usize>
    requires chip { chip < length slots.now }
    requires dim { dim < 12 }
    requires kept { HaveMessages (length row.now) (nth_or_nil slots.now chip) }
    ensures value { result ≡ oldest_place dim (standing row.now (nth_or_nil slots.now chip)) }
    ensures within { IfSome result (λ place. place < length (nth_or_nil slots.now chip)) }
{
    let mut oldest: Option<usize> = None;
    for place in (0..slots.len(chip)).rev() {
        if goes_first(row, slots, chip, dim, place, oldest) {
            oldest = Some(place);
        }
    }
    oldest
}

/// The place of the youngest, gone through from behind.
fn youngest(row: &[Message], slots: &TicketQueues, chip: usize) -> Option<usize>
    requires chip { chip < length slots.now }
    requires kept { HaveMessages (length row.now) (nth_or_nil slots.now chip) }
    ensures value { result ≡ youngest_place (standing row.now (nth_or_nil slots.now chip)) }
    ensures within { IfSome result (λ place. place < length (nth_or_nil slots.now chip)) }
{
    let mut youngest: Option<usize> = None;
    for place in (0..slots.len(chip)).rev() {
        if goes_last(row, slots, chip, place, youngest) {
            youngest = Some(place);
        }
    }
    youngest
}

/// Whether there is no message at that other place, or it is older than the one at a place.
fn goes_last(
    row: &[Message],
    slots: &TicketQueues,
    chip: usize,
    place: usize,
    behind: Option<usize>,
) -> bool
    requires chip { chip < length slots.now }
    requires kept { HaveMessages (length row.now) (nth_or_nil slots.now chip) }
    requires place { place < length (nth_or_nil slots.now chip) }
    requires within { IfSome behind (λ i. i < length (nth_or_nil slots.now chip)) }
    ensures value { result ≡ is_older_or_none (element_at (standing row.now (nth_or_nil slots.now chip)) behind)
        (get_or (standing row.now (nth_or_nil slots.now chip)) place no_message) }
{
    behind.is_none()
        || is_older_at(
            row,
            slots,
            chip,
            behind,
            &message_at(row, slots, chip, place),
        )
}

/// Whether the message at a place has to cross, and none at that other place, if one is given, is older.
fn goes_first(
    row: &[Message],
    slots: &TicketQueues,
    chip: usize,
    dim: u8,
    place: usize,
    behind: Option<usize>,
) -> bool
    requires chip { chip < length slots.now }
    requires dim { dim < 12 }
    requires kept { HaveMessages (length row.now) (nth_or_nil slots.now chip) }
    requires place { place < length (nth_or_nil slots.now chip) }
    requires within { IfSome behind (λ i. i < length (nth_or_nil slots.now chip)) }
    ensures value { result
        ≡ (has_to_cross dim (get_or (standing row.now (nth_or_nil slots.now chip)) place no_message)
        && not (is_older_one (element_at (standing row.now (nth_or_nil slots.now chip)) behind)
        (get_or (standing row.now (nth_or_nil slots.now chip)) place no_message))) }
{
    let ticket = slots.ticket(chip, place).unwrap();
    has_to_go(ticket, dim) && !is_older_at(row, slots, chip, behind, &message_of(row, ticket))
}

/// Whether the message of a ticket has to cross a dimension.
fn has_to_go(ticket: Ticket, dim: u8) -> bool
    requires dim { dim < 12 }
    ensures value { result ≡ has_to_go dim ticket }
{
    ticket.rel >> dim & 1 == 1
}

/// Whether there is a message at a place, if one is given, and it is older than this one.
fn is_older_at(
    row: &[Message],
    slots: &TicketQueues,
    chip: usize,
    place: Option<usize>,
    message: &Message,
) -> bool
    requires chip { chip < length slots.now }
    requires kept { HaveMessages (length row.now) (nth_or_nil slots.now chip) }
    requires within { IfSome place (λ i. i < length (nth_or_nil slots.now chip)) }
    ensures value { result
        ≡ is_older_one (element_at (standing row.now (nth_or_nil slots.now chip)) place) message.now }
{
    match place {
        Some(i) => is_older(&message_at(row, slots, chip, i).tag, &message.tag),
        None => false,
    }
}

/// The message at a place.
fn message_at(row: &[Message], slots: &TicketQueues, chip: usize, place: usize) -> Message
    requires chip { chip < length slots.now }
    requires kept { HaveMessages (length row.now) (nth_or_nil slots.now chip) }
    requires place { place < length (nth_or_nil slots.now chip) }
    ensures value { result ≡ get_or (standing row.now (nth_or_nil slots.now chip)) place no_message }
{
    message_of(row, slots.ticket(chip, place).unwrap())
}
