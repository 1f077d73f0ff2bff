//! Where the message of a tag is.

ghost use Rattle.std.specs.Prelude.{◌≡◌, ℕ, ◌<◌, IfSome, IsTrue, None, length};
ghost use Rattle.std.specs.List.{All, find, list_any, range_with_len};
ghost use Rattle.cm_model.specs.Array.{nth_or_nil};
ghost use Rattle.cm_model.specs.Found.{same_tag, delivery_place};
ghost use Rattle.cm_router.specs.Rows.{logging_chip};
ghost use Rattle.cm_petit.specs.Routers.{events_of};
ghost use Rattle.cm_array.specs.Finding.{TellOf, TellNone, IsLoggedIn};

use cm_bits::Place;
use cm_message::{Event, Message, Tag};
use cm_router_engine::RouterEngine;

/// The first chip in whose router a message of the tag stands.
pub(crate) fn router_of(crossing: &RouterEngine, tag: &Tag) -> Option<u16>
    requires gathered { IsTrue crossing.now.gathered }
    ensures value { result ≡ find
        (λ c. list_any (λ m. same_tag m.tag tag.now) (nth_or_nil crossing.now.buffers c))
        (range_with_len 0 (length crossing.now.buffers)) }
{
    for c in 0..crossing.chips() {
        if has_tag(crossing.buffer(c), tag) {
            return Some(c as u16);
        }
    }
    None
}

fn has_tag(messages: &[Message], tag: &Tag) -> bool
    ensures value { result ≡ list_any (λ m. same_tag m.tag tag.now) messages.now }
{
    messages.iter().any(|message| are_same(&message.tag, tag))
}

/// The first place to which a log tells that a message of the tag was delivered.
pub(crate) fn delivered_to(logs: &[Vec<Event>], tag: &Tag) -> Option<Place>
    ensures some { IfSome result (λ place. IsLoggedIn tag.now place (events_of logs.now)) }
    ensures none { result ≡ None → (c : ℕ) → c < length logs.now
        → TellNone tag.now (nth_or_nil (events_of logs.now) c) }
{
    for c in 0..logs.len() {
        if let Some(place) = delivered_in(&logs[c], tag) {
            return Some(place);
        }
    }
    None
}

fn delivered_in(log: &[Event], tag: &Tag) -> Option<Place>
    ensures some { IfSome result (λ place. TellOf tag.now place log.now) }
    ensures none { result ≡ None → TellNone tag.now log.now }
{
    for event in log {
        if let Some(place) = delivery_place(event, tag) {
            return Some(place);
        }
    }
    None
}

/// A place among so many chips to which a row tells that a message of the tag was delivered.
pub(crate) fn told_in(row: &[Event], chips: usize, tag: &Tag) -> Option<Place>
    ensures some { IfSome result (λ place. TellOf tag.now place row.now) }
    ensures within { IfSome result (λ place. place.chip < chips) }
    ensures none { result ≡ None
        → All (λ event. logging_chip event < chips → delivery_place tag.now event ≡ None) row.now }
{
    for event in row {
        if let Some(place) = delivery_place(event, tag) {
            if usize::from(place.chip) < chips {
                return Some(place);
            }
        }
    }
    None
}

/// The place of the event, if it tells that a message of the tag was delivered.
fn delivery_place(event: &Event, tag: &Tag) -> Option<Place>
    ensures value { result ≡ delivery_place tag.now event.now }
{
    match event {
        Event::Delivered { message, chip } if are_same(&message.tag, tag) => Some(Place {
            chip: *chip,
            proc: message.proc,
        }),
        _ => None,
    }
}

fn are_same(left: &Tag, right: &Tag) -> bool
    ensures value { result ≡ same_tag left.now right.now }
{
    left.chip == right.chip && left.proc.get() == right.proc.get() && left.birth == right.birth
}
