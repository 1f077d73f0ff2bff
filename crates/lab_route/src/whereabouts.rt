//! Where the message of a tag stands, and where it was delivered.

ghost use Rattle.std.specs.Prelude.{◌≡◌, ◌^◌, ◌<◌, IfSome, length, slice_get};
ghost use Rattle.std.specs.List.{filter_map};
ghost use Rattle.cm_model.specs.Found.{delivery_place};
ghost use Rattle.lab_route.specs.Whereabouts.{stands_among, stand_in, delivery_in};

use cm_bits::Place;
use cm_model::{Event, Message, Tag};
use lab_machine::LabMachine;
use lab_study::{are_same, events_behind};

/// A message that stands in the router of a chip.
#[derive(Clone, Copy)]
pub(crate) struct Stand {
    pub(crate) chip: u16,
    /// Its place there in order of arrival, from 1.
    pub(crate) place: usize,
    /// How many stand there.
    pub(crate) count: usize,
    pub(crate) message: Message,
}

/// The message of a tag that stands in a router.
#[tactic(auto, unfolding(crate::specs::Whereabouts::stand_in))]
pub(crate) fn stand_in(machine: &LabMachine, tag: &Tag) -> Option<Stand>
    ensures value { result ≡ stand_in machine.now.n tag.now machine.now.machine }
    ensures chip { IfSome result (λ stand. stand.chip < 2 ^ machine.now.n) }
{
    for chip in 0..machine.chips() {
        if let Some(stand) = stand_at(chip, machine.buffer(chip), tag) {
            return Some(stand);
        }
    }
    None
}

/// That among those that stand at a chip.
fn stand_at(chip: u16, messages: &[Message], tag: &Tag) -> Option<Stand>
    ensures value { result ≡ slice_get (stands_among tag.now chip messages.now) 0 }
    ensures chip { IfSome result (λ stand. stand.chip ≡ chip) }
{
    for (index, message) in messages.iter().enumerate() {
        if are_same(&message.tag, tag) {
            return Some(Stand {
                chip,
                place: index + 1,
                count: messages.len(),
                message: *message,
            });
        }
    }
    None
}

/// Where the message of a tag was delivered, where the logs of chips had so many events before.
#[tactic(auto, unfolding(crate::specs::Whereabouts::delivery_in))]
pub(crate) fn delivery_in(before: &[usize], machine: &LabMachine, tag: &Tag) -> Option<Place>
    ensures value { result ≡ delivery_in machine.now.n tag.now before.now machine.now.machine }
{
    for chip in 0..machine.chips() {
        let events = events_behind(before, machine, chip);
        if let Some(place) = delivery_among(events, tag) {
            return Some(place);
        }
    }
    None
}

/// Where events of a chip tell that it was delivered.
fn delivery_among(events: &[Event], tag: &Tag) -> Option<Place>
    ensures value { result ≡ slice_get (filter_map (delivery_place tag.now) events.now) 0 }
{
    for event in events {
        if let Some(place) = delivery_place(event, tag) {
            return Some(place);
        }
    }
    None
}

/// The place of an event, if it tells that the message was delivered.
fn delivery_place(event: &Event, tag: &Tag) -> Option<Place>
    ensures value { result ≡ delivery_place tag.now event.now }
{
    match event {
        Event::Delivered { message, chip } if are_same(&message.tag, tag) => Some(Place {
            chip: *chip,
            proc: message.proc,
        }),
        _ => None,
    }
}
