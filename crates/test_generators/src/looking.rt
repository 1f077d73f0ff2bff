//! Whether two machines are the same, and how full one is.

ghost use Rattle.std.specs.Prelude.{◌≡◌, ◌<◌, ◌^◌};

use crate::numbers::{address, flag};
use cm_array::{Log, Machine};
use cm_message::Event;
use cm_router::Routing;
use std::alloc::Global;

/// Whether two machines of so many chips read the same everywhere.
pub fn are_same<const N: usize, const CAP: usize>(
    alloc: Global,
    left: &Machine<N, CAP>,
    right: &Machine<N, CAP>,
    chips: u16,
) -> bool
    requires cube { chips ≡ 2 ^ N }
{
    have_same_bits(left, right, chips)
        && have_same_messages(left, right, chips)
        && have_same_events(alloc, left, right, chips)
        && have_same_routing(left, right)
}

/// Whether the same wires of them are cut, and messages leave by the same rule.
pub fn have_same_routing<const N: usize, const CAP: usize>(
    left: &Machine<N, CAP>,
    right: &Machine<N, CAP>,
) -> bool {
    route_alike(left.routing(), right.routing())
}

/// Whether messages go in the same way by both.
pub fn route_alike(left: &Routing, right: &Routing) -> bool {
    left.rule == right.rule && left.cuts.edges() == right.cuts.edges()
}

/// Whether they have the same memory bits and flags.
pub fn have_same_bits<const N: usize, const CAP: usize>(
    left: &Machine<N, CAP>,
    right: &Machine<N, CAP>,
    chips: u16,
) -> bool
    requires cube { chips ≡ 2 ^ N }
{
    for chip in 0..chips {
        for number in 0u8..16 {
            let number = flag(number);
            if left.chip(chip).flag_plane(number) != right.chip(chip).flag_plane(number) {
                return false;
            }
        }
    }
    for at in 0u16..4096 {
        if left.plane_row(address(at)) != right.plane_row(address(at)) {
            return false;
        }
    }
    true
}

/// Whether they have the same messages, after as many petit cycles.
pub fn have_same_messages<const N: usize, const CAP: usize>(
    left: &Machine<N, CAP>,
    right: &Machine<N, CAP>,
    chips: u16,
) -> bool
    requires cube { chips ≡ 2 ^ N }
{
    for chip in 0..chips {
        if left.buffer(chip) != right.buffer(chip) {
            return false;
        }
    }
    left.clock() == right.clock()
}

/// Whether they tell of the same events.
pub fn have_same_events<const N: usize, const CAP: usize>(
    alloc: Global,
    left: &Machine<N, CAP>,
    right: &Machine<N, CAP>,
    chips: u16,
) -> bool
    requires cube { chips ≡ 2 ^ N }
{
    for chip in 0..chips {
        if !tell_the_same(alloc, &left.log(chip), &right.log(chip)) {
            return false;
        }
    }
    true
}

fn tell_the_same(alloc: Global, left: &Log<'_>, right: &Log<'_>) -> bool {
    match right.whole() {
        Some(events) => tells(alloc, left, events),
        None => match copied(alloc, right) {
            Some(events) => tells(alloc, left, &events),
            None => false,
        },
    }
}

/// Whether a log tells these events, as many as it says. Where it does not lie in one piece, its copy is compared.
pub fn tells(alloc: Global, log: &Log<'_>, events: &[Event]) -> bool {
    let same = match log.whole() {
        Some(whole) => whole == events,
        None => match copied(alloc, log) {
            Some(copy) => copy.as_slice() == events,
            None => false,
        },
    };
    same && log.len() == events.len() && log.is_empty() == events.is_empty()
}

/// A copy of the events of a log. Where a growth is refused, it is made again.
pub fn copied(alloc: Global, log: &Log<'_>) -> Option<Vec<Event>> {
    match copied_once(alloc, log) {
        None => copied_once(alloc, log),
        events => events,
    }
}

fn copied_once(alloc: Global, log: &Log<'_>) -> Option<Vec<Event>> {
    let mut events = Vec::new(alloc);
    log.push_onto(&mut events).ok()?;
    Some(events)
}

/// Whether a buffer of a machine is full.
pub fn has_full_buffer<const N: usize, const CAP: usize>(
    machine: &Machine<N, CAP>,
    chips: u16,
) -> bool
    requires cube { chips ≡ 2 ^ N }
{
    for chip in 0..chips {
        if machine.buffer(chip).len() == CAP {
            return true;
        }
    }
    false
}
