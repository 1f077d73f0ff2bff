//! Tickets of a run of chips beside plain lists: who comes, crosses and is taken out.

use crate::bands::sizes;
use cm_slots::{Shape, Ticket, TicketQueues};
use std::alloc::Global;
use std::test::Fail;

// Of how many dimensions the cube is, the room at a chip, most tickets that come to a chip in a round, and
// where the drawing starts.
static CASES: [(u8, u8, u64, u64); 9] = [
    (0, 3, 2, 11),
    (1, 1, 1, 12),
    (3, 2, 2, 13),
    (5, 15, 15, 14),
    (6, 1, 1, 15),
    (6, 7, 7, 16),
    (7, 7, 5, 17),
    (8, 15, 9, 18),
    (8, 4, 1, 19),
];

const ROUNDS: u64 = 3;

// A queue as a plain list.
type List = Vec<Ticket>;

fn next(seed: u64) -> u64 {
    let mixed = seed
        .wrapping_mul(6364136223846793005)
        .wrapping_add(1442695040888963407);
    mixed ^ mixed >> 29
}

fn lists(alloc: Global, chips: usize) -> Result<Vec<List>, Fail> {
    let mut lists = Vec::new(alloc);
    for _chip in 0..chips {
        lists.push(Vec::new(alloc))?;
    }
    Ok(lists)
}

// Who leaves a list: the first that has to cross, or else the last of as many as there is room for.
fn leave(list: &mut List, room: usize, dim: u8) -> Option<Ticket> {
    let place = match list
        .iter()
        .position(|ticket| ticket.rel >> (dim & 15) & 1 == 1)
    {
        Some(place) => place,
        None if list.len() == room => room.wrapping_sub(1),
        None => return None,
    };
    if place >= list.len() {
        return None;
    }
    let ticket = list.remove(place);
    Some(Ticket {
        rel: ticket.rel ^ 1 << (dim & 15),
        ..ticket
    })
}

// All leave, then all come.
fn cross(alloc: Global, lists: &mut Vec<List>, room: usize, dim: u8) -> Result<(), Fail> {
    let mut going = Vec::new(alloc);
    for chip in 0..lists.len() {
        if let Some(list) = lists.get_mut(chip) {
            going.push(leave(list, room, dim))?;
        }
    }
    for chip in 0..going.len() {
        let coming = going.get(chip ^ 1 << (dim & 15));
        if let Some(Some(ticket)) = coming
            && let Some(list) = lists.get_mut(chip)
        {
            list.push(*ticket)?;
        }
    }
    Ok(())
}

fn is_same(slots: &TicketQueues, chip: usize, list: &List) -> bool {
    if chip >= slots.chips()
        || slots.len(chip) != list.len()
        || slots.ticket(chip, list.len()).is_some()
    {
        return false;
    }
    for place in 0..list.len() {
        if slots.ticket(chip, place) != Some(list[place]) {
            return false;
        }
    }
    true
}

fn are_same(slots: &TicketQueues, lists: &[List]) -> bool {
    for chip in 0..lists.len() {
        if !is_same(slots, chip, &lists[chip]) {
            return false;
        }
    }
    true
}

fn drawn(seed: u64) -> Ticket {
    Ticket {
        rel: (seed >> 20 & 65535) as u16,
        number: (seed >> 40 & 65535) as u16,
    }
}

// A drawn ticket comes, if there is room for it.
fn arrive(
    slots: &mut TicketQueues,
    room: usize,
    chip: usize,
    list: &mut List,
    seed: u64,
) -> Result<(), Fail> {
    let ticket = drawn(seed);
    if chip < slots.chips() && ticket.number < 65535 && slots.len(chip) < room.min(15) {
        slots.arrive(chip, ticket);
        list.push(ticket)?;
    }
    Ok(())
}

fn replace(slots: &mut TicketQueues, chip: usize, list: &mut List, seed: u64) {
    let place = (seed >> 36 & 15) as usize;
    let ticket = drawn(seed);
    if chip < slots.chips()
        && ticket.number < 65535
        && place < slots.len(chip)
        && let Some(there) = list.get_mut(place)
    {
        slots.replace(chip, place, ticket);
        *there = ticket;
    }
}

fn remove(slots: &mut TicketQueues, chip: usize, list: &mut List, seed: u64) {
    let place = (seed >> 33 & 15) as usize;
    if chip < slots.chips() && place < slots.len(chip) && place < list.len() {
        slots.remove(chip, place);
        list.remove(place);
    }
}

// Some come to each chip, one may be replaced, and one may be taken out.
fn change(
    slots: &mut TicketQueues,
    room: usize,
    lists: &mut Vec<List>,
    most: u64,
    seed: u64,
) -> Result<u64, Fail> {
    let mut seed = seed;
    for chip in 0..lists.len() {
        if let Some(list) = lists.get_mut(chip) {
            seed = next(seed);
            for _i in 0..(seed >> 33) % most.max(1) + 1 {
                seed = next(seed);
                arrive(slots, room, chip, list, seed)?;
            }
            replace(slots, chip, list, seed);
            remove(slots, chip, list, seed);
        }
    }
    Ok(seed)
}

// The tickets cross, where the chips span so many dimensions and none has more than there is room for.
fn cross_slots(slots: &mut TicketQueues, span: u8, sizes: Shape, dim: u8) {
    if span <= 12
        && slots.chips() == 1 << span
        && dim < span
        && slots.is_within(usize::from(sizes.room))
    {
        slots.cross(span, sizes, dim);
    }
}

// Whether the tickets stand as the lists do now, after each dimension in which all cross, and in a copy.
fn goes_alike(
    alloc: Global,
    slots: &mut TicketQueues,
    lists: &mut Vec<List>,
    sizes: Shape,
) -> Result<bool, Fail> {
    let mut alike = are_same(slots, lists);
    for dim in 0..sizes.dims {
        cross_slots(slots, sizes.dims, sizes, dim);
        cross(alloc, lists, usize::from(sizes.room), dim)?;
        alike = alike && are_same(slots, lists);
    }
    Ok(alike && are_same(&slots.copy(alloc)?, lists))
}

fn stay_alike(
    alloc: Global,
    slots: &mut TicketQueues,
    lists: &mut Vec<List>,
    case: (u8, u8, u64, u64),
) -> Result<bool, Fail> {
    let (dims, room, most, seed) = case;
    let sizes = sizes(dims, room);
    let mut seed = seed;
    let mut alike = slots.is_within(0) && are_same(slots, lists);
    for _round in 0..ROUNDS {
        seed = change(slots, usize::from(sizes.room), lists, most, seed)?;
        alike = goes_alike(alloc, slots, lists, sizes)? && alike;
    }
    Ok(alike && !slots.is_within(0))
}

// Whether the tickets of all chips stand as the lists do after each step.
fn go_alike(alloc: Global, case: (u8, u8, u64, u64)) -> Result<bool, Fail> {
    let chips = 1 << (case.0 & 15);
    if chips > 4096 {
        return Ok(false);
    }
    let mut lists = lists(alloc, chips)?;
    let mut slots = TicketQueues::new(alloc, chips)?;
    stay_alike(alloc, &mut slots, &mut lists, case)
}

#[test]
fn tickets_go_as_plain_lists_do(rt: HostRuntime) -> Result<(), Fail> {
    for case in &CASES {
        assert!(&rt; go_alike(rt.alloc(), *case)?, "{case:?}");
    }
    Ok(())
}
