//! Petit cycles that tell into one row, beside petit cycles that tell into logs by chip.

use crate::bands::{Band, ask, has_same_planes, next, sizes};
use crate::routes::{Routes, is_of_cube, routed};
use cm_element::Run;
use cm_message::Event;
use cm_petit::cycle;
use cm_router::{Routing, Rule};
use cm_router_engine::{RouterEngine, Shape};
use std::alloc::Global;
use std::test::Fail;

// Dimensions, room of a router, how messages go, and where the drawing starts.
static CASES: [(u8, u8, Routes, u64); 4] = [
    (0, 7, Routes::PLAIN, 51),
    (4, 15, Routes::PLAIN, 52),
    (
        3,
        2,
        Routes {
            rule: Rule::First,
            share: 3,
        },
        53,
    ),
    (
        4,
        1,
        Routes {
            rule: Rule::Oldest,
            share: 3,
        },
        54,
    ),
];

const CYCLES: u64 = 6;

const ROW_ROOM: usize = 2048;

// Chips with their messages and one row of events, of which no contract tells anything.
#[derive(Drop)]
struct Rowed {
    sizes: Shape,
    routing: Routing,
    run: Run,
    crossing: RouterEngine,
    row: Vec<Event>,
    clock: u64,
}

// The chip whose router tells an event.
fn teller(event: Event) -> u16 {
    match event {
        Event::Injected(message) => message.tag.chip,
        Event::Delivered { chip, .. } => chip,
    }
}

// Whether a row tells of a chip what its log tells, in the same order.
fn tells(row: &[Event], chip: u16, log: &[Event]) -> bool {
    let mut place: usize = 0;
    for event in row {
        if teller(*event) == chip {
            if log.get(place) != Some(event) {
                return false;
            }
            place = place.wrapping_add(1);
        }
    }
    place == log.len()
}

impl Rowed {
    fn blank(alloc: Global, sizes: Shape, routes: Routes) -> Result<Rowed, Fail> {
        let chips: u16 = 1 << (sizes.dims & 7);
        Ok(Rowed {
            sizes,
            row: Vec::with_capacity(alloc, ROW_ROOM)?,
            routing: routed(alloc, sizes.dims, routes)?,
            crossing: RouterEngine::new(alloc, usize::from(chips))?,
            run: Run::blank(alloc, chips)?,
            clock: 0,
        })
    }

    fn cycle(&mut self) -> bool {
        let sizes = self.sizes;
        let chips = 1 << sizes.dims;
        if !is_of_cube(&self.routing, sizes)
            || self.clock >= 1 << 62
            || self.run.chips() != chips
            || self.crossing.chips() != chips
            || !self.crossing.is_within(sizes.room)
            || self.row.capacity() - self.row.len() < chips * (4 + usize::from(sizes.room))
        {
            return false;
        }
        cycle(
            sizes,
            &self.routing,
            &mut self.run,
            &mut self.crossing,
            &mut self.row,
            &mut self.clock,
        );
        true
    }

    // Whether at a chip all stands as in a machine whose events go into logs.
    fn is_as(&mut self, whole: &mut Band, chip: u16) -> bool {
        let at = usize::from(chip);
        self.crossing.gather();
        if at >= self.crossing.chips() || !whole.has_messages(at, self.crossing.buffer(at)) {
            return false;
        }
        match whole.logs.get(at) {
            Some(log) => {
                tells(&self.row, chip, log) && has_same_planes(&self.run, chip, &whole.run, chip)
            }
            None => false,
        }
    }
}

// The same asks on both sides, and a petit cycle after each.
fn stay_alike(whole: &mut Band, rowed: &mut Rowed, seed: u64) -> bool {
    let chips: u16 = 1 << (rowed.sizes.dims & 7);
    let mut seed = seed;
    for _cycle in 0..CYCLES {
        for chip in 0..chips {
            seed = next(seed);
            ask(&mut whole.run, chip, seed, 15);
            ask(&mut rowed.run, chip, seed, 15);
        }
        if !whole.cycle() || !rowed.cycle() {
            return false;
        }
        for chip in 0..chips {
            if !rowed.is_as(whole, chip) {
                return false;
            }
        }
    }
    !rowed.row.is_empty()
}

fn rowed_goes_with(
    alloc: Global,
    whole: &mut Band,
    sizes: Shape,
    routes: Routes,
    seed: u64,
) -> Result<bool, Fail> {
    let mut rowed = Rowed::blank(alloc, sizes, routes)?;
    Ok(stay_alike(whole, &mut rowed, seed))
}

fn go_alike(alloc: Global, case: (u8, u8, Routes, u64)) -> Result<bool, Fail> {
    let (dims, room, routes, seed) = case;
    let sizes = sizes(dims, room);
    let mut whole = Band::blank(alloc, sizes, dims, 0, routes)?;
    rowed_goes_with(alloc, &mut whole, sizes, routes, seed)
}

#[test]
fn one_row_tells_what_the_logs_tell(rt: HostRuntime) -> Result<(), Fail> {
    for case in &CASES {
        assert!(&rt; go_alike(rt.alloc(), *case)?, "{case:?}");
    }
    Ok(())
}
