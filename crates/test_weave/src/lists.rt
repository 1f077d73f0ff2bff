//! Lists of acts that blocks go through.

use cm_bits::{Dir, FlagNo};
use cm_model::{Act, Nano};
use std::alloc::{AllocError, Global};
use test_generators::{address, flag};

/// An act of a list.
#[derive(Clone, Copy)]
pub(crate) enum Leg {
    /// Every processor sends flag 0 to its neighbour, and keeps in it what came the last time.
    Sent(Dir),
    Cycle,
    Sense,
}

/// What goes over each kind of round, over some more than once, and acts between that are no round.
pub(crate) static ROUND_TRIP: [Leg; 7] = [
    Leg::Sent(Dir::North),
    Leg::Cycle,
    Leg::Sent(Dir::South),
    Leg::Sent(Dir::East),
    Leg::Cycle,
    Leg::Sent(Dir::North),
    Leg::Sense,
];

/// North and south in turn, one by one and with a petit cycle behind each.
pub(crate) static TO_AND_FRO: [Leg; 18] = [
    Leg::Sent(Dir::North),
    Leg::Sent(Dir::North),
    Leg::Cycle,
    Leg::Sent(Dir::South),
    Leg::Sent(Dir::South),
    Leg::Cycle,
    Leg::Sent(Dir::North),
    Leg::Sent(Dir::North),
    Leg::Cycle,
    Leg::Sent(Dir::North),
    Leg::Sent(Dir::North),
    Leg::Cycle,
    Leg::Sent(Dir::South),
    Leg::Sent(Dir::South),
    Leg::Cycle,
    Leg::Sent(Dir::South),
    Leg::Sent(Dir::South),
    Leg::Cycle,
];

impl Leg {
    fn act(self) -> Act {
        match self {
            Leg::Sent(dir) => sent_on(dir),
            Leg::Cycle => Act::Cycle,
            Leg::Sense => Act::Sense,
        }
    }
}

fn sent_on(dir: Dir) -> Act {
    Act::Nano(Nano {
        a: address(0),
        b: address(0),
        read: flag(0),
        write: FlagNo::NEWS,
        cond: FlagNo::ZERO,
        sense: false,
        mem_table: 0xaa,
        flag_table: 0xaa,
        dir,
    })
}

pub(crate) fn acts_of(alloc: Global, legs: &[Leg]) -> Result<Vec<Act>, AllocError> {
    let mut acts = Vec::new(alloc);
    for leg in legs {
        acts.push(leg.act())?;
    }
    Ok(acts)
}
