//! Rows of processors that go from one block to the next.

use cm_array::Machine;
use cm_bits::{Dir, FlagNo, Plane};
use cm_model::{Act, Nano};
use std::alloc::Global;
use test_generators::{address, flag, poke_plane};

/// Where flag 0 goes, its planes on two chips, and those of flag NEWS that are left.
pub(crate) static ROWS: [(Dir, [Plane; 2], [Plane; 2]); 3] = [
    (Dir::South, [0xf000, 0x1000], [0x0001, 0x000f]),
    (Dir::North, [0x0001, 0x000f], [0xf000, 0x1000]),
    (Dir::North, [0xf000, 0x1000], [0x0f00, 0x0100]),
];

/// Two chips with these planes in flag 0.
pub(crate) fn two_chips(alloc: Global, planes: [Plane; 2]) -> Option<Machine<1, 7>> {
    let mut machine = Machine::<1, 7>::blank(alloc).ok()?;
    poke_plane(&mut machine, 0, flag(0), planes[0]);
    poke_plane(&mut machine, 1, flag(0), planes[1]);
    Some(machine)
}

/// Every processor sends a flag of its own to its neighbour, which has it in flag NEWS then.
pub(crate) fn sent_on(read: FlagNo, dir: Dir) -> Act {
    Act::Nano(Nano {
        a: address(0),
        b: address(0),
        read,
        write: FlagNo::NEWS,
        cond: FlagNo::ZERO,
        sense: false,
        mem_table: 0xf0,
        flag_table: 0xaa,
        dir,
    })
}
