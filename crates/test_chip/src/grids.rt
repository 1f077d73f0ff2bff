//! Steps on the grid.

ghost use Rattle.std.specs.Prelude.{◌≡◌, length, IfOk};

use crate::cases::{Case, first_not_so};
use crate::numbers::processor;
use cm_bits::{Dir, Place, Plane};
use cm_news::Grid;
use std::alloc::Global;
use std::test::Fail;

// Processor 3 alone.
const ONE: Plane = 0x0008;

/// Where the bit of processor 3 goes: to a processor of its chip, or out at a row or a column.
struct Sent(&'static str, Dir, Plane, u8);

impl Case for Sent {
    fn name(&self) -> &'static str {
        self.0
    }

    fn is_so(&self, _alloc: Global) -> Result<bool, Fail> {
        let Sent(_, dir, inside, edge) = *self;
        Ok(Grid::<3>::inside(ONE, dir) == inside && Grid::<3>::edge(ONE, dir) == edge)
    }
}

static SENT: [Sent; 4] = [
    Sent("west, to processor 2", Dir::West, 0x0004, 0),
    Sent("south, to processor 7", Dir::South, 0x0080, 0),
    Sent("east, out at row 0", Dir::East, 0, 1),
    Sent("north, out at column 3", Dir::North, 0, 8),
];

/// One step from processor 3 of chip 1, of eight: the place, and what comes in at each chip.
struct Stepped(&'static str, Dir, u16, u8);

impl Case for Stepped {
    fn name(&self) -> &'static str {
        self.0
    }

    fn is_so(&self, _alloc: Global) -> Result<bool, Fail> {
        let Stepped(_, dir, chip, proc) = *self;
        let from = place(1, 3)?;
        let to = place(chip, proc)?;
        Ok(Grid::<3>::neighbour(from, dir) == to && comes_in_at(&SENT_BY_ONE, &to, dir))
    }
}

// Of eight chips, chip 1 alone sends.
static SENT_BY_ONE: [Plane; 8] = [0, ONE, 0, 0, 0, 0, 0, 0];

/// Whether of what eight chips send one bit comes in, at this place.
fn comes_in_at(planes: &[Plane], to: &Place, dir: Dir) -> bool
    requires planes { length planes.now ≡ 8 }
{
    for chip in 0u16..8 {
        if Grid::<3>::incoming(planes, dir, chip) != plane_at(to, chip) {
            return false;
        }
    }
    true
}

/// The plane of a chip in which one place alone has a bit.
fn plane_at(place: &Place, chip: u16) -> Plane {
    if chip == place.chip {
        1 << place.proc.get()
    } else {
        0
    }
}

static STEPPED: [Stepped; 4] = [
    Stepped("north, into the last row of the torus", Dir::North, 7, 15),
    Stepped("south, on the chip", Dir::South, 1, 7),
    Stepped("east, into the first column of the torus", Dir::East, 0, 0),
    Stepped("west, on the chip", Dir::West, 1, 2),
];

/// What comes in at a single chip.
struct Alone(&'static str, Plane, Dir, Plane);

impl Case for Alone {
    fn name(&self) -> &'static str {
        self.0
    }

    fn is_so(&self, _alloc: Global) -> Result<bool, Fail> {
        let Alone(_, sent, dir, incoming) = *self;
        Ok(Grid::<0>::incoming(&[sent], dir, 0) == incoming)
    }
}

static ALONE: [Alone; 2] = [
    Alone(
        "its first row comes in at its last",
        0x000f,
        Dir::North,
        0xf000,
    ),
    Alone(
        "its first column comes in at its last",
        0x1111,
        Dir::West,
        0x8888,
    ),
];

/// A step over the edge of the largest machine, from a corner by its chip and processor.
struct Wrapped(&'static str, (u16, u8), Dir, (u16, u8));

impl Case for Wrapped {
    fn name(&self) -> &'static str {
        self.0
    }

    fn is_so(&self, _alloc: Global) -> Result<bool, Fail> {
        let Wrapped(_, from, dir, to) = *self;
        let from = place(from.0, from.1)?;
        let to = place(to.0, to.1)?;
        Ok(from.chip < 4096 && Grid::<12>::neighbour(from, dir) == to)
    }
}

static WRAPPED: [Wrapped; 4] = [
    Wrapped("north from the first row", (0, 0), Dir::North, (4032, 12)),
    Wrapped("west from the first column", (0, 0), Dir::West, (63, 3)),
    Wrapped("south from the last row", (4095, 15), Dir::South, (63, 3)),
    Wrapped(
        "east from the last column",
        (4095, 15),
        Dir::East,
        (4032, 12),
    ),
];

fn place(chip: u16, number: u8) -> Result<Place, Fail>
    ensures chip { IfOk result (λ place. place.chip ≡ chip) }
{
    let proc = processor(number)?;
    Ok(Place { chip, proc })
}

#[test]
fn steps_lead_round_the_torus(rt: HostRuntime) -> Result<(), Fail> {
    let alloc = rt.alloc();
    let not_so = [
        first_not_so(alloc, &SENT)?,
        first_not_so(alloc, &STEPPED)?,
        first_not_so(alloc, &ALONE)?,
        first_not_so(alloc, &WRAPPED)?,
    ];
    assert_eq!(rt; not_so, [None; 4]);
    Ok(())
}
