//! Machines that are built of planes and messages.

ghost use Rattle.std.specs.Prelude.{◌<◌, ◌^◌};

use crate::scenario::{At, Letter, To};
use cm_array::{BuildFault, Builder, Machine, MachineFault, Plain, RunFault, Runner};
use cm_bits::Plane;
use cm_model::Act;
use std::alloc::Global;
use test_generators::{address, flag};

/// What is put into a machine that is being built.
#[derive(Clone, Copy)]
enum Piece {
    /// A plane at an address of a chip.
    Plane(u16, u16, Plane),
    /// A plane in a flag of a chip.
    Flag(u16, u8, Plane),
    /// A message at a chip.
    Message(u16, Letter),
}

/// Two chips, whose routers have room for two messages each.
#[derive(Drop)]
struct Trial {
    builder: Builder<1, 2>,
}

impl Trial {
    /// Whether a piece is put in. Ranges are tested here, so that no piece has a condition.
    fn takes(&mut self, piece: Piece) -> bool {
        match piece {
            Piece::Plane(chip, at, plane) => self.takes_plane(chip, at, plane),
            Piece::Flag(chip, number, plane) => self.takes_flag(chip, number, plane),
            Piece::Message(chip, letter) => self.takes_message(chip, letter),
        }
    }

    fn takes_plane(&mut self, chip: u16, at: u16, plane: Plane) -> bool {
        if chip >= 2 || at >= 4096 {
            return false;
        }
        self.builder.plane(chip, address(at), plane);
        true
    }

    fn takes_flag(&mut self, chip: u16, number: u8, plane: Plane) -> bool {
        if chip >= 2 || number >= 16 || number == 8 {
            return false;
        }
        self.builder.flag_plane(chip, flag(number), plane);
        true
    }

    fn takes_message(&mut self, chip: u16, letter: Letter) -> bool {
        let Some(message) = letter.message() else {
            return false;
        };
        if chip >= 2 || message.rel >= 2 || message.tag.chip >= 2 {
            return false;
        }
        if self.builder.is_full(chip) || message.tag.birth >= self.builder.clock() {
            return false;
        }
        self.builder.message(chip, message);
        true
    }
}

/// What is built of these pieces after so many petit cycles.
fn built(alloc: Global, clock: u64, pieces: &[Piece]) -> Option<Result<Machine<1, 2>, BuildFault>>
    requires clock { clock < 2 ^ 63 }
{
    let builder = Builder::start(alloc, clock).ok()?;
    let mut trial = Trial { builder };
    for piece in pieces {
        if !trial.takes(*piece) {
            return None;
        }
    }
    Some(trial.builder.done())
}

// ---- what was put in stands there

const FIRST: Letter = Letter(At(0, 0), 4, To(1, 15), 0xffff_ffff);

const SECOND: Letter = Letter(At(1, 15), 0, To(0, 0), 1);

static PIECES: [Piece; 7] = [
    Piece::Plane(1, 4095, 0xffff),
    Piece::Plane(1, 4095, 0x8001),
    Piece::Plane(0, 0, 0x0002),
    Piece::Flag(1, 15, 0x4000),
    Piece::Flag(0, 12, 0x0001),
    Piece::Message(1, FIRST),
    Piece::Message(1, SECOND),
];

/// Whether chip 1 has the planes and the messages of the pieces, and chip 0 has its own.
fn has_pieces(machine: &Machine<1, 2>) -> bool {
    let first = machine.chip(0);
    let second = machine.chip(1);
    let planes = first.plane(address(0)) == 0x0002
        && first.plane(address(4095)) == 0
        && second.plane(address(0)) == 0
        && second.plane(address(4095)) == 0x8001;
    let flags = first.flag_plane(flag(12)) == 0x0001
        && first.flag_plane(flag(15)) == 0
        && second.flag_plane(flag(15)) == 0x4000;
    planes && flags && has_messages(machine)
}

/// Whether both messages stand at chip 1 in their order, and no log has an event.
fn has_messages(machine: &Machine<1, 2>) -> bool {
    let stand = match machine.buffer(1) {
        [first, second] => FIRST.is(first) && SECOND.is(second),
        _ => false,
    };
    stand && machine.buffer(0).is_empty() && machine.log(0).is_empty() && machine.log(1).is_empty()
}

/// Whether the pieces stand in the machine that is built of them, and how many petit cycles it counts.
fn stand(alloc: Global) -> Option<(bool, u64)> {
    let machine = built(alloc, 5, PIECES.as_slice())?.ok()?;
    Some((has_pieces(&machine), machine.clock()))
}

#[test]
fn planes_and_messages_stand_where_they_were_put(rt: HostRuntime) {
    assert_eq!(rt; stand(rt.alloc()), Some((true, 5)));
}

// ---- tags

struct Row {
    name: &'static str,
    pieces: [Piece; 3],
    fault: Option<BuildFault>,
}

const ONE: Letter = Letter(At(1, 3), 2, To(0, 0), 0);

/// Of the same tag, for another place.
const OTHER: Letter = Letter(At(1, 3), 2, To(1, 7), 9);

const OF_CHIP_0: Letter = Letter(At(0, 3), 2, To(0, 0), 0);

const OF_PROC_2: Letter = Letter(At(1, 2), 2, To(0, 0), 0);

const OF_PROC_4: Letter = Letter(At(1, 4), 2, To(0, 0), 0);

const EARLIER: Letter = Letter(At(1, 3), 1, To(0, 0), 0);

const LATER: Letter = Letter(At(1, 3), 3, To(0, 0), 0);

static ROWS: [Row; 6] = [
    Row {
        name: "at one chip",
        pieces: [
            Piece::Message(0, ONE),
            Piece::Message(0, ONE),
            Piece::Message(1, OF_CHIP_0),
        ],
        fault: Some(BuildFault::TagTwice),
    },
    Row {
        name: "at two chips, the first and the last",
        pieces: [
            Piece::Message(0, ONE),
            Piece::Message(0, EARLIER),
            Piece::Message(1, ONE),
        ],
        fault: Some(BuildFault::TagTwice),
    },
    Row {
        name: "to another processor, with another payload",
        pieces: [
            Piece::Message(0, OTHER),
            Piece::Message(1, OF_CHIP_0),
            Piece::Message(1, ONE),
        ],
        fault: Some(BuildFault::TagTwice),
    },
    Row {
        name: "of other chips",
        pieces: [
            Piece::Message(0, OF_CHIP_0),
            Piece::Message(0, ONE),
            Piece::Plane(0, 0, 1),
        ],
        fault: None,
    },
    Row {
        name: "of other processors",
        pieces: [
            Piece::Message(0, ONE),
            Piece::Message(1, OF_PROC_4),
            Piece::Message(1, OF_PROC_2),
        ],
        fault: None,
    },
    Row {
        name: "of other births",
        pieces: [
            Piece::Message(1, ONE),
            Piece::Message(0, EARLIER),
            Piece::Message(1, LATER),
        ],
        fault: None,
    },
];

/// The first row that is not so.
fn first_not_so(alloc: Global, table: &[Row]) -> Option<&'static str> {
    for row in table {
        let fault = built(alloc, 4, row.pieces.as_slice()).map(|machine| machine.err());
        if fault != Some(row.fault) {
            return Some(row.name);
        }
    }
    None
}

#[test]
fn two_messages_of_one_tag_are_refused_wherever_they_stand(rt: HostRuntime) {
    assert_eq!(rt; first_not_so(rt.alloc(), ROWS.as_slice()), None);
}

// ---- sizes, and the last petit cycle

fn fault_of<const N: usize, const CAP: usize>(alloc: Global) -> Option<MachineFault> {
    Builder::<N, CAP>::start(alloc, 0).err()
}

#[test]
fn a_builder_refuses_the_dimension_before_the_room(rt: HostRuntime) {
    let alloc = rt.alloc();
    let faults = [
        fault_of::<13, 0>(alloc),
        fault_of::<0, 0>(alloc),
        fault_of::<1, 16>(alloc),
        fault_of::<2, 15>(alloc),
    ];
    let wanted = [
        Some(MachineFault::Dim),
        Some(MachineFault::Cap),
        Some(MachineFault::Cap),
        None,
    ];
    assert_eq!(rt; faults, wanted);
}

/// How a look at the wire and then two petit cycles end.
fn ends(machine: &mut Machine<1, 2>) -> [Result<(), RunFault>; 3] {
    [
        Plain.go(machine, &[Act::Sense]),
        Plain.go(machine, &[Act::Cycle]),
        Plain.go(machine, &[Act::Cycle]),
    ]
}

/// The same of a machine after so many petit cycles, and how many there are then.
fn ends_after(alloc: Global, clock: u64) -> Option<([Result<(), RunFault>; 3], u64)>
    requires clock { clock < 2 ^ 63 }
{
    let mut machine = built(alloc, clock, [].as_slice())?.ok()?;
    Some((ends(&mut machine), machine.clock()))
}

#[test]
fn the_count_of_petit_cycles_does_not_pass_its_end(rt: HostRuntime) {
    let end = (1 << 63) - 1;
    let late = Err(RunFault::Clock);
    let ends = [ends_after(rt.alloc(), end), ends_after(rt.alloc(), end - 1)];
    let wanted = [
        Some(([Ok(()), late, late], end)),
        Some(([Ok(()), Ok(()), late], end)),
    ];
    assert_eq!(rt; ends, wanted);
}
