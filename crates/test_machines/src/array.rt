//! Machines of many chips: the torus, the chain, the wire, refusals and long runs.

ghost use Rattle.std.specs.Prelude.{◌≡◌, ◌<◌};

use crate::steps::{Step, go_by, plays};
use cm_array::{Machine, MachineFault, Plain, RunFault};
use cm_bits::{Dir, Field};
use cm_model::{Act, Nano};
use std::alloc::{AllocError, Global};
use test_generators::{address, flag, poke_field, processor};

// ---- scenarios

static BIT_OF_EIGHT_CHIPS: [Step; 9] = [
    Step::Poke(1, 0, 0x0008),
    Step::News(Dir::North, 1, Ok(())),
    Step::News10(7, 0x8000),
    Step::News(Dir::South, 1, Ok(())),
    Step::News10(1, 0x0080),
    Step::News(Dir::East, 1, Ok(())),
    Step::News10(0, 0x0001),
    Step::News(Dir::West, 1, Ok(())),
    Step::News10(1, 0x0004),
];

#[test]
fn a_bit_of_eight_chips_moves_to_one_processor(rt: HostRuntime) {
    let steps = BIT_OF_EIGHT_CHIPS.as_slice();
    assert_eq!(rt; plays::<3>(rt.alloc(), 8, steps), Some(steps.len()));
}

static ROWS_OF_TWO_CHIPS: [Step; 5] = [
    Step::Poke(0, 0, 0xf000),
    Step::Poke(1, 0, 0x1000),
    Step::News(Dir::South, 1, Ok(())),
    Step::Flag(0, 10, 0x0001),
    Step::Flag(1, 10, 0x000f),
];

#[test]
fn southward_two_chips_send_their_last_rows_to_themselves(rt: HostRuntime) {
    let steps = ROWS_OF_TWO_CHIPS.as_slice();
    assert_eq!(rt; plays::<1>(rt.alloc(), 2, steps), Some(steps.len()));
}

static ROW_OF_ONE_CHIP: [Step; 3] = [
    Step::Poke(0, 0, 0x000f),
    Step::News(Dir::North, 1, Ok(())),
    Step::Flag(0, 10, 0xf000),
];

#[test]
fn northward_one_chip_sends_its_first_row_to_its_last(rt: HostRuntime) {
    let steps = ROW_OF_ONE_CHIP.as_slice();
    assert_eq!(rt; plays::<0>(rt.alloc(), 1, steps), Some(steps.len()));
}

static CHAIN: [Step; 5] = [
    Step::Poke(0, 0, 0x8001),
    Step::Chain(0),
    Step::Flag(0, 11, 0x0002),
    Step::Chain(11),
    Step::Flag(0, 11, 0x0004),
];

#[test]
fn the_chain_writes_one_flag_and_shows_the_next(rt: HostRuntime) {
    let steps = CHAIN.as_slice();
    assert_eq!(rt; plays::<0>(rt.alloc(), 1, steps), Some(steps.len()));
}

static WIRE: [Step; 5] = [
    Step::Wire(false),
    Step::Poke(1, 9, 0x8000),
    Step::Wire(true),
    Step::Drives(0, false),
    Step::Drives(1, true),
];

#[test]
fn one_processor_of_the_second_chip_drives_the_wire(rt: HostRuntime) {
    let steps = WIRE.as_slice();
    assert_eq!(rt; plays::<1>(rt.alloc(), 2, steps), Some(steps.len()));
}

static LONG_STRETCHES: [Step; 11] = [
    Step::Poke(1, 0, 0x1248),
    Step::Set(0, 7, 4095),
    Step::Keep,
    Step::IsKept(true),
    Step::News(Dir::East, 4097, Err(RunFault::Long)),
    Step::IsKept(true),
    Step::Senses(0, Ok(())),
    Step::Senses(2, Ok(())),
    Step::IsKept(true),
    Step::News(Dir::East, 4096, Ok(())),
    Step::IsKept(false),
];

#[test]
fn a_stretch_has_at_most_4096_acts(rt: HostRuntime) {
    let steps = LONG_STRETCHES.as_slice();
    assert_eq!(rt; plays::<1>(rt.alloc(), 2, steps), Some(steps.len()));
}

static ZERO_FLAGS: [Step; 6] = [
    Step::Keep,
    Step::Zero(0, 0),
    Step::Zero(1, 1),
    Step::Zero(2, 2),
    Step::Zero(3, 3),
    Step::IsKept(true),
];

#[test]
fn flag_8_cannot_be_poked_in_any_chip(rt: HostRuntime) {
    let steps = ZERO_FLAGS.as_slice();
    assert_eq!(rt; plays::<2>(rt.alloc(), 4, steps), Some(steps.len()));
}

// ---- refusals

fn fault_of<const N: usize, const CAP: usize>(alloc: Global) -> Option<MachineFault> {
    Machine::<N, CAP>::blank(alloc).err()
}

#[test]
fn the_dimension_is_refused_before_the_room(rt: HostRuntime) {
    let alloc = rt.alloc();
    let faults = [
        fault_of::<13, 7>(alloc),
        fault_of::<13, 0>(alloc),
        fault_of::<0, 0>(alloc),
        fault_of::<0, 16>(alloc),
        fault_of::<0, 1>(alloc),
        fault_of::<1, 15>(alloc),
    ];
    let wanted = [
        Some(MachineFault::Dim),
        Some(MachineFault::Dim),
        Some(MachineFault::Cap),
        Some(MachineFault::Cap),
        None,
        None,
    ];
    assert_eq!(rt; faults, wanted);
}

// ---- the longest stretch on the largest machine

const ADDEND: u32 = 0x0123_4567;

const ADDITIONS: u16 = 124;

/// Chip, processor, and the sum that stands in its first 32 memory bits after the additions.
static SUMS: [(u16, u8, u64); 7] = [
    (0, 3, 2_367_004_132),
    (63, 3, 2_367_004_132),
    (4095, 3, 2_367_004_132),
    (0, 2, 0),
    (63, 2, 0),
    (4095, 2, 0),
    (1, 3, 0),
];

/// An instruction of an addition of 32 bits: at 0 the carry in flag 0 is cleared, and then memory
/// bit `turn - 1` becomes its sum with the bit 32 further on.
fn addition_step(turn: u16) -> Nano
    requires { turn < 33 }
{
    let (at, mem_table, flag_table) = if turn == 0 {
        (0, 0xf0, 0x00)
    } else {
        (turn - 1, 0x96, 0xe8)
    };
    Nano {
        a: address(at),
        b: address(at + 32),
        read: flag(0),
        write: flag(0),
        cond: flag(8),
        sense: false,
        mem_table,
        flag_table,
        dir: Dir::North,
    }
}

/// The additions, and looks at the wire up to 4,096 acts.
fn additions(alloc: Global) -> Result<Vec<Act>, AllocError> {
    let mut acts = Vec::with_capacity(alloc, 4096)?;
    for turn in 0u16..4096 {
        let act = if turn / 33 < ADDITIONS {
            Act::Nano(addition_step(turn % 33))
        } else {
            Act::Sense
        };
        let Ok(()) = acts.push(act) else {
            return Err(AllocError);
        };
    }
    Ok(acts)
}

/// Puts the addend into memory bits 32 to 63 of processor 3 of three chips.
fn poke_addends(machine: &mut Machine<12, 7>) {
    for chip in [0u16, 63, 4095] {
        poke_field(machine, chip, processor(3), 32, 32, ADDEND);
    }
}

/// The place of the first sum that does not stand where it should, or else how many there are.
fn sums_in(machine: &Machine<12, 7>) -> Option<usize> {
    let sum = Field::new(0, 32).ok()?;
    for (place, (chip, proc, wanted)) in SUMS.iter().enumerate() {
        if *chip >= 4096 || *proc >= 16 {
            return Some(place);
        }
        if machine.chip(*chip).field(processor(*proc), sum) != *wanted {
            return Some(place);
        }
    }
    Some(SUMS.len())
}

/// How many sums stand where they should.
fn sums_that_stand(alloc: Global) -> Option<usize> {
    let acts = additions(alloc).ok()?;
    let mut machine = Machine::<12, 7>::blank(alloc).ok()?;
    sums_after(&mut machine, acts.as_slice())
}

fn sums_after(machine: &mut Machine<12, 7>, acts: &[Act]) -> Option<usize> {
    poke_addends(machine);
    go_by(&mut Plain, machine, acts).ok()?;
    sums_in(machine)
}

// No clock is read: what took more than the time of a test would fail it.
#[test]
fn the_largest_machine_adds_124_times_in_one_stretch(rt: HostRuntime) {
    assert_eq!(rt; sums_that_stand(rt.alloc()), Some(SUMS.len()));
}
