//! Instructions on one chip: what comes in, and a plain machine beside it.

use crate::cases::{Case, first_not_so};
use crate::numbers;
use cm_bits::{Dir, Plane, Proc};
use cm_element::{Chip, Outputs};
use cm_model::Nano;
use cm_plain::PlainMachine;
use std::alloc::Global;
use std::test::Fail;
use test_generators::{Draws, address, flag, processor};

/// An instruction that copies flag 9, which processors 4 to 7 have, to memory bit 5 and to a flag,
/// where flag 9 is `sense`; and the planes that this leaves when 0x5555 comes in.
struct Copying(&'static str, u8, bool, Plane, Plane);

impl Copying {
    fn nano(&self) -> Result<Nano, Fail> {
        let Copying(_, write, sense, _, _) = *self;
        Ok(Nano {
            a: address(5),
            b: address(6),
            read: flag(9),
            write: numbers::flag(write)?,
            cond: flag(9),
            sense,
            mem_table: 0xaa,
            flag_table: 0xaa,
            dir: Dir::North,
        })
    }

    fn outputs(&self) -> Outputs {
        let Copying(_, _, sense, _, _) = *self;
        Outputs {
            mem: 0x00f0,
            flag: 0x00f0,
            holds: if sense { 0x00f0 } else { 0xff0f },
        }
    }

    fn copies(&self, chip: &mut Chip, nano: &Nano) -> bool {
        let Copying(_, _, _, in_flag, in_memory) = *self;
        let outputs = chip.outputs(nano);
        chip.store(nano, outputs, 0x5555);
        outputs == self.outputs()
            && chip.flag_plane(nano.write) == in_flag
            && chip.plane(nano.a) == in_memory
            && chip.flag_plane(nano.cond) == 0x00f0
    }
}

impl Case for Copying {
    fn name(&self) -> &'static str {
        self.0
    }

    fn is_so(&self, alloc: Global) -> Result<bool, Fail> {
        let nano = self.nano()?;
        let mut chip = Chip::blank(alloc)?;
        Ok(has_flag_in_four(&mut chip) && self.copies(&mut chip, &nano))
    }
}

/// Processors 4 to 7 get flag 9: whether each takes it.
fn has_flag_in_four(chip: &mut Chip) -> bool {
    for number in 4u8..8 {
        if chip.poke_flag(processor(number), flag(9), true).is_err() {
            return false;
        }
    }
    true
}

static COPYING: [Copying; 6] = [
    Copying("a flag takes the output", 3, true, 0x00f0, 0x00f0),
    Copying(
        "flag 8 stays 0 and memory is stored",
        8,
        true,
        0x0000,
        0x00f0,
    ),
    Copying("NEWS takes what comes in", 10, true, 0x0050, 0x00f0),
    Copying("DAISY takes what comes in", 11, true, 0x0050, 0x00f0),
    Copying("NEWS takes it where flag 9 is 0", 10, false, 0x5505, 0x0000),
    Copying(
        "a flag takes the output where flag 9 is 0",
        3,
        false,
        0x0000,
        0x0000,
    ),
];

/// What comes in from these outputs on a machine of one chip.
fn coming_in(nano: &Nano, flag: Plane) -> Plane {
    if nano.write.get() != 10 {
        return flag << 1;
    }
    match nano.dir {
        Dir::North => flag >> 4 | flag << 12,
        Dir::South => flag << 4 | flag >> 12,
        Dir::West => flag >> 1 & 0x7777 | flag << 3 & 0x8888,
        Dir::East => flag << 1 & 0xeeee | flag >> 3 & 0x1111,
    }
}

/// A chip and a plain machine of one chip, after the same instructions.
#[derive(Drop)]
struct Beside {
    chip: Chip,
    plain: PlainMachine<0>,
}

impl Beside {
    fn step(&mut self, alloc: Global, nano: &Nano) -> Result<(), Fail> {
        self.plain.step(alloc, nano)?;
        let outputs = self.chip.outputs(nano);
        self.chip
            .store(nano, outputs, coming_in(nano, outputs.flag));
        Ok(())
    }

    /// Whether one processor has the same first eight memory bits and the same flags in both.
    fn agrees_at(&self, proc: Proc) -> bool {
        for at in 0u16..8 {
            let at = address(at);
            if self.chip.read(proc, at) != self.plain.read(0, proc, at) {
                return false;
            }
        }
        for number in 0u8..16 {
            let number = flag(number);
            if self.chip.flag(proc, number) != self.plain.flag(0, proc, number) {
                return false;
            }
        }
        true
    }

    fn agrees(&self) -> bool {
        for number in 0u8..16 {
            if !self.agrees_at(processor(number)) {
                return false;
            }
        }
        true
    }

    /// Whether a flag is 1 in some processor.
    fn has_flags(&self) -> bool {
        for number in 0u8..16 {
            if self.chip.flag_plane(flag(number)) != 0 {
                return true;
            }
        }
        false
    }

    /// The instruction after which the two differ first, and whether the last left a flag at 1: not all
    /// of this was about zeros.
    fn run(&mut self, alloc: Global) -> Result<(Option<u32>, bool), Fail> {
        let mut draws = Draws::new(1985);
        for round in 0u32..160 {
            let (a, b) = (address(draws.below(8)), address(draws.below(8)));
            self.step(alloc, &draws.nano(a, b))?;
            if !self.agrees() {
                return Ok((Some(round), true));
            }
        }
        Ok((None, self.has_flags()))
    }
}

/// The same of a blank chip and a blank plain machine.
fn run_beside(alloc: Global) -> Result<(Option<u32>, bool), Fail> {
    let mut both = Beside {
        chip: Chip::blank(alloc)?,
        plain: PlainMachine::blank(alloc, 8)?,
    };
    both.run(alloc)
}

#[test]
fn bits_come_in_where_news_or_daisy_is_written_and_the_condition_holds(
    rt: HostRuntime,
) -> Result<(), Fail> {
    assert_eq!(rt; first_not_so(rt.alloc(), &COPYING)?, None);
    Ok(())
}

#[test]
fn a_chip_takes_the_steps_of_the_plain_machine(rt: HostRuntime) -> Result<(), Fail> {
    assert_eq!(rt; run_beside(rt.alloc())?, (None, true));
    Ok(())
}
