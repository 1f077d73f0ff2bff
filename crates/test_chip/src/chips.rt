//! One chip: steps that poke it and look at it.

use crate::cases::{Case, first_not_so};
use crate::numbers::{address, flag, processor};
use cm_bits::{Field, Plane};
use cm_element::Chip;
use std::alloc::Global;
use std::mem;
use std::test::Fail;

/// One step of a scenario: something done to the chip, or how it stands.
#[derive(Clone, Copy)]
enum Step {
    /// Puts 1 into a memory bit of a processor.
    Poke(u8, u16),
    /// Puts 0 there.
    Clear(u8, u16),
    /// Puts a bit into a flag of a processor: whether it is taken.
    PokeFlag(u8, u8, bool, bool),
    /// Puts a plane into a flag of all processors.
    PokeFlagPlane(u8, Plane),
    /// Puts a number into a field, by address and length, of a processor.
    PokeField(u8, u16, u16, u64),
    /// Makes the other chip a copy of this one.
    Copy,
    /// Goes on with the other chip.
    Turn,
    /// A memory bit of a processor is this.
    Bit(u8, u16, bool),
    /// A flag of a processor is this.
    Flag(u8, u8, bool),
    /// A field, by address and length, of a processor has this value.
    Field(u8, u16, u16, u64),
    /// These addresses have these planes, all others 0.
    Memory(&'static [(u16, Plane)]),
    /// These flags have these planes, all others 0.
    Flags(&'static [(u8, Plane)]),
}

/// Two chips, of which the contracts of the steps tell nothing.
#[derive(Drop)]
struct Trial {
    chip: Chip,
    other: Chip,
}

impl Trial {
    /// Whether all steps go as they say.
    fn all_go(&mut self, alloc: Global, steps: &[Step]) -> Result<bool, Fail> {
        for step in steps {
            if !self.goes(alloc, *step)? {
                return Ok(false);
            }
        }
        Ok(true)
    }

    /// Whether a step goes as it says.
    fn goes(&mut self, alloc: Global, step: Step) -> Result<bool, Fail> {
        match step {
            Step::Poke(proc, at) => self.poke(proc, at, true),
            Step::Clear(proc, at) => self.poke(proc, at, false),
            Step::PokeFlag(proc, number, bit, is_taken) => {
                Ok(self.takes_flag(proc, number, bit)? == is_taken)
            }
            Step::PokeFlagPlane(number, plane) => self.poke_flag_plane(number, plane),
            Step::PokeField(proc, at, len, value) => self.poke_field(proc, at, len, value),
            Step::Copy => self.copy(alloc),
            Step::Turn => {
                mem::swap(&mut self.chip, &mut self.other);
                Ok(true)
            }
            _ => self.stands(step),
        }
    }

    fn poke(&mut self, proc: u8, at: u16, bit: bool) -> Result<bool, Fail> {
        self.chip.poke(processor(proc)?, address(at)?, bit);
        Ok(true)
    }

    /// Whether a poke of a flag is taken.
    fn takes_flag(&mut self, proc: u8, number: u8, bit: bool) -> Result<bool, Fail> {
        let (proc, number) = (processor(proc)?, flag(number)?);
        Ok(self.chip.poke_flag(proc, number, bit).is_ok())
    }

    fn poke_field(&mut self, proc: u8, at: u16, len: u16, value: u64) -> Result<bool, Fail> {
        let (proc, field) = (processor(proc)?, Field::new(at, len)?);
        self.chip.poke_field(proc, field, value);
        Ok(true)
    }

    fn copy(&mut self, alloc: Global) -> Result<bool, Fail> {
        self.other = self.chip.copy(alloc)?;
        Ok(true)
    }

    fn poke_flag_plane(&mut self, number: u8, plane: Plane) -> Result<bool, Fail> {
        let number = flag(number)?;
        if number.get() == 8 {
            return Ok(false);
        }
        self.chip.poke_flag_plane(number, plane);
        Ok(true)
    }

    /// Whether the chip stands as a step says.
    fn stands(&self, step: Step) -> Result<bool, Fail> {
        match step {
            Step::Bit(proc, at, bit) => Ok(self.chip.read(processor(proc)?, address(at)?) == bit),
            Step::Flag(proc, number, bit) => {
                Ok(self.chip.flag(processor(proc)?, flag(number)?) == bit)
            }
            Step::Field(proc, at, len, value) => {
                let field = Field::new(at, len)?;
                Ok(self.chip.field(processor(proc)?, field) == value)
            }
            Step::Memory(planes) => Ok(has_memory(&self.chip, planes)),
            Step::Flags(planes) => Ok(has_flags(&self.chip, planes)),
            _ => Ok(false),
        }
    }
}

/// Whether these addresses have these planes, all others 0.
fn has_memory(chip: &Chip, planes: &[(u16, Plane)]) -> bool {
    for at in 0u16..4096 {
        let mut wanted = 0;
        for (named, plane) in planes {
            if *named == at {
                wanted = *plane;
            }
        }
        if chip.plane(test_generators::address(at)) != wanted {
            return false;
        }
    }
    true
}

/// Whether these flags have these planes, all others 0.
fn has_flags(chip: &Chip, planes: &[(u8, Plane)]) -> bool {
    for number in 0u8..16 {
        let mut wanted = 0;
        for (named, plane) in planes {
            if *named == number {
                wanted = *plane;
            }
        }
        if chip.flag_plane(test_generators::flag(number)) != wanted {
            return false;
        }
    }
    true
}

/// Steps that begin with two blank chips.
struct Scenario {
    name: &'static str,
    steps: &'static [Step],
}

impl Case for Scenario {
    fn name(&self) -> &'static str {
        self.name
    }

    fn is_so(&self, alloc: Global) -> Result<bool, Fail> {
        let mut trial = Trial {
            chip: Chip::blank(alloc)?,
            other: Chip::blank(alloc)?,
        };
        trial.all_go(alloc, self.steps)
    }
}

static SCENARIOS: [Scenario; 6] = [
    Scenario {
        name: "a poke of flag 8 is refused whatever the bit, and nothing changes",
        steps: &[
            Step::Poke(3, 4095),
            Step::PokeFlag(3, 7, true, true),
            Step::PokeFlag(3, 8, false, false),
            Step::Flags(&[(7, 0x0008)]),
            Step::Memory(&[(4095, 0x0008)]),
            Step::PokeFlag(3, 8, true, false),
            Step::Flags(&[(7, 0x0008)]),
            Step::Memory(&[(4095, 0x0008)]),
        ],
    },
    Scenario {
        name: "the lowest bit of a field lies at its address",
        steps: &[
            Step::Poke(15, 100),
            Step::Poke(15, 102),
            Step::Poke(15, 103),
            Step::Poke(15, 4032),
            Step::Poke(15, 4095),
            Step::Poke(14, 101),
            Step::Field(15, 100, 4, 0b1101),
            Step::Field(15, 101, 3, 0b110),
            Step::Field(15, 104, 8, 0),
            Step::Field(15, 4032, 64, 0x8000_0000_0000_0001),
            Step::Field(15, 4095, 1, 1),
            Step::Field(14, 100, 4, 0b0010),
        ],
    },
    Scenario {
        name: "a copy stands apart from its original",
        steps: &[
            Step::Poke(0, 9),
            Step::Copy,
            Step::Poke(1, 9),
            Step::Turn,
            Step::Clear(0, 9),
            Step::PokeFlag(2, 0, true, true),
            Step::Memory(&[]),
            Step::Flags(&[(0, 0x0004)]),
            Step::Flag(2, 0, true),
            Step::Turn,
            Step::Memory(&[(9, 0x0003)]),
            Step::Flags(&[]),
            Step::Bit(1, 9, true),
        ],
    },
    Scenario {
        name: "a copy has the bits and flags of its original",
        steps: &[
            Step::Poke(7, 4095),
            Step::PokeFlagPlane(15, 0x8001),
            Step::Copy,
            Step::Turn,
            Step::Memory(&[(4095, 0x0080)]),
            Step::Flags(&[(15, 0x8001)]),
        ],
    },
    Scenario {
        name: "a number fills its field and no more",
        steps: &[
            Step::Poke(0, 99),
            Step::Poke(0, 100),
            Step::Poke(0, 103),
            Step::Poke(0, 108),
            Step::PokeField(0, 100, 8, 0x7a6),
            Step::Memory(&[(99, 1), (101, 1), (102, 1), (105, 1), (107, 1), (108, 1)]),
            Step::Field(0, 100, 8, 0xa6),
        ],
    },
    Scenario {
        name: "a plane goes into one flag, in place of what was there",
        steps: &[
            Step::PokeFlagPlane(12, 0x0180),
            Step::PokeFlagPlane(12, 0x8001),
            Step::Flags(&[(12, 0x8001)]),
        ],
    },
];

#[test]
fn pokes_change_what_they_name(rt: HostRuntime) -> Result<(), Fail> {
    assert_eq!(rt; first_not_so(rt.alloc(), &SCENARIOS)?, None);
    Ok(())
}
