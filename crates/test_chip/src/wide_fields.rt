//! Fields of all lengths, beside their bits one by one.

use crate::cases::{Case, first_not_so};
use cm_bits::{Field, Proc};
use cm_element::Chip;
use std::alloc::Global;
use std::test::Fail;
use test_generators::{Draws, address, processor};

/// Fields of one length: these, and the last.
struct Length(&'static str, u16, u16);

const STARTS: [u16; 3] = [1, 101, 2047];

static LENGTHS: [Length; 8] = [
    Length("1 bit", 1, 4095),
    Length("15 bits", 15, 4081),
    Length("16 bits", 16, 4080),
    Length("17 bits", 17, 4079),
    Length("32 bits", 32, 4064),
    Length("48 bits", 48, 4048),
    Length("63 bits", 63, 4033),
    Length("64 bits", 64, 4032),
];

/// Processors 6, 7 and 8 have drawn bits in all of their memory.
fn draw(chip: &mut Chip) {
    let mut draws = Draws::new(1985);
    for at in 0u16..4096 {
        for number in 6u8..9 {
            chip.poke(processor(number), address(at), draws.once_in(2));
        }
    }
}

fn field_bit_by_bit(chip: &Chip, proc: Proc, field: Field) -> u64 {
    let mut value: u64 = 0;
    for i in 0..field.len() {
        let at = address(field.at() + i);
        value |= u64::from(chip.read(proc, at)) << i;
    }
    value
}

fn poke_bit_by_bit(chip: &mut Chip, proc: Proc, field: Field, value: u64) {
    for i in 0..field.len() {
        let at = address(field.at() + i);
        chip.poke(proc, at, value >> i & 1 == 1);
    }
}

fn have_same_memory(left: &Chip, right: &Chip) -> bool {
    for at in 0u16..4096 {
        let at = address(at);
        if left.plane(at) != right.plane(at) {
            return false;
        }
    }
    true
}

/// Whether another chip has the memory of this one once a number is put bit by bit.
fn becomes(
    alloc: Global,
    chip: &Chip,
    field: Field,
    value: u64,
    other: &Chip,
) -> Result<bool, Fail> {
    let mut one_by_one = chip.copy(alloc)?;
    poke_bit_by_bit(&mut one_by_one, processor(7), field, value);
    Ok(have_same_memory(other, &one_by_one))
}

impl Length {
    /// Whether the field at an address reads as its bits, and is put as its bits.
    fn is_so_at(&self, alloc: Global, chip: &Chip, at: u16) -> Result<bool, Fail> {
        let Length(_, len, _) = *self;
        let field = Field::new(at, len)?;
        if chip.field(processor(7), field) != field_bit_by_bit(chip, processor(7), field) {
            return Ok(false);
        }
        // Numbers of 64 bits that look random, another for each field.
        let value = (u64::from(at) + u64::from(len))
            .wrapping_mul(6_364_136_223_846_793_005)
            .rotate_left(32);
        let mut at_once = chip.copy(alloc)?;
        at_once.poke_field(processor(7), field, value);
        becomes(alloc, chip, field, value, &at_once)
    }

    fn are_so(&self, alloc: Global, chip: &Chip) -> Result<bool, Fail> {
        let Length(_, _, last) = *self;
        for at in STARTS {
            if !self.is_so_at(alloc, chip, at)? {
                return Ok(false);
            }
        }
        self.is_so_at(alloc, chip, last)
    }
}

impl Case for Length {
    fn name(&self) -> &'static str {
        self.0
    }

    fn is_so(&self, alloc: Global) -> Result<bool, Fail> {
        let mut chip = Chip::blank(alloc)?;
        draw(&mut chip);
        self.are_so(alloc, &chip)
    }
}

#[test]
fn fields_of_all_lengths_are_read_and_put_as_their_bits(rt: HostRuntime) -> Result<(), Fail> {
    assert_eq!(rt; first_not_so(rt.alloc(), &LENGTHS)?, None);
    Ok(())
}
