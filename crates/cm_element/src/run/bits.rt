//! The bits and flags of the processors of one chip of a run.

ghost use Rattle.std.specs.Prelude.{◌≡◌, ◌≢◌, ◌+◌, ◌<◌, ◌≤◌, ◌↔◌, length, slice_set, IsErr, OnOk, OnErr};
ghost use Rattle.cm_bits.specs.Bit.{bit};
ghost use Rattle.cm_model.specs.Processor.{ZERO, memory_bit, flag, field_value};
ghost use Rattle.cm_model.specs.Chip.{processor_at, with_memory_bit, with_flag};
ghost use Rattle.cm_model.specs.Array.{chip_at};
ghost use Rattle.cm_model.specs.Whole.{IsChip};
ghost use Rattle.cm_element.specs.Wide.{with_memory_field, with_flag_plane, with_memory_plane};

use super::{FLAGS, Run};
use crate::run::rows::word_at;
use crate::word::{SIXTEEN, bit_of, bits_in, is_one, with_bit};
use cm_bits::{Addr, Field, FlagNo, Plane, Proc};
use thiserror::Error;

/// Flag 8 cannot be poked: it always reads 0.
#[derive(Clone, Copy, Debug, PartialEq, Eq, Error)]
#[error("flag 8 is always 0")]
pub struct ZeroFlag;

impl Run {
    /// The memory bit of a processor at an address. The chip goes by its place in the run.
    pub fn read(&self, chip: u16, proc: Proc, at: Addr) -> bool
        requires chip { chip < length self.now }
        ensures value { result ≡ memory_bit (processor_at (chip_at self.now chip) proc) at }
    {
        is_one(self.plane(chip, at), proc)
    }

    /// The value of a memory field: bit 0 lies at the field's address. It stands in its callers, most of which know the
    /// field.
    #[inline(always)]
    pub fn field(&self, chip: u16, proc: Proc, field: Field) -> u64
        requires chip { chip < length self.now }
        ensures value { result ≡ field_value (processor_at (chip_at self.now chip) proc) field.at field.len }
    {
        let at = usize::from(field.at());
        let len = usize::from(field.len());
        let sixteens = len / 16;
        let mut value = self.few_bits(chip, proc, at + sixteens * 16, len % 16);
        for below_top in 0..sixteens {
            let lower = at + (sixteens - 1 - below_top) * 16;
            value = value * 65536 + self.sixteen_bits(chip, proc, lower);
        }
        value
    }

    /// The value of fewer than sixteen memory bits from an address up, which are read one by one.
    fn few_bits(&self, chip: u16, proc: Proc, at: usize, len: usize) -> u64
        requires chip { chip < length self.now }
        requires few { len < 16 }
        requires within { at + len ≤ 4096 }
        ensures value { result ≡ field_value (processor_at (chip_at self.now chip) proc) at len }
    {
        let mut value: u64 = 0;
        for below_top in 0..len {
            let plane = self.memory_word(chip, at + (len - 1 - below_top));
            value = value * 2 + u64::from(is_one(plane, proc));
        }
        value
    }

    /// The value of sixteen memory bits from an address up: their planes are looked at all at once.
    fn sixteen_bits(&self, chip: u16, proc: Proc, at: usize) -> u64
        requires chip { chip < length self.now }
        requires within { at + 16 ≤ 4096 }
        ensures value { result ≡ field_value (processor_at (chip_at self.now chip) proc) at 16 }
    {
        let mut planes: [Plane; SIXTEEN] = [0; SIXTEEN];
        for i in 0..SIXTEEN {
            planes[i] = self.memory_word(chip, at + i);
        }
        bits_in(&planes, proc)
    }

    /// One flag of a processor. The chip goes by its place in the run.
    pub fn flag(&self, chip: u16, proc: Proc, number: FlagNo) -> bool
        requires chip { chip < length self.now }
        ensures value { result ≡ flag (processor_at (chip_at self.now chip) proc) number }
        ensures whole { IsChip (chip_at self.now chip) }
    {
        is_one(self.flag_plane(chip, number), proc)
    }

    /// Puts a bit into the memory of one processor.
    pub fn poke(&mut self, chip: u16, proc: Proc, at: Addr, bit: bool)
        requires chip { chip < length self.old }
        ensures value { self.new ≡ slice_set self.old chip (with_memory_bit (chip_at self.old chip) proc at bit) }
    {
        self.put_bit(chip, proc, usize::from(at.get()), bit);
    }

    /// Puts the lowest bits of a number into a memory field of one processor: bit 0 goes to the
    /// field's address.
    pub fn poke_field(&mut self, chip: u16, proc: Proc, field: Field, value: u64)
        requires chip { chip < length self.old }
        ensures value { self.new
            ≡ slice_set self.old chip (with_memory_field (chip_at self.old chip) proc field.at field.len value) }
    {
        let at = usize::from(field.at());
        let put = self.put_field(chip, proc, field, value);
        for i in put..usize::from(field.len()) {
            self.put_bit(chip, proc, at + i, bit_of(value, i));
        }
    }

    /// Puts a bit into a flag of one processor, but not into flag 8.
    pub fn poke_flag(
        &mut self,
        chip: u16,
        proc: Proc,
        number: FlagNo,
        bit: bool,
    ) -> Result<(), ZeroFlag>
        requires chip { chip < length self.old }
        ensures zero_flag { IsErr result ↔ (number ≡ ZERO) }
        ensures ok { OnOk result (self.new
            ≡ slice_set self.old chip (with_flag (chip_at self.old chip) proc number bit)) }
        ensures err { OnErr result (self.new ≡ self.old) }
    {
        if number == FlagNo::ZERO {
            return Err(ZeroFlag);
        }
        let here = word_at(usize::from(number.get()), FLAGS, self.stride, chip);
        self.flags[here] = with_bit(self.flags[here], proc, bit);
        Ok(())
    }

    /// Puts a plane into a flag of all processors of a chip, but not into flag 8.
    pub fn poke_flag_plane(&mut self, chip: u16, number: FlagNo, plane: Plane)
        requires chip { chip < length self.old }
        requires other { number ≢ ZERO }
        ensures value { self.new
            ≡ slice_set self.old chip (with_flag_plane (chip_at self.old chip) number (bit plane)) }
    {
        let here = word_at(usize::from(number.get()), FLAGS, self.stride, chip);
        self.flags[here] = plane;
    }

    /// Puts a plane at an address of all processors of a chip: bit p is that of processor p.
    pub fn poke_plane(&mut self, chip: u16, at: Addr, plane: Plane)
        requires chip { chip < length self.old }
        ensures value { self.new
            ≡ slice_set self.old chip (with_memory_plane (chip_at self.old chip) at (bit plane)) }
    {
        self.memory
            .put(usize::from(at.get()), self.stride, chip, plane);
    }

    /// Puts the lowest bits of a number into a memory field of one processor, as far as the rows that are
    /// in use take them, and says how many.
    fn put_field(&mut self, chip: u16, proc: Proc, field: Field, value: u64) -> usize
        requires chip { chip < length self.old }
        ensures value { self.new
            ≡ slice_set self.old chip (with_memory_field (chip_at self.old chip) proc field.at result value) }
        ensures within { result ≤ field.len }
    {
        self.memory.put_field(self.stride, chip, proc, field, value)
    }

    /// Puts a bit into the memory of one processor.
    fn put_bit(&mut self, chip: u16, proc: Proc, at: usize, bit: bool)
        requires chip { chip < length self.old }
        requires at { at < 4096 }
        ensures value { self.new ≡ slice_set self.old chip (with_memory_bit (chip_at self.old chip) proc at bit) }
        ensures proc { proc < 16 }
        ensures whole { IsChip (chip_at self.old chip) }
    {
        let word = with_bit(self.memory.word(at, self.stride, chip), proc, bit);
        self.memory.put(at, self.stride, chip, word);
    }
}
