//! One chip of a run, to be read.

ghost use Rattle.std.specs.Prelude.{◌≡◌, ◌<◌, length};
ghost use Rattle.cm_model.specs.Processor.{memory_bit, flag, field_value};
ghost use Rattle.cm_model.specs.Chip.{IsPlane, processor_at};
ghost use Rattle.cm_model.specs.Array.{chip_at};
ghost use Rattle.cm_model.specs.Whole.{IsChip};
ghost use Rattle.cm_element.specs.Flags.{has_flag};

use super::Run;
use cm_bits::{Addr, Field, FlagNo, Plane, Proc};
use std::marker::Model;

/// A chip of a run, which is read as a chip by itself.
///
/// Contracts see the list of its processors.
#[derive(Drop)]
pub struct ChipView<'a> {
    run: &'a Run,
    chip: u16,
}

impl<'a> Model for ChipView<'a> {
    ghost use Rattle.std.specs.Prelude.{List, ◌<◌, length};
    ghost use Rattle.cm_model.specs.Processor.{Processor};
    ghost use Rattle.cm_model.specs.Array.{chip_at};

    ghost Value = { List Processor };

    ghost view = { λ view. chip_at view.run.now view.chip };

    ghost invariant = { λ view. view.chip < length view.run.now };
}

impl Run {
    /// One chip, to be read.
    pub fn view(&self, chip: u16) -> ChipView<'_>
        requires chip { chip < length self.now }
        ensures value { result ≡ chip_at self.now chip }
    {
        ChipView { run: self, chip }
    }
}

impl<'a> ChipView<'a> {
    /// The memory bit of a processor at an address.
    pub fn read(&self, proc: Proc, at: Addr) -> bool
        ensures value { result ≡ memory_bit (processor_at self.now proc) at }
    {
        self.run.read(self.chip, proc, at)
    }

    /// The bits of all processors at an address: bit p is that of processor p.
    pub fn plane(&self, at: Addr) -> Plane
        ensures value { IsPlane result (λ p. memory_bit (processor_at self.now p) at) }
    {
        self.run.plane(self.chip, at)
    }

    /// The value of a memory field: bit 0 lies at the field's address.
    #[inline(always)]
    pub fn field(&self, proc: Proc, field: Field) -> u64
        ensures value { result ≡ field_value (processor_at self.now proc) field.at field.len }
    {
        self.run.field(self.chip, proc, field)
    }

    /// One flag of a processor.
    pub fn flag(&self, proc: Proc, number: FlagNo) -> bool
        ensures value { result ≡ flag (processor_at self.now proc) number }
        ensures whole { IsChip self.now }
    {
        self.run.flag(self.chip, proc, number)
    }

    /// One flag of all processors: bit p is that of processor p.
    pub fn flag_plane(&self, number: FlagNo) -> Plane
        ensures value { IsPlane result (λ p. flag (processor_at self.now p) number) }
        ensures whole { IsChip self.now }
    {
        self.run.flag_plane(self.chip, number)
    }

    /// Whether a flag is 1 in some processor.
    pub fn has_flag(&self, number: FlagNo) -> bool
        ensures value { result ≡ has_flag number self.now }
    {
        self.run.chip_has_flag(self.chip, number)
    }
}
