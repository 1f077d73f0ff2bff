//! Flags of all chips at once.

ghost use Rattle.std.specs.Prelude.{◌≡◌, ℕ, ◌^◌, ◌<◌, ◌==◌, not, length, slice_index};
ghost use Rattle.std.specs.List.{list_any};
ghost use Rattle.cm_model.specs.Processor.{flag};
ghost use Rattle.cm_model.specs.Chip.{IsPlane, processor_at};
ghost use Rattle.cm_model.specs.Array.{chip_at};
ghost use Rattle.cm_model.specs.Whole.{IsChip};
ghost use Rattle.cm_element.specs.Flags.{has_flag};

use super::{FLAGS, Run};
use crate::run::rows::row;
use cm_bits::{FlagNo, Plane};

impl Run {
    /// One flag of all processors, a plane for each chip in order.
    pub fn flag_row(&self, number: FlagNo) -> &[Plane]
        ensures count { length result.now ≡ length self.now }
        ensures value { (c : ℕ) → c < length self.now
            → IsPlane (slice_index result.now c) (λ p. flag (processor_at (chip_at self.now c) p) number) }
        ensures whole { (c : ℕ) → c < length self.now → IsChip (chip_at self.now c) }
    {
        let first = row(usize::from(number.get()), FLAGS, self.stride);
        &self.flags[first..first + self.chips]
    }

    /// Whether a flag is 1 in some processor of some chip.
    pub fn has_flag(&self, number: FlagNo) -> bool
        ensures value { result ≡ list_any (has_flag number) self.now }
        ensures whole { (c : ℕ) → c < length self.now → IsChip (chip_at self.now c) }
    {
        let row = self.flag_row(number);
        has_ones(row)
    }

    /// Whether a flag is 1 in some processor of a chip.
    pub fn chip_has_flag(&self, chip: u16, number: FlagNo) -> bool
        requires chip { chip < length self.now }
        ensures value { result ≡ has_flag number (chip_at self.now chip) }
        ensures whole { IsChip (chip_at self.now chip) }
    {
        self.flag_plane(chip, number) != 0
    }
}

/// Whether some plane has a 1. All planes are looked at, many at once.
pub(crate) fn has_ones(planes: &[Plane]) -> bool
    ensures value { result ≡ list_any (λ plane. not (plane == 0)) planes.now }
    ensures words { (c : ℕ) → slice_index planes.now c < 2 ^ 16 }
{
    let mut seen = 0;
    for plane in planes {
        seen |= plane;
    }
    seen != 0
}
