//! The global wire of the chips of a run.

ghost use Rattle.std.specs.Prelude.{◌≡◌};
ghost use Rattle.cm_model.specs.Array.{wire};
ghost use Rattle.cm_wire.specs.Wire.{chip_or};

use cm_bits::FlagNo;
use cm_element::{ChipView, Run};

/// What a chip gives to the global wire (Hillis 1985): whether flag GLOBAL is 1 in one of its processors.
pub fn chip_or(chip: &ChipView<'_>) -> bool
    ensures value { result ≡ chip_or chip.now }
{
    chip.has_flag(FlagNo::GLOBAL)
}

/// The global wire: whether flag GLOBAL is 1 in some processor of some chip, by words of one row.
#[tactic(auto, unfolding(cm_model::specs::Array::wire))]
pub fn wire(run: &Run) -> bool
    ensures value { result ≡ wire run.now }
{
    run.has_flag(FlagNo::GLOBAL)
}
