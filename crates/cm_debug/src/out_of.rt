//! What may be wanting while a line is answered.

use std::alloc::AllocError;

/// Why a line is not answered.
#[derive(Clone, Copy)]
pub enum OutOf {
    Memory,
    Thread,
}

impl From<AllocError> for OutOf {
    ghost use Rattle.std.specs.Prelude.{◌≡◌};
    ghost use Rattle.cm_debug.specs.declared.out_of.OutOf.TheVariants.{Memory};

    ghost from_gives = { λ _ want. want ≡ Memory };

    fn from(_: AllocError) -> OutOf {
        OutOf::Memory
    }
}
