ghost use Rattle.std.specs.Prelude.{◌≡◌};
ghost use Rattle.cm_args.specs.declared.fault.LineFault.TheVariants.{Memory};

use std::alloc::AllocError;
use thiserror::Error;

/// Why there is no line.
#[derive(Clone, Copy, Debug, PartialEq, Eq, Error)]
pub enum LineFault {
    /// The words are no command line of the program.
    #[error("bad command line")]
    BadLine,
    /// Memory ran out while the words were read.
    #[error("out of memory")]
    Memory,
}

impl From<AllocError> for LineFault {
    ghost from_gives = { λ _ fault. fault ≡ Memory };

    fn from(_error: AllocError) -> LineFault {
        LineFault::Memory
    }
}
