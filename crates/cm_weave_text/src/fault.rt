//! Why a world that is stepped is given up.

ghost use Rattle.std.specs.Prelude.{◌≡◌, ◌≤◌};
ghost use Rattle.cm_weave_text.specs.Faults.{weave_fault_number};

use thiserror::Error;

/// Why there is no machine at the end.
#[derive(Clone, Copy, Debug, PartialEq, Eq, Error)]
pub enum WeaveFault {
    #[error("a read failed")]
    Read,
    /// The number of bytes that went out before.
    #[error("a write failed, or took no byte, after {0} bytes")]
    Write(u128),
    #[error("more than 16777216 bytes of steps")]
    TooMuch,
    #[error("a growth of memory was refused")]
    Memory,
    #[error("a block has steps left")]
    Unfinished,
}

impl WeaveFault {
    /// The number that is reported of it.
    pub fn number(self) -> u8
        ensures value { result ≡ weave_fault_number self }
        ensures some { 1 ≤ result }
        ensures known { result ≤ 38 }
    {
        match self {
            WeaveFault::Read => 30,
            WeaveFault::Write(_) => 31,
            WeaveFault::TooMuch => 32,
            WeaveFault::Memory => 33,
            WeaveFault::Unfinished => 35,
        }
    }
}
