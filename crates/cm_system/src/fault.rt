//! Why a text of one chip is refused.

use cm_language::AsmFault;
use thiserror::Error;

/// Why a session of one chip ended early. Its numbers are 14 to 17 for a text, and 30 to 33.
#[derive(Clone, Copy, Debug, PartialEq, Eq, Error)]
pub enum ChipFault {
    #[error("{0}")]
    Text(AsmFault),
    #[error("a read failed")]
    Read,
    /// So many bytes went out.
    #[error("a write failed or took 0 bytes, after {0} bytes")]
    Write(u128),
    #[error("more than 1048576 bytes of input")]
    TooMuch,
    #[error("a growth of memory was refused")]
    Memory,
}
