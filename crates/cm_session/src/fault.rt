//! Why a session ends before its commands do.

ghost use Rattle.std.specs.Prelude.{◌≡◌, ◌≤◌};
ghost use Rattle.cm_session.specs.Faults.{fault_number};

use thiserror::Error;

/// Why a session ends before all its commands are answered.
#[derive(Clone, Copy, Debug, PartialEq, Eq, Error)]
pub enum SessionFault {
    #[error("a read failed")]
    Read,
    /// The number of bytes that went out before.
    #[error("a write failed, or took no byte, after {0} bytes")]
    Write(u128),
    #[error("more than 1048576 bytes of commands")]
    TooMuch,
    #[error("a growth of memory was refused")]
    Memory,
    #[error("a thread was not admitted or not started")]
    NoThread,
}

impl SessionFault {
    /// The number that is reported of it.
    pub fn number(self) -> u8
        ensures value { result ≡ fault_number self }
        ensures some { 1 ≤ result }
        ensures known { result ≤ 38 }
    {
        match self {
            SessionFault::Read => 30,
            SessionFault::Write(_) => 31,
            SessionFault::TooMuch => 32,
            SessionFault::Memory => 33,
            SessionFault::NoThread => 9,
        }
    }
}
