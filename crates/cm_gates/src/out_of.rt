//! What workers may lack. A want of memory and a want of a thread are of two types, so neither is told as the other.

use cm_bits::NoMemory;
use std::thread::SpawnError;
use thiserror::Error;

/// Who refused a thread.
#[derive(Clone, Copy, Debug, PartialEq, Eq)]
enum Refusal {
    Gate,
    Start,
    Starter,
}

/// A thread that was not admitted or not started. No refused growth makes one: it comes from `Passage::admit`, of what
/// a start of a thread answers, and from a worker whose starter let nobody begin.
#[derive(Clone, Copy, Debug, PartialEq, Eq, Error)]
#[error("a thread was not admitted or not started")]
pub struct NoThread {
    by: Refusal,
}

impl NoThread {
    /// One that a gate did not admit.
    pub(crate) fn not_admitted() -> NoThread {
        NoThread { by: Refusal::Gate }
    }

    /// One that could not be started.
    pub fn not_started<F: Drop>(_refused: SpawnError<F>) -> NoThread {
        NoThread { by: Refusal::Start }
    }

    /// One whose worker was told that nobody begins.
    pub fn cancelled() -> NoThread {
        NoThread {
            by: Refusal::Starter,
        }
    }
}

/// What was wanting, so that blocks did not go through a run.
#[derive(Clone, Copy, Debug, PartialEq, Eq, Error)]
pub enum OutOf {
    #[error("out of memory")]
    Memory(NoMemory),
    #[error("a thread was not admitted or not started")]
    Thread(NoThread),
}

impl From<NoMemory> for OutOf {
    ghost use Rattle.std.specs.Prelude.{◌≡◌};
    ghost use Rattle.cm_gates.specs.declared.out_of.OutOf.TheVariants.{Memory};

    ghost from_gives = { λ refused fault. fault ≡ Memory refused };

    fn from(refused: NoMemory) -> OutOf {
        OutOf::Memory(refused)
    }
}

impl From<NoThread> for OutOf {
    ghost use Rattle.std.specs.Prelude.{◌≡◌};
    ghost use Rattle.cm_gates.specs.declared.out_of.OutOf.TheVariants.{Thread};

    ghost from_gives = { λ refused fault. fault ≡ Thread refused };

    fn from(refused: NoThread) -> OutOf {
        OutOf::Thread(refused)
    }
}
