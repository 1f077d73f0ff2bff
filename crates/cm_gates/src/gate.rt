//! Gates: who looks at workers while they run.

ghost use Rattle.std.specs.Prelude.{◌≡◌, ℕ, IfOk, IsOk, IsTrue, List};
ghost use Rattle.std.specs.List.{All};
ghost use Rattle.cm_subcube.specs.Blocks.{BlockView};
ghost use Rattle.cm_gates.specs.Gates.{ComesBy};

use crate::out_of::NoThread;
use cm_subcube::Block;

/// Looks at the workers of a run, from within their threads.
pub trait Gate: Sync + Send + Drop {
    /// What a worker of a number that it lets begin has of it.
    ghost admits: { Self → ℕ → Type 0 };

    // What it has of a worker of a number that came by, of a round as it was told, and of the worker's blocks.
    ghost saw: { Self → ℕ → ℕ → List BlockView → Type 0 } = { λ _ _ _ _. Unit {0} };

    /// Whether a worker may begin. It is asked once for each list of acts that is shared out, the worker with the
    /// lowest number first, once all memory that comes before the first thread was had, and before that worker is
    /// started; no further one once a worker was refused. It is not asked for a list that is empty or refused as too
    /// long or too late, nor for workers that a smaller machine has no blocks for.
    fn admit(&self, worker: u16) -> bool
        ensures admitted { IsTrue result → admits self.now worker };

    /// Called in a worker's thread before it sends in the round of that number, with its blocks as they are then, that
    /// of the lowest number first.
    fn pass(&self, worker: u16, round: u32, blocks: &[Block])
        requires gathered { All (λ b. IsTrue b.kept.gathered) blocks.now }
        requires own { ComesBy worker round blocks.now }
        ensures seen { saw self.now worker round blocks.now };
}

/// Whether somebody looks.
#[derive(Drop)]
pub enum Passage {
    /// Nobody: all workers are let through.
    Open,
    Gated(Box<dyn Gate>),
}

impl Passage {
    /// Asks whether a worker may begin.
    pub fn admit(&self, worker: u16) -> Result<(), NoThread>
        ensures open { self.now ≡ Passage.Open → IsOk result }
        ensures admitted { IfOk result (λ _. (gate : _) → self.now ≡ Passage.Gated gate → admits gate worker) }
    {
        match self {
            Passage::Open => Ok(()),
            Passage::Gated(gate) => ask(&**gate, worker),
        }
    }
}

fn ask(gate: &dyn Gate, worker: u16) -> Result<(), NoThread>
    ensures admitted { IfOk result (λ _. admits gate.now worker) }
{
    if gate.admit(worker) {
        Ok(())
    } else {
        Err(NoThread::not_admitted())
    }
}
