//! How workers share out a machine: into how many blocks it is cut, how many workers there are, and what a runner tells
//! of what they lacked.

ghost use Rattle.std.specs.Prelude.{◌≡◌, ◌-◌, ◌/◌, ◌^◌, ◌<◌, ◌≤◌, ltb, IsErrOf, IsOk, MatchResult};
ghost use Rattle.cm_gates.specs.Forks.{fork_fault, most_blocks, most_workers, of_want};

use crate::out_of::OutOf;
use cm_array::RunFault;
use thiserror::Error;

/// Why there is no such runner.
#[derive(Clone, Copy, Debug, PartialEq, Eq, Error)]
pub enum ForkFault {
    #[error("a block would have less than a row of chips")]
    Split,
    #[error("there is no worker, or there are more than blocks")]
    Workers,
}

/// Into 2^`k` blocks a machine is cut, for so many workers.
#[derive(Clone, Copy)]
pub struct Share {
    pub k: u8,
    pub workers: u16,
}

/// Why no machine of 2^`N` chips is cut into 2^`k` blocks for so many workers.
pub fn fault_of<const N: usize>(k: u8, workers: u16) -> Option<ForkFault>
    ensures value { result ≡ fork_fault N k workers }
{
    if usize::from(k) > N - N / 2 {
        return Some(ForkFault::Split);
    }
    if workers == 0 || are_too_few(k, workers) {
        return Some(ForkFault::Workers);
    }
    None
}

/// How 2^`k` blocks and so many workers share out a machine of so many dimensions.
pub fn share_of(k: u8, workers: u16, dims: u8) -> Share
    requires dimension { dims ≤ 12 }
    requires some { 0 < workers }
    ensures blocks { result.k ≡ most_blocks dims k }
    ensures workers { result.workers ≡ most_workers dims k workers }
    ensures within { result.k ≤ dims - dims / 2 }
    ensures some { 0 < result.workers }
    ensures enough { result.workers ≤ 2 ^ result.k }
    ensures few { result.workers ≤ 64 }
{
    let k = k.min(dims - dims / 2);
    Share {
        k,
        workers: workers.min(1 << k),
    }
}

/// Whether 2^`k` blocks are too few for so many workers.
fn are_too_few(k: u8, workers: u16) -> bool
    ensures value { result ≡ ltb (2 ^ k) workers }
{
    k < 16 && 1 << k < workers
}

/// What workers did or wanted, as a runner tells it.
pub fn told(done: Result<(), OutOf>) -> Result<(), RunFault>
    ensures value { MatchResult done (λ _. IsOk result) (λ want. IsErrOf result (of_want want)) }
{
    match done {
        Ok(()) => Ok(()),
        Err(OutOf::Memory(_)) => Err(RunFault::Memory),
        Err(OutOf::Thread(_)) => Err(RunFault::NoThread),
    }
}
