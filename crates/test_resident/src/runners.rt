//! Both runners of workers, beside one thread.

ghost use Rattle.std.specs.Prelude.{◌≡◌, ◌^◌, IsTrue};
ghost use Rattle.std.specs.List.{All};
ghost use Rattle.std.specs.Thread.{IsSync};
ghost use Rattle.cm_gates.specs.Gates.{ComesBy};

use cm_array::{Machine, RunFault};
use cm_model::Act;
use cm_resident::Resident;
use cm_subcube::Block;
use cm_workers::{Forked, Gate, Passage};
use std::alloc::Global;
use std::sync::Wait;
use std::thread::Threads;
use test_generators::run_beside_plain;

/// Whose workers are joined at each round, and whose run on.
#[derive(Clone, Copy, Debug, PartialEq, Eq)]
pub(crate) enum Kind {
    Forked,
    Resident,
}

/// Into 2^`k` blocks a machine is cut, for so many workers.
#[derive(Clone, Copy, Debug, PartialEq, Eq)]
pub(crate) struct Share {
    pub(crate) k: u8,
    pub(crate) workers: u16,
}

/// A gate that admits all and looks at nothing. Where there is a gate, blocks have their logs whole.
#[derive(Drop)]
pub(crate) struct Anyone;

impl Gate for Anyone {
    ghost admits = { λ gate worker. Unit {0} };

    fn admit(&self, _worker: u16) -> bool {
        true
    }

    fn pass(&self, _worker: u16, _round: u32, _blocks: &[Block])
        requires gathered { All (λ b. IsTrue b.kept.gathered) _blocks.now }
        requires own { ComesBy _worker _round _blocks.now }
    {}
}

/// With what fault so many workers, who are joined at each round, refuse the acts, and whether they leave the machine
/// as one thread does, or else as it was.
fn run_by_forked<const N: usize, const CAP: usize, R: Threads + Wait>(
    rt: &R,
    alloc: Global,
    share: Share,
    passage: Passage,
    machine: &mut Machine<N, CAP>,
    acts: &[Act],
    chips: u16,
) -> Option<(Option<RunFault>, bool)>
    requires chips { chips ≡ 2 ^ N }
    requires threads { IsSync R.row }
{
    let mut forked = Forked::new::<N>(rt, alloc, share.k, share.workers, passage).ok()?;
    run_beside_plain(&mut forked, alloc, machine, acts, chips)
}

/// The same where they run on.
fn run_by_resident<const N: usize, const CAP: usize, R: Threads + Wait + Sync>(
    rt: &R,
    alloc: Global,
    share: Share,
    passage: Passage,
    machine: &mut Machine<N, CAP>,
    acts: &[Act],
    chips: u16,
) -> Option<(Option<RunFault>, bool)>
    requires chips { chips ≡ 2 ^ N }
    requires threads { IsSync R.row }
{
    let mut resident = Resident::new::<N>(rt, alloc, share.k, share.workers, passage).ok()?;
    run_beside_plain(&mut resident, alloc, machine, acts, chips)
}

/// The same by either.
pub(crate) fn run_by<const N: usize, const CAP: usize, R: Threads + Wait + Sync>(
    rt: &R,
    alloc: Global,
    kind: Kind,
    share: Share,
    passage: Passage,
    machine: &mut Machine<N, CAP>,
    acts: &[Act],
    chips: u16,
) -> Option<(Option<RunFault>, bool)>
    requires chips { chips ≡ 2 ^ N }
    requires threads { IsSync R.row }
{
    match kind {
        Kind::Forked => run_by_forked(rt, alloc, share, passage, machine, acts, chips),
        Kind::Resident => run_by_resident(rt, alloc, share, passage, machine, acts, chips),
    }
}
