//! How blocks go through a run.

ghost use Rattle.std.specs.Prelude.{◌≡◌, ℕ, ◌+◌, ◌-◌, ◌/◌, ◌<◌, ◌≤◌, ◌^◌, IfOk, length};
ghost use Rattle.cm_model.specs.Machine.{Machine};
ghost use Rattle.cm_subcube.specs.Rounds.{rounds_of};
ghost use Rattle.cm_gates.specs.Blocks.{AreAfter};
ghost use Rattle.cm_workers.specs.Runs.{StandAt, HaveBegun};

use crate::shift::shift;
use crate::turn::Crew;
use cm_gates::{OutOf, Passage, hand_over};
use cm_model::Act;
use cm_subcube::Round;
use std::alloc::Global;
use std::sync::Wait;
use std::thread::Threads;

/// The sizes of a machine that is cut into blocks, and of those who run it.
#[derive(Clone, Copy)]
pub struct CutSizes {
    /// Dimensions of the cube.
    pub dims: u8,
    /// Into 2^`k` blocks the machine is cut.
    pub k: u8,
    /// How many threads there are, from 1 to 64.
    pub workers: u16,
}

/// What blocks go through: the acts of a run, and its rounds. Workers who go through it go through a passage.
#[derive(Clone, Copy)]
pub struct Run<'a> {
    pub acts: &'a [Act],
    pub rounds: &'a [Round],
    pub passage: &'a Passage,
}

/// All blocks of a machine go through a run in threads: each worker has blocks w, w + `workers`, and so on. From one
/// round to the next every worker goes on in a thread of its own, and all are joined before the blocks exchange.
/// Fails for want of memory, or of a thread that was not started; the blocks are gone then.
pub fn run_blocks<R: Threads + Wait>(
    rt: &R,
    alloc: Global,
    sizes: CutSizes,
    run: Run<'_>,
    all: Crew,
) -> Result<Crew, OutOf>
    requires dimension { sizes.dims ≤ 12 }
    requires within { sizes.k ≤ sizes.dims - sizes.dims / 2 }
    requires some { 0 < sizes.workers }
    requires few { sizes.workers ≤ 64 }
    requires rounds { run.rounds.now ≡ rounds_of sizes.dims sizes.k run.acts.now }
    requires begun { HaveBegun sizes.dims sizes.k run.acts.now 0 all.blocks.items all.posts.items }
    ensures value { (room : ℕ) (machine : Machine)
        → StandAt sizes.dims sizes.k room machine run.entry.acts.now 0 all.blocks.items all.posts.items
        → IfOk result (λ now. AreAfter sizes.dims sizes.k room machine run.entry.acts.now now.blocks.items) }
{
    let mut all = all;
    for number in 0..run.rounds.len() {
        all = to_round(rt, alloc, sizes, run, number, all)?;
    }
    shift(rt, alloc, sizes, run, run.rounds.len(), all)
}

/// All blocks go on to a round, and exchange there.
fn to_round<R: Threads + Wait>(
    rt: &R,
    alloc: Global,
    sizes: CutSizes,
    run: Run<'_>,
    number: usize,
    all: Crew,
) -> Result<Crew, OutOf>
    requires dimension { sizes.dims ≤ 12 }
    requires within { sizes.k ≤ sizes.dims - sizes.dims / 2 }
    requires some { 0 < sizes.workers }
    requires few { sizes.workers ≤ 64 }
    requires rounds { run.rounds.now ≡ rounds_of sizes.dims sizes.k run.acts.now }
    requires number { number < length run.rounds.now }
    requires begun { HaveBegun sizes.dims sizes.k run.acts.now number all.blocks.items all.posts.items }
    ensures value { (room : ℕ) (machine : Machine)
        → StandAt sizes.dims sizes.k room machine run.entry.acts.now number all.blocks.items all.posts.items
        → IfOk result (λ now. StandAt sizes.dims sizes.k room machine run.entry.acts.now (number + 1)
        now.blocks.items now.posts.items) }
{
    let mut now = shift(rt, alloc, sizes, run, number, all)?;
    hand_over(&mut now.posts, sizes.dims, sizes.k, run.rounds[number].kind);
    Ok(now)
}
