//! What the workers of a team get for each block of a machine.

ghost use Rattle.std.specs.Prelude.{◌≡◌, ℕ, ◌+◌, ◌-◌, ◌/◌, ◌<◌, ◌≤◌, ◌^◌, IfOk, List, [], length};
ghost use Rattle.cm_model.specs.declared.act.Act.{Act};
ghost use Rattle.cm_array.specs.Acts.{cycles_in};
ghost use Rattle.cm_subcube.specs.Rounds.{rounds_of};
ghost use Rattle.cm_turns.specs.Lanes.{Run};
ghost use Rattle.cm_turns.specs.Standing.{IsRunBlock};
ghost use Rattle.cm_resident.specs.Gathering.{AreAll, AreFrom};
ghost use Rattle.cm_resident.specs.Teams.{AreMatched, AreMatchedForSome, IsWorkerParts};

use crate::gathering::take_firsts;
use crate::lanes::{Ends, open_all};
use cm_array::{MachineOf, Part, Sizes};
use cm_bits::NoMemory;
use cm_board::{FromEnd, ToEnd};
use cm_model::Act;
use cm_subcube::{Block, Parcel, SplitFault, split_in};
use std::alloc::Global;

/// A block, and its ends by place: those over which it sends, and those over which it gets.
#[derive(Drop)]
pub(crate) struct WorkerParts {
    pub(crate) block: Block,
    pub(crate) sends: Vec<FromEnd<Parcel>>,
    pub(crate) gets: Vec<ToEnd<Parcel>>,
}

/// The blocks of a machine that is cut into 2^`k`, in their order, with the ends of their lanes for these acts, which
/// have so many petit cycles. Parts that are not needed any more give room.
pub(crate) fn worker_parts<S: Sizes>(
    alloc: Global,
    machine: &MachineOf<S>,
    acts: &[Act],
    k: u8,
    cycles: usize,
    used: &mut Vec<Part>,
) -> Result<Vec<WorkerParts>, NoMemory>
    requires within { k ≤ S.n - S.n / 2 }
    requires few { length (rounds_of S.n k acts.now) ≤ 4416 }
    requires cycles { cycles ≡ cycles_in acts.now }
    requires clock { machine.now.machine.clock + cycles < 2 ^ 63 }
    ensures value { IfOk result (λ worker_parts. AreAll (IsWorkerParts
        (record { n = S.n; k = k; room = S.cap; machine = machine.now.machine; acts = acts.now }))
        (2 ^ k) worker_parts.items) }
{
    let mut blocks = partition(alloc, machine, k, cycles, used)?;
    let mut ends = open_all(alloc, machine, acts, k)?;
    with_ends(alloc, &mut blocks, &mut ends)
}

/// Takes out blocks, and with each the ends of its lanes.
fn with_ends(
    alloc: Global,
    blocks: &mut Vec<Block>,
    ends: &mut Ends,
) -> Result<Vec<WorkerParts>, NoMemory>
    requires some { AreMatchedForSome 0 blocks.old.items ends.old.sends.items ends.old.gets.items [] }
    ensures value { IfOk result (λ worker_parts. (run : Run)
        → AreMatched run 0 blocks.old.items ends.old.sends.items ends.old.gets.items []
        → AreAll (IsWorkerParts run) (2 ^ run.k) worker_parts.items) }
{
    let count = blocks.len();
    let mut worker_parts = Vec::with_capacity(alloc, count)?;
    for _b in 0..count {
        let sends = take_firsts(alloc, &mut ends.sends)?;
        let gets = take_firsts(alloc, &mut ends.gets)?;
        worker_parts.push_reserved(WorkerParts {
            block: blocks.remove(0),
            sends,
            gets,
        });
    }
    Ok(worker_parts)
}

/// The blocks of a machine, with room in their logs for so many petit cycles.
fn partition<S: Sizes>(
    alloc: Global,
    machine: &MachineOf<S>,
    k: u8,
    cycles: usize,
    used: &mut Vec<Part>,
) -> Result<Vec<Block>, NoMemory>
    requires within { k ≤ S.n - S.n / 2 }
    requires clock { machine.now.machine.clock + cycles < 2 ^ 63 }
    ensures value { IfOk result (λ blocks. (acts : List Act) → cycles_in acts ≡ cycles → AreFrom (IsRunBlock
        (record { n = S.n; k = k; room = S.cap; machine = machine.now.machine; acts = acts })) 0 (2 ^ k) blocks.items) }
{
    match split_in(alloc, machine, k, cycles, used) {
        Ok(blocks) => Ok(blocks),
        Err(SplitFault::Memory) => Err(NoMemory),
        Err(SplitFault::Split) => unreachable!(),
    }
}
