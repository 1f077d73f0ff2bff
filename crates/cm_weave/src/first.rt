//! A world as it begins.

ghost use Rattle.std.specs.Prelude.{◌≡◌, ◌+◌, ◌*◌, ◌-◌, ◌/◌, ◌<◌, ◌≤◌, ◌^◌, IfErr, IfOk, IsOk, None, length, replicate};
ghost use Rattle.std.specs.Option.{unwrap_or};
ghost use Rattle.cm_array.specs.Acts.{cycles_in};
ghost use Rattle.cm_exchange.specs.Lanes.{kind_count};
ghost use Rattle.cm_exchange.specs.Worlds.{at_first};
ghost use Rattle.cm_weave.specs.Faults.{world_fault};
ghost use Rattle.cm_weave.specs.First.{AreBeginning, AreUnused, IsPrepared};

use crate::kinds::{block_count, kind_numbered};
use crate::lane::Lane;
use cm_array::{MachineOf, RunFault, Sizes, check_stretch};
use cm_bits::NoMemory;
use cm_exchange::Stand;
use cm_model::Act;
use cm_subcube::{Block, Parcel, Round, SplitFault, rounds, split};
use std::alloc::Global;
use thiserror::Error;

const AT_FIRST: Stand = Stand { round: 0, stage: 0 };

/// Why there is no world.
#[derive(Clone, Copy, Debug, PartialEq, Eq, Error)]
pub enum WorldFault {
    #[error("more than 4,096 acts or 64 petit cycles in one stretch")]
    Long,
    #[error("more than 2^63 - 1 petit cycles in all")]
    Clock,
    #[error("a block would have less than a row of chips")]
    Split,
    #[error("out of memory")]
    Memory,
}

impl From<NoMemory> for WorldFault {
    ghost use Rattle.std.specs.Prelude.{◌≡◌};
    ghost use Rattle.cm_weave.specs.declared.first.WorldFault.TheVariants.{Memory};

    ghost from_gives = { λ _ fault. fault ≡ Memory };

    fn from(_: NoMemory) -> WorldFault {
        WorldFault::Memory
    }
}

/// A machine of which no world was made, as it was, and why.
#[derive(Drop)]
pub struct Refused<S: Sizes> {
    pub fault: WorldFault,
    pub machine: MachineOf<S>,
}

/// What a world has beside its machine.
#[derive(Drop)]
pub(crate) struct Prepared {
    pub(crate) acts: Vec<Act>,
    pub(crate) rounds: Vec<Round>,
    pub(crate) blocks: Vec<Block>,
    pub(crate) stands: Vec<Stand>,
    pub(crate) lanes: Vec<Lane>,
}

/// Cuts a machine into 2^`k` blocks, which go by themselves to their first round, and makes lanes for them.
pub(crate) fn begin<S: Sizes>(
    alloc: Global,
    machine: &MachineOf<S>,
    acts: &[Act],
    k: u8,
) -> Result<Prepared, WorldFault>
    ensures value { IfOk result (IsPrepared S.n S.cap k machine.now.machine acts.now) }
    ensures ok { IsOk result → world_fault S.n k machine.now.machine.clock acts.now ≡ None }
    ensures fault { IfErr result (λ fault. fault
        ≡ unwrap_or (world_fault S.n k machine.now.machine.clock acts.now) WorldFault.Memory) }
{
    let cycles = look_at(machine, acts, k)?;
    let dims = machine.dims();
    Ok(Prepared {
        acts: copied(alloc, acts)?,
        rounds: rounds(alloc, dims, acts, k)?,
        blocks: first_blocks(alloc, machine, acts, k, cycles)?,
        stands: first_stands(alloc, k)?,
        lanes: blank_lanes(alloc, dims, k)?,
    })
}

/// What is refused before memory is asked for; tells how many petit cycles there are.
fn look_at<S: Sizes>(machine: &MachineOf<S>, acts: &[Act], k: u8) -> Result<usize, WorldFault>
    ensures ok { IsOk result → world_fault S.n k machine.now.machine.clock acts.now ≡ None }
    ensures fault { IfErr result (λ fault. fault
        ≡ unwrap_or (world_fault S.n k machine.now.machine.clock acts.now) WorldFault.Memory) }
    ensures cycles { IfOk result (λ cycles. cycles ≡ cycles_in acts.now) }
    ensures few { IsOk result → length acts.now ≤ 4096 }
    ensures clock { IsOk result → machine.now.machine.clock + cycles_in acts.now < 2 ^ 63 }
    ensures within { IsOk result → k ≤ S.n - S.n / 2 }
{
    let cycles = match check_stretch(acts, machine.clock()) {
        Ok(cycles) => cycles,
        Err(RunFault::Long) => return Err(WorldFault::Long),
        Err(RunFault::Clock) => return Err(WorldFault::Clock),
        Err(RunFault::Memory | RunFault::NoThread) => unreachable!(),
    };
    let dims = machine.dims();
    if k > dims - dims / 2 {
        return Err(WorldFault::Split);
    }
    Ok(cycles)
}

fn copied(alloc: Global, acts: &[Act]) -> Result<Vec<Act>, NoMemory>
    ensures value { IfOk result (λ copy. copy.items ≡ acts.now) }
{
    let mut copy = Vec::with_capacity(alloc, acts.len())?;
    copy.extend_from_slice(acts)?;
    Ok(copy)
}

/// The blocks of a machine, each of which has gone by itself to its first round. The acts have so many petit cycles.
fn first_blocks<S: Sizes>(
    alloc: Global,
    machine: &MachineOf<S>,
    acts: &[Act],
    k: u8,
    cycles: usize,
) -> Result<Vec<Block>, NoMemory>
    requires within { k ≤ S.n - S.n / 2 }
    requires cycles { cycles ≡ cycles_in acts.now }
    requires clock { machine.now.machine.clock + cycles < 2 ^ 63 }
    ensures value { IfOk result (λ blocks. AreBeginning S.n S.cap k machine.now.machine acts.now (2 ^ k) blocks.items) }
{
    // For the prover alone: a call brings in what holds of every machine.
    let _clock = machine.clock();
    let mut blocks = match split(alloc, machine, k, cycles) {
        Ok(blocks) => blocks,
        Err(SplitFault::Memory) => return Err(NoMemory),
        Err(SplitFault::Split) => unreachable!(),
    };
    for b in 0..blocks.len() {
        blocks[b].local(acts, None);
    }
    Ok(blocks)
}

fn first_stands(alloc: Global, k: u8) -> Result<Vec<Stand>, NoMemory>
    requires few { k ≤ 12 }
    ensures value { IfOk result (λ stands. stands.items ≡ replicate (2 ^ k) at_first) }
{
    Ok(vec![in alloc; AT_FIRST; usize::from(block_count(k))]?)
}

/// A lane for each kind and each sender, with nothing in it.
fn blank_lanes(alloc: Global, dims: u8, k: u8) -> Result<Vec<Lane>, NoMemory>
    requires dimension { dims ≤ 12 }
    requires within { k ≤ dims - dims / 2 }
    ensures value { IfOk result (λ lanes. AreUnused dims k (kind_count k * 2 ^ k) lanes.items) }
{
    let blocks = usize::from(block_count(k));
    let count = usize::from(k + 2) * blocks;
    let mut lanes = Vec::with_capacity(alloc, count)?;
    for i in 0..count {
        let kind = kind_numbered(dims, k, i / blocks);
        lanes.push_reserved(Lane {
            word: 0,
            parcel: Parcel::blank(alloc, dims, k, kind)?,
        });
    }
    Ok(lanes)
}
