//! Teams.

ghost use Rattle.std.specs.Prelude.{◌≡◌, ℕ, ◌-◌, ◌/◌, ◌<◌, ◌≤◌, ◌^◌, IfOk, IsFalse, length, get_or};
ghost use Rattle.cm_array.specs.Acts.{is_late, is_long};
ghost use Rattle.cm_turns.specs.Lanes.{Run, rounds_in};
ghost use Rattle.cm_resident.specs.SharedLists.{IsListFor, IsRunOfList};
ghost use Rattle.cm_turns.specs.Workers.{IsOfTeam};
ghost use Rattle.cm_resident.specs.Teams.{AreDealtFrom, HasWorkerParts, IsTeam};

use crate::shared_list::SharedList;
use crate::worker_parts::{WorkerParts, worker_parts};
use cm_array::{MachineOf, Part, Sizes, check_stretch};
use cm_bits::NoMemory;
use cm_gates::deal;
use cm_model::Act;
use cm_subcube::{Round, rounds};
use cm_turns::Worker;
use std::alloc::Global;

/// Worker `id` of a team, with its blocks and their ends.
fn worker_of(
    alloc: Global,
    id: u16,
    k: u8,
    worker_parts: Vec<WorkerParts>,
    acts: Vec<Act>,
    rounds: Vec<Round>,
) -> Result<Worker, NoMemory>
    ensures id { IfOk result (λ worker. worker.id ≡ id) }
    ensures worker { IfOk result (λ worker. (run : Run) (count : ℕ) → run.k ≡ k → run.k ≤ run.n - run.n / 2
        → acts.items ≡ run.acts → rounds.items ≡ rounds_in run → id < count → id < 2 ^ run.k
        → HasWorkerParts run count id worker_parts.items → IsOfTeam run count worker) }
{
    let mut worker_parts = worker_parts;
    let count = worker_parts.len();
    let mut blocks = Vec::with_capacity(alloc, count)?;
    let mut sends = Vec::new(alloc);
    let mut gets = Vec::new(alloc);
    for _i in 0..count {
        let WorkerParts {
            block,
            sends: mut froms,
            gets: mut tos,
        } = worker_parts.remove(0);
        blocks.push_reserved(block);
        sends.append(&mut froms)?;
        gets.append(&mut tos)?;
    }
    Ok(Worker {
        id,
        k,
        acts,
        rounds,
        blocks,
        sends,
        gets,
    })
}

/// So many workers, who share out the blocks of a machine that is cut into 2^`k` among them: worker w has blocks w,
/// w + `workers`, and so on, with the ends of their lanes for these acts.
pub fn team<S: Sizes>(
    alloc: Global,
    machine: &MachineOf<S>,
    acts: &[Act],
    k: u8,
    workers: u16,
) -> Result<Vec<Worker>, NoMemory>
    requires within { k ≤ S.n - S.n / 2 }
    requires some { 0 < workers }
    requires few { workers ≤ 2 ^ k }
    requires most { workers ≤ 64 }
    requires long { IsFalse (is_long acts.now) }
    requires clock { IsFalse (is_late machine.now.machine.clock acts.now) }
    ensures count { IfOk result (λ team. length team.items ≡ workers) }
    ensures ids { IfOk result (λ team. (w : ℕ) (d : _) → w < workers → (get_or team.items w d).id ≡ w) }
    ensures value { IfOk result (λ team. (w : ℕ) (d : _) → w < workers → IsOfTeam
        (record { n = S.n; k = k; room = S.cap; machine = machine.now.machine; acts = acts.now })
        workers (get_or team.items w d)) }
{
    let Ok(cycles) = check_stretch(acts, machine.clock()) else {
        unreachable!()
    };
    let rounds = rounds(alloc, machine.dims(), acts, k)?;
    let list = SharedList {
        acts,
        rounds: &rounds,
        cycles,
        k,
        workers,
    };
    team_in(alloc, machine, &list, &mut Vec::new(alloc))
}

/// The same, whose blocks are in the room of parts that are not needed any more, as far as there are such.
pub(crate) fn team_in<S: Sizes>(
    alloc: Global,
    machine: &MachineOf<S>,
    list: &SharedList<'_>,
    used: &mut Vec<Part>,
) -> Result<Vec<Worker>, NoMemory>
    requires list { IsListFor S.n list.now }
    requires clock { IsFalse (is_late machine.now.machine.clock list.now.acts.now) }
    ensures count { IfOk result (λ team. length team.items ≡ list.now.workers) }
    ensures ids { IfOk result (λ team. (w : ℕ) (d : _) → w < list.now.workers → (get_or team.items w d).id ≡ w) }
    ensures value { IfOk result (λ team. (w : ℕ) (d : _) → w < list.now.workers → IsOfTeam
        (record { n = S.n; k = list.now.k; room = S.cap; machine = machine.now.machine; acts = list.now.acts.now })
        list.now.workers (get_or team.items w d)) }
{
    let worker_parts = worker_parts(alloc, machine, list.acts, list.k, list.cycles, used)?;
    let mut hands = deal(alloc, worker_parts, usize::from(list.workers))?;
    workers_of(alloc, list, &mut hands)
}

/// Takes out the hands of the workers of a list, and makes the workers.
fn workers_of(
    alloc: Global,
    list: &SharedList<'_>,
    hands: &mut Vec<Vec<WorkerParts>>,
) -> Result<Vec<Worker>, NoMemory>
    requires count { length hands.old.items ≡ list.now.workers }
    ensures value { IfOk result (λ team. (run : Run) → IsRunOfList run list.now
        → AreDealtFrom run list.now.workers 0 hands.old.items → IsTeam run list.now.workers team.items) }
{
    let mut team = Vec::with_capacity(alloc, usize::from(list.workers))?;
    for w in 0..list.workers {
        let acts = copied(alloc, list.acts)?;
        let rounds = copied(alloc, list.rounds)?;
        let worker = worker_of(alloc, w, list.k, hands.remove(0), acts, rounds)?;
        team.push_reserved(worker);
    }
    Ok(team)
}

fn copied<T: Copy + Drop>(alloc: Global, things: &[T]) -> Result<Vec<T>, NoMemory>
    ensures value { IfOk result (λ copy. copy.items ≡ things.now) }
{
    let mut copy = Vec::with_capacity(alloc, things.len())?;
    copy.extend_from_slice(things)?;
    Ok(copy)
}
