//! A team whose caller runs it: each worker in a thread of its own, with nobody between them and no runner.

ghost use Rattle.std.specs.Prelude.{◌≡◌, ◌-◌, ◌/◌, ◌^◌, ◌<◌, ◌≤◌, IsFalse, OnErr, OnOk};
ghost use Rattle.cm_model.specs.Machine.{run_of};
ghost use Rattle.cm_array.specs.Acts.{is_late, is_long};
ghost use Rattle.cm_turns.specs.Workers.{HasWorked, IsOfSome};

use cm_array::Machine;
use cm_bits::NoMemory;
use cm_gates::Passage;
use cm_model::Act;
use cm_resident::{Worker, in_order, team, teams_leave_their_machine};
use cm_subcube::{Block, join};
use std::alloc::Global;
use std::sync::Wait;
use std::thread;
use std::thread::Threads;

/// A machine that is cut into 2^`k` blocks goes through acts by so many workers, or stays as it was where memory is
/// wanting. Each needs a thread of its own: where none can be had its worker begins once another is done, which may
/// wait for it.
pub fn run_by_team<const N: usize, const CAP: usize, R: Threads + Wait + Sync>(
    rt: &R,
    alloc: Global,
    machine: &mut Machine<N, CAP>,
    acts: &[Act],
    k: u8,
    workers: u16,
) -> Result<(), NoMemory>
    requires within { k ≤ N - N / 2 }
    requires some { 0 < workers }
    requires enough { workers ≤ 2 ^ k }
    requires few { workers ≤ 64 }
    requires long { IsFalse (is_long acts.now) }
    requires clock { IsFalse (is_late machine.old.machine.clock acts.now) }
    ensures ok { OnOk result (machine.new.machine ≡ run_of N CAP machine.old.machine acts.now) }
    ensures err { OnErr result (machine.new.machine ≡ machine.old.machine) }
{
    let _clock = machine.clock();
    let team = team(alloc, machine, acts, k, workers)?;
    let blocks = Vec::with_capacity(alloc, 1 << k)?;
    let work = |worker: Worker| -> Vec<Block>
        requires { IsOfSome worker }
        ensures { HasWorked worker result.items }
    { worker.work(rt, &Passage::Open) };
    let shares = thread::map_vec(rt, team, &work)?;
    teams_leave_their_machine();
    join(in_order(shares, 1 << k, blocks), machine);
    Ok(())
}
