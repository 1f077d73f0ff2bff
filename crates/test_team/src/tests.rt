//! Teams beside one thread.

ghost use Rattle.std.specs.Prelude.{◌<◌, ◌≤◌, ◌^◌};

use crate::team::run_by_team;
use cm_array::{Machine, Plain, Runner, check_stretch};
use cm_model::Act;
use std::alloc::Global;
use std::sync::Wait;
use std::thread::Threads;
use test_generators::{are_same, four_messages_each, has_one_of_four};

/// Sixteen chips after these acts, which one thread goes through.
fn by_one_thread(alloc: Global, acts: &[Act]) -> Option<Machine<4, 7>> {
    let mut machine = Machine::<4, 7>::blank(alloc).ok()?;
    Plain.go(&mut machine, acts).ok()?;
    Some(machine)
}

/// The same by a team, in 2^`k` blocks.
fn by_team<R: Threads + Wait + Sync>(
    rt: &R,
    alloc: Global,
    acts: &[Act],
    k: u8,
    workers: u16,
) -> Option<Machine<4, 7>>
    requires within { k ≤ 2 }
    requires some { 0 < workers }
    requires enough { workers ≤ 2 ^ k }
    requires few { workers ≤ 4 }
{
    let mut machine = Machine::<4, 7>::blank(alloc).ok()?;
    match check_stretch(acts, machine.clock()) {
        Ok(_cycles) => run_by_team(rt, alloc, &mut machine, acts, k, workers).ok()?,
        Err(_) => return None,
    }
    Some(machine)
}

/// Whether it goes through the program of messages as one thread does, and the messages are where they should be then.
fn sent<R: Threads + Wait + Sync>(
    rt: &R,
    alloc: Global,
    k: u8,
    workers: u16,
) -> Option<(bool, bool)>
    requires within { k ≤ 2 }
    requires some { 0 < workers }
    requires enough { workers ≤ 2 ^ k }
    requires few { workers ≤ 4 }
{
    let acts = four_messages_each(alloc).ok()?;
    let wanted = by_one_thread(alloc, &acts)?;
    let machine = by_team(rt, alloc, &acts, k, workers)?;
    let same = are_same(alloc, &machine, &wanted, 16);
    Some((same, has_one_of_four(alloc, &machine)))
}

#[test]
fn a_team_sends_four_messages_of_each_of_sixteen_chips_as_one_thread(rt: HostRuntime) {
    let alloc = rt.alloc();
    let told = [
        sent(&rt, alloc, 2, 4),
        sent(&rt, alloc, 2, 3),
        sent(&rt, alloc, 2, 2),
        sent(&rt, alloc, 1, 2),
        sent(&rt, alloc, 0, 1),
    ];
    assert_eq!(rt; told, [Some((true, true)); 5]);
}
