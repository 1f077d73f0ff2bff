//! Growths of memory and starts of threads that are refused, while a team is made and while workers run.

ghost use Rattle.std.specs.Thread.{IsSync};

use crate::gates::{Calls, Listed, NOBODY, gate_of, listed, no_calls};
use cm_array::{Fixed, Machine, RunFault, Runner, check_stretch};
use cm_model::Act;
use cm_resident::{Resident, team};
use cm_workers::Forked;
use std::alloc::Global;
use std::sync::{Arc, Wait};
use std::thread::Threads;
use test_generators::{four_messages_each, has_one_of_four};

/// How many workers a team has that goes through a petit cycle of sixteen chips by two; None where memory is wanting.
fn team_of_two(alloc: Global, machine: &Machine<4, 7>) -> Option<usize> {
    let acts = [Act::Cycle];
    let Ok(_cycles) = check_stretch(&acts, machine.clock()) else {
        return None;
    };
    Some(team(alloc, machine, &acts, 2, 2).ok()?.len())
}

/// Whether there are two, perhaps when it is asked for once more.
fn has_team(alloc: Global) -> Option<bool> {
    let machine = Machine::<4, 7>::blank(alloc).ok()?;
    let made = match team_of_two(alloc, &machine) {
        None => team_of_two(alloc, &machine),
        made => made,
    };
    Some(made == Some(2))
}

/// What two workers tell of the program of messages, which has 128 rounds, and where they refuse it, of the same once
/// more.
fn told_by<X: Runner<Fixed<4, 7>>>(
    runner: &mut X,
    alloc: Global,
    machine: &mut Machine<4, 7>,
    calls: &Arc<Calls, Global>,
) -> Option<(Option<Listed>, Listed)>
    requires runner { X.ready }
{
    let acts = four_messages_each(alloc).ok()?;
    let first = listed(runner, alloc, machine, &acts, 16, calls)?;
    match first {
        ((None, _), _) => Some((None, first)),
        refused => Some((
            Some(refused),
            listed(runner, alloc, machine, &acts, 16, calls)?,
        )),
    }
}

/// Whether it is what two workers have to tell: who refuses leaves the machine as it was and passes nobody. Where
/// memory was wanting the gate was asked for nobody, where a thread was for all up to that one.
fn is_as_it_has_to_be(refused: Option<Listed>, last: Listed) -> bool {
    let asked = match refused {
        None => 0,
        Some(((Some(RunFault::Memory), true), (0, 0))) => 0,
        Some(((Some(RunFault::NoThread), true), (1, 0))) => 1,
        Some(((Some(RunFault::NoThread), true), (2, 0))) => 2,
        Some(_) => return false,
    };
    last == ((None, true), (asked + 2, 256))
}

/// The same of two that are joined at each round, which takes memory once more, and threads: the gate was asked for
/// both before the first of them was started.
fn is_as_forked_have_to_be(refused: Option<Listed>, last: Listed) -> bool {
    let (asked, passed) = match refused {
        None => (0, 0),
        Some(((Some(RunFault::Memory), true), (0, 0))) => (0, 0),
        Some(((Some(RunFault::Memory | RunFault::NoThread), true), (2, passed))) => (2, passed),
        Some(_) => return false,
    };
    last == ((None, true), (asked + 2, passed.saturating_add(256)))
}

/// What two workers tell that are joined at each round.
fn told_by_forked<R: Threads + Wait>(
    rt: &R,
    alloc: Global,
    machine: &mut Machine<4, 7>,
    calls: &Arc<Calls, Global>,
) -> Option<(Option<Listed>, Listed)>
    requires threads { IsSync R.row }
{
    let passage = gate_of(alloc, NOBODY, calls)?;
    let mut forked = Forked::new::<4>(rt, alloc, 2, 2, passage).ok()?;
    told_by(&mut forked, alloc, machine, calls)
}

/// What two tell that run on.
fn told_by_resident<R: Threads + Wait + Sync>(
    rt: &R,
    alloc: Global,
    machine: &mut Machine<4, 7>,
    calls: &Arc<Calls, Global>,
) -> Option<(Option<Listed>, Listed)>
    requires threads { IsSync R.row }
{
    let passage = gate_of(alloc, NOBODY, calls)?;
    let mut resident = Resident::new::<4>(rt, alloc, 2, 2, passage).ok()?;
    told_by(&mut resident, alloc, machine, calls)
}

/// Whether two workers that are joined at each round go through the program of messages as one thread does, perhaps
/// when they are asked once more.
fn forked_go<R: Threads + Wait>(rt: &R, alloc: Global) -> Option<bool>
    requires threads { IsSync R.row }
{
    let calls = no_calls(alloc)?;
    let mut machine = Machine::<4, 7>::blank(alloc).ok()?;
    let (refused, last) = told_by_forked(rt, alloc, &mut machine, &calls)?;
    Some(is_as_forked_have_to_be(refused, last) && has_one_of_four(alloc, &machine))
}

/// Whether two workers go through the program of messages as one thread does, perhaps when they are asked once more.
fn workers_go<R: Threads + Wait + Sync>(rt: &R, alloc: Global) -> Option<bool>
    requires threads { IsSync R.row }
{
    let calls = no_calls(alloc)?;
    let mut machine = Machine::<4, 7>::blank(alloc).ok()?;
    let (refused, last) = told_by_resident(rt, alloc, &mut machine, &calls)?;
    Some(is_as_it_has_to_be(refused, last) && has_one_of_four(alloc, &machine))
}

/// All of these; None where memory is wanting beside them.
fn all<R: Threads + Wait + Sync>(rt: &R, alloc: Global) -> Option<[bool; 3]>
    requires threads { IsSync R.row }
{
    Some([
        has_team(alloc)?,
        workers_go(rt, alloc)?,
        forked_go(rt, alloc)?,
    ])
}

// `.ci/refusals` refuses each growth and each thread in turn: one in all, so that the second time none is.
#[test]
fn a_refused_growth_or_thread_leaves_the_machine_as_it_was(rt: HostRuntime) {
    let told = match all(&rt, rt.alloc()) {
        None => all(&rt, rt.alloc()),
        told => told,
    };
    assert_eq!(rt; told, Some([true; 3]));
}
