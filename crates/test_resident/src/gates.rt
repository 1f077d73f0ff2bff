//! Gates that admit workers or do not.

ghost use Rattle.std.specs.Prelude.{◌≡◌, ◌^◌, IsTrue};
ghost use Rattle.std.specs.List.{All};
ghost use Rattle.std.specs.Thread.{IsSync};
ghost use Rattle.cm_gates.specs.Gates.{ComesBy};

use crate::rows::sent_on;
use crate::runners::Kind;
use cm_array::{Fixed, Machine, RunFault, Runner};
use cm_bits::{Dir, FlagNo};
use cm_model::Act;
use cm_resident::Resident;
use cm_subcube::Block;
use cm_workers::{Forked, Gate, Passage};
use std::alloc::Global;
use std::sync::atomic::{AtomicU64, Ordering};
use std::sync::{Arc, Wait};
use std::test::Fail;
use std::thread::{Threads, yield_now};
use test_generators::{flag, four_messages_each, poke_plane, run_beside_plain};

/// How often a gate was asked, and how often it was passed.
#[derive(Drop)]
pub(crate) struct Calls {
    asked: AtomicU64,
    passed: AtomicU64,
}

impl Calls {
    pub(crate) fn told(&self) -> (u64, u64) {
        (
            self.asked.load(Ordering::SeqCst),
            self.passed.load(Ordering::SeqCst),
        )
    }
}

/// The number of a worker that no machine has.
pub(crate) const NOBODY: u16 = 64;

/// A gate that does not admit a worker at its first question.
#[derive(Drop)]
struct Reluctant {
    refused: u16,
    calls: Arc<Calls, Global>,
}

impl Gate for Reluctant {
    ghost admits = { λ gate worker. Unit {0} };

    fn admit(&self, worker: u16) -> bool {
        let before = self.calls.asked.fetch_add(1, Ordering::SeqCst);
        worker != self.refused || before != u64::from(self.refused)
    }

    fn pass(&self, _worker: u16, _round: u32, _blocks: &[Block])
        requires gathered { All (λ b. IsTrue b.kept.gathered) _blocks.now }
        requires own { ComesBy _worker _round _blocks.now }
    {
        self.calls.passed.fetch_add(1, Ordering::SeqCst);
    }
}

/// A machine of sixteen chips in which some processors ask to send.
fn asking(alloc: Global) -> Option<Machine<4, 7>> {
    let mut machine = Machine::<4, 7>::blank(alloc).ok()?;
    poke_plane(&mut machine, 0, FlagNo::SEND, 0x00ff);
    poke_plane(&mut machine, 9, FlagNo::SEND, 0xf0f0);
    Some(machine)
}

pub(crate) fn no_calls(alloc: Global) -> Option<Arc<Calls, Global>> {
    let calls = Calls {
        asked: AtomicU64::new(0),
        passed: AtomicU64::new(0),
    };
    Arc::new(alloc, calls).ok()
}

/// How a runner ends a list of acts, whether the machine is then as one thread leaves it, or else as it was; and how
/// often the gate was asked and passed so far.
pub(crate) type Listed = ((Option<RunFault>, bool), (u64, u64));

/// What a list of acts tells of a machine of so many chips.
pub(crate) fn listed<const N: usize, X: Runner<Fixed<N, 7>>>(
    runner: &mut X,
    alloc: Global,
    machine: &mut Machine<N, 7>,
    acts: &[Act],
    chips: u16,
    calls: &Arc<Calls, Global>,
) -> Option<Listed>
    requires cube { chips ≡ 2 ^ N }
    requires runner { X.ready }
{
    let ran = run_beside_plain(runner, alloc, machine, acts, chips)?;
    Some((ran, calls.told()))
}

/// What a petit cycle, the program of messages and an instruction over the grid tell, one after the other.
fn lists<X: Runner<Fixed<4, 7>>>(
    runner: &mut X,
    alloc: Global,
    machine: &mut Machine<4, 7>,
    calls: &Arc<Calls, Global>,
) -> Option<[Listed; 3]>
    requires runner { X.ready }
{
    let first = listed(runner, alloc, machine, &[Act::Cycle], 16, calls)?;
    let acts = four_messages_each(alloc).ok()?;
    let second = listed(runner, alloc, machine, &acts, 16, calls)?;
    let over_the_grid = [sent_on(flag(0), Dir::North)];
    Some([
        first,
        second,
        listed(runner, alloc, machine, &over_the_grid, 16, calls)?,
    ])
}

/// The same by so many workers that are joined at each round.
fn lists_of_forked<R: Threads + Wait>(
    rt: &R,
    alloc: Global,
    workers: u16,
    passage: Passage,
    machine: &mut Machine<4, 7>,
    calls: &Arc<Calls, Global>,
) -> Option<[Listed; 3]>
    requires threads { IsSync R.row }
{
    let mut forked = Forked::new::<4>(rt, alloc, 2, workers, passage).ok()?;
    lists(&mut forked, alloc, machine, calls)
}

/// The same by so many that run on.
fn lists_of_resident<R: Threads + Wait + Sync>(
    rt: &R,
    alloc: Global,
    workers: u16,
    passage: Passage,
    machine: &mut Machine<4, 7>,
    calls: &Arc<Calls, Global>,
) -> Option<[Listed; 3]>
    requires threads { IsSync R.row }
{
    let mut resident = Resident::new::<4>(rt, alloc, 2, workers, passage).ok()?;
    lists(&mut resident, alloc, machine, calls)
}

/// A gate that does not admit this worker.
pub(crate) fn gate_of(alloc: Global, refused: u16, calls: &Arc<Calls, Global>) -> Option<Passage> {
    let gate = Reluctant {
        refused,
        calls: Arc::try_clone(calls).ok()?,
    };
    Some(Passage::Gated(Box::new(alloc, gate).ok()?))
}

/// What so many workers tell, of whom the gate does not admit one in the first.
fn gated<R: Threads + Wait + Sync>(
    rt: &R,
    alloc: Global,
    kind: Kind,
    machine: &mut Machine<4, 7>,
    workers: u16,
    refused: u16,
    calls: &Arc<Calls, Global>,
) -> Option<[Listed; 3]>
    requires threads { IsSync R.row }
{
    let passage = gate_of(alloc, refused, calls)?;
    match kind {
        Kind::Forked => lists_of_forked(rt, alloc, workers, passage, machine, calls),
        Kind::Resident => lists_of_resident(rt, alloc, workers, passage, machine, calls),
    }
}

/// The same of a machine in which some processors ask to send.
fn told<R: Threads + Wait + Sync>(
    rt: &R,
    alloc: Global,
    kind: Kind,
    workers: u16,
    refused: u16,
) -> Option<[Listed; 3]>
    requires threads { IsSync R.row }
{
    let calls = no_calls(alloc)?;
    let mut machine = asking(alloc)?;
    gated(rt, alloc, kind, &mut machine, workers, refused, &calls)
}

/// Which of so many workers is not admitted, how often the gate was asked then, and after the second list, and how
/// often it was passed in that, which has 128 rounds. The third has one. Workers that run on are admitted one by one,
/// each before it is started: those before the refused one wait then, and are told that nobody begins.
static REFUSED: [(u16, u16, u64, u64, u64); 5] = [
    (2, 1, 2, 4, 256),
    (4, 0, 1, 5, 512),
    (4, 1, 2, 6, 512),
    (4, 2, 3, 7, 512),
    (4, 3, 4, 8, 512),
];

#[test]
fn a_worker_that_is_not_admitted_leaves_the_machine_as_it_was_and_may_be_admitted_later(
    rt: HostRuntime,
) -> Result<(), Fail> {
    for row in &REFUSED {
        let (workers, refused, first, second, passed) = *row;
        let more = u64::from(workers);
        let third = (second.saturating_add(more), passed.saturating_add(more));
        let wanted = [
            ((Some(RunFault::NoThread), true), (first, 0)),
            ((None, true), (second, passed)),
            ((None, true), third),
        ];
        let told = [
            told(&rt, rt.alloc(), Kind::Forked, workers, refused),
            told(&rt, rt.alloc(), Kind::Resident, workers, refused),
        ];
        assert_eq!(rt; told, [Some(wanted); 2], "worker {refused} of {workers}");
    }
    Ok(())
}

/// What a petit cycle of two chips tells, which four workers for sixteen chips run, who are joined at each round.
fn cycle_of_forked<R: Threads + Wait>(
    rt: &R,
    alloc: Global,
    passage: Passage,
    machine: &mut Machine<1, 7>,
    calls: &Arc<Calls, Global>,
) -> Option<Listed>
    requires threads { IsSync R.row }
{
    let mut forked = Forked::new::<4>(rt, alloc, 2, 4, passage).ok()?;
    listed(&mut forked, alloc, machine, &[Act::Cycle], 2, calls)
}

/// The same by four that run on.
fn cycle_of_resident<R: Threads + Wait + Sync>(
    rt: &R,
    alloc: Global,
    passage: Passage,
    machine: &mut Machine<1, 7>,
    calls: &Arc<Calls, Global>,
) -> Option<Listed>
    requires threads { IsSync R.row }
{
    let mut resident = Resident::new::<4>(rt, alloc, 2, 4, passage).ok()?;
    listed(&mut resident, alloc, machine, &[Act::Cycle], 2, calls)
}

/// The same by either, of a machine that is lent to them.
fn cycle_of_two<R: Threads + Wait + Sync>(
    rt: &R,
    alloc: Global,
    kind: Kind,
    machine: &mut Machine<1, 7>,
    calls: &Arc<Calls, Global>,
) -> Option<Listed>
    requires threads { IsSync R.row }
{
    let passage = gate_of(alloc, NOBODY, calls)?;
    match kind {
        Kind::Forked => cycle_of_forked(rt, alloc, passage, machine, calls),
        Kind::Resident => cycle_of_resident(rt, alloc, passage, machine, calls),
    }
}

/// The same of a machine of its own.
fn of_two_chips<R: Threads + Wait + Sync>(rt: &R, alloc: Global, kind: Kind) -> Option<Listed>
    requires threads { IsSync R.row }
{
    let calls = no_calls(alloc)?;
    let mut machine = Machine::<1, 7>::blank(alloc).ok()?;
    cycle_of_two(rt, alloc, kind, &mut machine, &calls)
}

#[test]
fn no_more_workers_are_asked_than_a_smaller_machine_has(rt: HostRuntime) {
    let told = [
        of_two_chips(&rt, rt.alloc(), Kind::Forked),
        of_two_chips(&rt, rt.alloc(), Kind::Resident),
    ];
    assert_eq!(rt; told, [Some(((None, true), (2, 2))); 2]);
}

/// How often a gate lets other threads run before it admits a worker: workers that wait have parked by then.
const TURNS: u32 = 100_000;

/// A gate that takes its time to admit all but the first worker.
#[derive(Drop)]
struct Slow;

impl Gate for Slow {
    ghost admits = { λ gate worker. Unit {0} };

    fn admit(&self, worker: u16) -> bool {
        if worker > 0 {
            for _turn in 0..TURNS {
                yield_now();
            }
        }
        true
    }

    fn pass(&self, _worker: u16, _round: u32, _blocks: &[Block])
        requires gathered { All (λ b. IsTrue b.kept.gathered) _blocks.now }
        requires own { ComesBy _worker _round _blocks.now }
    {}
}

/// How four workers that run on end a petit cycle, and whether the machine is then as one thread leaves it.
fn woken_for<R: Threads + Wait + Sync>(
    rt: &R,
    alloc: Global,
    machine: &mut Machine<4, 7>,
) -> Option<(Option<RunFault>, bool)>
    requires threads { IsSync R.row }
{
    let passage = Passage::Gated(Box::new(alloc, Slow).ok()?);
    let mut resident = Resident::new::<4>(rt, alloc, 2, 4, passage).ok()?;
    run_beside_plain(&mut resident, alloc, machine, &[Act::Cycle], 16)
}

/// The same of a machine of their own.
fn woken<R: Threads + Wait + Sync>(rt: &R, alloc: Global) -> Option<(Option<RunFault>, bool)>
    requires threads { IsSync R.row }
{
    let mut machine = asking(alloc)?;
    woken_for(rt, alloc, &mut machine)
}

#[test]
fn workers_that_have_long_waited_for_their_start_are_woken(rt: HostRuntime) {
    assert_eq!(rt; woken(&rt, rt.alloc()), Some((None, true)));
}
