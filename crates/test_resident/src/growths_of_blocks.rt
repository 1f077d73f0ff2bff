//! Growths of memory and starts of threads that are refused, while blocks are made and while workers run.

ghost use Rattle.std.specs.Thread.{IsSync};

use cm_array::{Machine, Plain, Runner};
use cm_bits::{FlagNo, NoMemory};
use cm_model::Act;
use cm_subcube::{Kind, Parcel, SplitFault, copy_by_blocks, rounds};
use cm_workers::{Forked, Passage};
use std::alloc::Global;
use std::sync::Wait;
use std::thread::Threads;
use test_generators::{Call, are_same, first_not_so, poke_plane, sends_or_stays};

/// What takes memory.
#[derive(Clone, Copy, Debug, PartialEq, Eq)]
enum Grown {
    Rounds,
    Edge,
    Mail,
    Blocks,
}

static GROWN: [Grown; 4] = [Grown::Rounds, Grown::Edge, Grown::Mail, Grown::Blocks];

impl Call for Grown {
    fn is_so(&self, alloc: Global) -> Option<bool> {
        match self {
            Grown::Rounds => Some(has_rounds(alloc)),
            Grown::Edge => Some(has_parcel(alloc, Kind::North)),
            Grown::Mail => Some(has_parcel(alloc, Kind::Dim(3))),
            Grown::Blocks => comes_back(alloc),
        }
    }
}

/// Whether two petit cycles are four rounds.
fn has_rounds(alloc: Global) -> bool {
    let acts = [Act::Cycle, Act::Sense, Act::Cycle];
    let made = match rounds(alloc, 4, &acts, 2) {
        Err(NoMemory) => rounds(alloc, 4, &acts, 2),
        made => made,
    };
    match made {
        Ok(rounds) => rounds.len() == 4,
        Err(_) => false,
    }
}

fn has_parcel(alloc: Global, kind: Kind) -> bool {
    let made = match Parcel::blank(alloc, 4, 2, kind) {
        Err(NoMemory) => Parcel::blank(alloc, 4, 2, kind),
        made => made,
    };
    made.is_ok()
}

/// Sixteen chips, of which eight processors asked to send, two petit cycles later.
fn busy(alloc: Global) -> Option<Machine<4, 7>> {
    let mut machine = Machine::<4, 7>::blank(alloc).ok()?;
    poke_plane(&mut machine, 0, FlagNo::SEND, 0x00ff);
    Plain.go(&mut machine, &[Act::Cycle, Act::Cycle]).ok()?;
    Some(machine)
}

/// Whether a machine that is split into four blocks comes back from them; or else that into which it was to come stays
/// as it was, and it comes back when it is asked again.
fn comes_back_into(
    alloc: Global,
    machine: &Machine<4, 7>,
    blank: &Machine<4, 7>,
    other: &mut Machine<4, 7>,
) -> bool {
    let is_right = match copy_by_blocks(alloc, machine, 2, other) {
        Ok(()) => true,
        Err(fault) => {
            let is_kept = fault == SplitFault::Memory && are_same(alloc, other, blank, 16);
            is_kept && copy_by_blocks(alloc, machine, 2, other).is_ok()
        }
    };
    is_right && are_same(alloc, other, machine, 16)
}

/// Whether it does into a blank one, like this.
fn comes_back_like(alloc: Global, machine: &Machine<4, 7>, blank: &Machine<4, 7>) -> Option<bool> {
    let mut other = Machine::<4, 7>::blank(alloc).ok()?;
    Some(comes_back_into(alloc, machine, blank, &mut other))
}

/// Whether it does into a blank one.
fn is_brought_back(alloc: Global, machine: &Machine<4, 7>) -> Option<bool> {
    let blank = Machine::<4, 7>::blank(alloc).ok()?;
    comes_back_like(alloc, machine, &blank)
}

/// Whether a busy machine does.
fn comes_back(alloc: Global) -> Option<bool> {
    let machine = busy(alloc)?;
    is_brought_back(alloc, &machine)
}

/// Whether two workers go through the program of messages as one thread does, or else leave the machine as it was.
fn workers_go<R: Threads + Wait>(rt: &R, alloc: Global) -> Option<bool>
    requires threads { IsSync R.row }
{
    let mut forked = Forked::new::<4>(rt, alloc, 2, 2, Passage::Open).ok()?;
    sends_or_stays(&mut forked, alloc)
}

// `.ci/refusals` refuses each growth and each thread in turn: one in all, so that the second time none is.
#[test]
fn a_refused_growth_or_thread_leaves_the_machine_as_it_was(rt: HostRuntime) {
    let alloc = rt.alloc();
    let gone = match workers_go(&rt, alloc) {
        None => workers_go(&rt, alloc),
        gone => gone,
    };
    assert_eq!(rt; (first_not_so(alloc, &GROWN), gone), (None, Some(true)));
}
