//! Which lists of acts a program's runner shares out.

ghost use Rattle.std.specs.Thread.{IsSync};

use crate::gates::{Calls, Listed, NOBODY, gate_of, listed, no_calls};
use crate::rows::sent_on;
use cm_array::Machine;
use cm_bits::{Dir, FlagNo};
use cm_model::Act;
use cm_resident::Chooser;
use cm_workers::Passage;
use std::alloc::Global;
use std::sync::{Arc, Wait};
use std::test::Fail;
use std::thread::Threads;
use test_generators::{flag, poke_plane};

/// What the acts of a list are.
#[derive(Clone, Copy, Debug)]
enum Kind {
    Cycles,
    /// Instructions that go eastward, over which blocks exchange nothing.
    Eastward,
    Northward,
}

/// A machine of 4,096 chips goes through a list: from which chip on all processors ask to send, and how often the gate
/// of four workers was asked and passed.
struct Choice {
    kind: Kind,
    count: u16,
    asking: u16,
    told: (u64, u64),
}

/// By the rule of DECISIONS, of four workers, who spare three quarters: a petit cycle counts as 448 acts here and has
/// two rounds, and no row of memory is in use before a list.
static CHOICES: [Choice; 9] = [
    Choice {
        kind: Kind::Cycles,
        count: 1,
        asking: 0,
        told: (0, 0),
    },
    Choice {
        kind: Kind::Cycles,
        count: 8,
        asking: 0,
        told: (4, 64),
    },
    // a machine is at rest only where none asks
    Choice {
        kind: Kind::Cycles,
        count: 8,
        asking: 4095,
        told: (4, 64),
    },
    Choice {
        kind: Kind::Cycles,
        count: 8,
        asking: 4096,
        told: (0, 0),
    },
    Choice {
        kind: Kind::Eastward,
        count: 0,
        asking: 0,
        told: (0, 0),
    },
    Choice {
        kind: Kind::Eastward,
        count: 800,
        asking: 0,
        told: (0, 0),
    },
    Choice {
        kind: Kind::Eastward,
        count: 1000,
        asking: 0,
        told: (4, 0),
    },
    Choice {
        kind: Kind::Northward,
        count: 800,
        asking: 0,
        told: (0, 0),
    },
    Choice {
        kind: Kind::Eastward,
        count: 4096,
        asking: 4096,
        told: (4, 0),
    },
];

impl Kind {
    fn act(self) -> Act {
        match self {
            Kind::Cycles => Act::Cycle,
            Kind::Eastward => sent_on(flag(0), Dir::East),
            Kind::Northward => sent_on(flag(0), Dir::North),
        }
    }
}

/// So many acts of a kind.
fn list_of(alloc: Global, kind: Kind, count: u16) -> Option<Vec<Act>> {
    let mut acts = Vec::new(alloc);
    for _at in 0..count {
        acts.push(kind.act()).ok()?;
    }
    Some(acts)
}

/// 4,096 chips, of which all processors ask to send from this one on.
fn machine_of(alloc: Global, asking: u16) -> Option<Machine<12, 7>> {
    let mut machine = Machine::<12, 7>::blank(alloc).ok()?;
    for chip in asking..4096 {
        poke_plane(&mut machine, chip, FlagNo::SEND, 0xffff);
    }
    Some(machine)
}

/// What a machine tells that a program's runner takes through these acts.
fn run_by_chooser<R: Threads + Wait + Sync>(
    rt: &R,
    alloc: Global,
    passage: Passage,
    machine: &mut Machine<12, 7>,
    acts: &[Act],
    calls: &Arc<Calls, Global>,
) -> Option<Listed>
    requires threads { IsSync R.row }
{
    let Ok(mut runner) = Chooser::new::<12>(rt, alloc, 2, 4, passage) else {
        return None;
    };
    listed(&mut runner, alloc, machine, acts, 4096, calls)
}

/// What a machine tells that goes through a list.
fn chosen<R: Threads + Wait + Sync>(
    rt: &R,
    alloc: Global,
    choice: &Choice,
    machine: &mut Machine<12, 7>,
) -> Option<Listed>
    requires threads { IsSync R.row }
{
    let acts = list_of(alloc, choice.kind, choice.count)?;
    let calls = no_calls(alloc)?;
    let passage = gate_of(alloc, NOBODY, &calls)?;
    run_by_chooser(rt, alloc, passage, machine, &acts, &calls)
}

/// The same of a machine of its own.
fn told<R: Threads + Wait + Sync>(rt: &R, alloc: Global, choice: &Choice) -> Option<Listed>
    requires threads { IsSync R.row }
{
    let mut machine = machine_of(alloc, choice.asking)?;
    chosen(rt, alloc, choice, &mut machine)
}

#[test]
fn lists_are_shared_out_where_that_pays(rt: HostRuntime) -> Result<(), Fail> {
    for choice in &CHOICES {
        let wanted = Some(((None, true), choice.told));
        assert_eq!(rt;
            told(&rt, rt.alloc(), choice),
            wanted,
            "{:?} {}",
            choice.kind,
            choice.count
        );
    }
    Ok(())
}
