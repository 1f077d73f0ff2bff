//! Growths of memory that are refused while a world is made, and while its steps are told.

ghost use Rattle.std.specs.Prelude.{◌≡◌, false};
ghost use Rattle.test_doubles.specs.Doubles.{room_has_failed};

use crate::machines::kept;
use cm_array::{Fixed, Machine, Plain, Runner};
use cm_bits::FlagNo;
use cm_model::Act;
use cm_weave::{Refused, World, WorldFault};
use cm_weave_text::{WeaveFault, weave_self, weave_session};
use std::alloc::Global;
use test_doubles::{Bytes, Room};
use test_generators::{Call, are_same, first_not_so, poke_plane};

/// What takes memory.
#[derive(Clone, Copy, Debug, PartialEq, Eq)]
enum Grown {
    World,
    ToldSteps,
    OwnSteps,
}

static GROWN: [Grown; 3] = [Grown::World, Grown::ToldSteps, Grown::OwnSteps];

impl Call for Grown {
    fn is_so(&self, alloc: Global) -> Option<bool> {
        match self {
            Grown::World => is_made_or_comes_back(alloc),
            Grown::ToldSteps => is_woven(alloc, false, TOLD_ANSWERS),
            Grown::OwnSteps => is_woven(alloc, true, OWN_ANSWERS),
        }
    }
}

/// Sixteen chips, of which eight processors asked to send, a petit cycle later.
fn asked(alloc: Global) -> Option<Vec<Machine<4, 7>>> {
    let mut machines = kept(alloc, Machine::<4, 7>::blank(alloc).ok()?)?;
    let machine = machines.first_mut()?;
    poke_plane(machine, 0, FlagNo::SEND, 0x00ff);
    Plain.go(machine, &[Act::Cycle]).ok()?;
    Some(machines)
}

/// Whether there is a world of two blocks for a petit cycle of such a machine; or else want of memory is told, the
/// machine comes back as it was, and there is a world of it then. None where memory is wanting beside it.
fn is_made_or_comes_back(alloc: Global) -> Option<bool> {
    let machines = asked(alloc)?;
    let machine = machines.first()?;
    let copy = machine.copy(alloc).ok()?;
    match World::new(alloc, copy, &[Act::Cycle], 1) {
        Ok(world) => Some(world.k() == 1),
        Err(refused) => Some(comes_back(alloc, refused, machine)),
    }
}

fn comes_back(alloc: Global, refused: Refused<Fixed<4, 7>>, machine: &Machine<4, 7>) -> bool {
    refused.fault == WorldFault::Memory
        && are_same(alloc, &refused.machine, machine, 16)
        && World::new(alloc, refused.machine, &[Act::Cycle], 1).is_ok()
}

// ---- two chips, a block each, in one petit cycle

static STEPS: &[u8] =
    b"draw 0\ngrip 0\ngrip 0\nfile 0\ndraw 0\ngrip 1\nfile 1\ndraw 0\nclear 0\ndraw 1\nclear 1\nclear 1\n";

static TOLD_ANSWERS: &[u8] = b"? 34\nok\n? 34\nok\n? 34\nok\nok\nok\nok\nok\nok\n? 34\nfinished\n";

static OWN_ANSWERS: &[u8] =
    b"grip 0\nfile 0\ngrip 1\nfile 1\ndraw 0\nclear 0\ndraw 1\nclear 1\nsteps 8\nfinished\n";

fn two_blocks(alloc: Global) -> Option<World<Fixed<1, 1>>> {
    let machine = Machine::<1, 1>::blank(alloc).ok()?;
    World::new(alloc, machine, &[Act::Cycle], 1).ok()
}

/// With which fault the exchange ends, if with one: by its own steps, or by those that are told.
fn fault_of(alloc: Global, own: bool, sink: &mut Room) -> Option<Option<WeaveFault>>
    requires writer { room_has_failed sink.old ≡ false }
{
    let world = two_blocks(alloc)?;
    let left = if own {
        weave_self(alloc, world, sink)
    } else {
        weave_session(alloc, world, &mut Bytes::new(STEPS, 5), sink)
    };
    Some(left.err())
}

/// And what it writes.
fn woven(alloc: Global, own: bool) -> Option<(Option<WeaveFault>, Room)> {
    let mut sink = Room::new(alloc, 4096, 7).ok()?;
    let fault = fault_of(alloc, own, &mut sink)?;
    Some((fault, sink))
}

/// Whether it writes these answers; or else tells want of memory behind a front of them, and all when asked once more.
fn is_woven(alloc: Global, own: bool, answers: &[u8]) -> Option<bool> {
    let (fault, sink) = woven(alloc, own)?;
    let Some(fault) = fault else {
        return Some(sink.taken() == answers);
    };
    let is_told = fault == WeaveFault::Memory && answers.starts_with(sink.taken());
    let (again, whole) = woven(alloc, own)?;
    Some(is_told && again.is_none() && whole.taken() == answers)
}

// `.ci/refusals` refuses each growth in turn.
#[test]
fn a_refused_growth_gives_the_machine_back_and_changes_no_answer(rt: HostRuntime) {
    assert_eq!(rt; first_not_so(rt.alloc(), &GROWN), None);
}
