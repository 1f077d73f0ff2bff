//! Growths of memory that are refused in a session.

ghost use Rattle.std.specs.Prelude.{◌≡◌, false};

use cm_array::{Machine, Plain};
use cm_asm::{Program, assemble};
use cm_debug::{SessionFault, session};
use std::alloc::Global;
use test_doubles::{Bytes, Room};

/// The processor whose flag 0 is 1 sends a message to processor 5 of the other of two chips.
static PROGRAM: &[u8] = b"field rel 3968 16\nfield proc 3984 4\nfield data 3988 32\n\
      if 0\nconst rel 1\nconst proc 5\nconst data 0xDEADBEEF\nset 12\nalways\ncycle\n";

static COMMANDS: &[u8] = b"pokeflag 0 0 0 1\nrun\n\
      field 1 5 4032 32\nflag 0 0 12\nflag 0 0 13\nflag 1 5 14\nfind 0 0 0\nevents 0\nevents 1\nbuf 1\n";

static ANSWERS: &[u8] = b"ok\nend\n\
      field 3735928559\nflag 0\nflag 1\nflag 1\ndelivered 1 5\nevents 1\nin 1 5 0xdeadbeef 0 0 0\n\
      events 1\nout 0 5 0xdeadbeef 0 0 0\nbuf 0\n";

/// How a session ends: with all answers, for want of memory behind a front of them, or in another way.
#[derive(Clone, Copy)]
enum Ending {
    All,
    Front,
    Other,
}

/// With what fault a session ends, if with one. No contract tells more.
fn fault_of(
    alloc: Global,
    machine: &mut Machine<1, 1>,
    program: &Program,
    sink: &mut Room,
) -> Option<SessionFault>
    requires writer { sink.old.failed ≡ false }
{
    let mut commands = Bytes::new(COMMANDS, 16);
    session(alloc, machine, program, &mut commands, sink, &mut Plain).err()
}

fn ends_on(alloc: Global, machine: &mut Machine<1, 1>, program: &Program) -> Option<Ending> {
    let mut sink = Room::new(alloc, 4096, 4096).ok()?;
    let fault = fault_of(alloc, machine, program, &mut sink);
    Some(match fault {
        None if sink.taken() == ANSWERS => Ending::All,
        Some(SessionFault::Memory) if ANSWERS.starts_with(sink.taken()) => Ending::Front,
        _ => Ending::Other,
    })
}

/// The same on a blank machine. None where memory is wanting beside the session.
fn ends(alloc: Global, program: &Program) -> Option<Ending> {
    let mut machine = Machine::<1, 1>::blank(alloc).ok()?;
    ends_on(alloc, &mut machine, program)
}

fn is_answered_by(alloc: Global, program: &Program) -> Option<bool> {
    Some(match ends(alloc, program)? {
        Ending::All => true,
        Ending::Front => matches!(ends(alloc, program)?, Ending::All),
        Ending::Other => false,
    })
}

/// Whether it writes all answers; or else tells want of memory behind a front of them, and does when it is asked again.
fn is_answered(alloc: Global) -> Option<bool> {
    let program = assemble(alloc, PROGRAM).ok()?;
    is_answered_by(alloc, &program)
}

// `.ci/refusals` refuses each growth in turn: one in all, so that the second time none is.
#[test]
fn a_refused_growth_leaves_a_front_of_the_answers(rt: HostRuntime) {
    let told = match is_answered(rt.alloc()) {
        None => is_answered(rt.alloc()),
        told => told,
    };
    assert_eq!(rt; told, Some(true));
}
