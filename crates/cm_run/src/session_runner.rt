//! Who runs a session: one worker of `cm1 run`, or whoever the caller has.

ghost use Rattle.std.specs.Prelude.{◌≡◌, false, IsErrOf};
ghost use Rattle.cm_array.specs.Sizes.{SizedMachine};
ghost use Rattle.cm_system.specs.Streams.{streams};
ghost use Rattle.cm_run.specs.SessionRunners.{Goes};

use cm_array::{AnyMachine, Plain, Sizes};
use cm_asm::Program;
use cm_bits::{Sink, Source};
use cm_debug::{SessionFault, session};
use std::alloc::Global;
use std::marker::Brand;

/// Who runs a session on a machine of any size.
pub trait SessionRunner: Drop {
    // Whether it runs sessions on this machine.
    ghost can_run: { Self → SizedMachine → Type 0 };

    // Whether it may want a thread.
    ghost may_want: { Self → Type 0 };

    /// A session on a machine: the machine that it leaves, and how it ended.
    fn go<I: Source, O: Sink>(
        self,
        alloc: Global,
        machine: AnyMachine,
        program: &Program,
        commands: &mut I,
        out: &mut O,
    ) -> (AnyMachine, Result<(), SessionFault>)
        requires can { can_run self machine }
        requires reader { I.has_failed commands.old ≡ false }
        requires writer { O.has_failed out.old ≡ false }
        ensures goes { Goes machine result.0 program.now.acts
            (streams (I.left commands.old) (I.left commands.new) (O.contents out.old) (O.contents out.new)
            (I.has_failed commands.new) (O.has_failed out.new)) result.1 }
        ensures threads { IsErrOf result.1 SessionFault.NoThread → may_want self };
}

/// One worker, which needs no thread and waits for nobody.
#[derive(Clone, Copy)]
pub struct Alone;

impl SessionRunner for Alone {
    ghost can_run = { λ alone any. Unit {0} };

    ghost may_want = { λ alone. ⊥ };

    fn go<I: Source, O: Sink>(
        self,
        alloc: Global,
        machine: AnyMachine,
        program: &Program,
        commands: &mut I,
        out: &mut O,
    ) -> (AnyMachine, Result<(), SessionFault>) {
        go_alone::<Brand, I, O>(alloc, machine, program, commands, out)
    }
}

/// The same, on a machine of these sizes.
fn go_alone<S: Sizes, I: Source, O: Sink>(
    alloc: Global,
    machine: AnyMachine,
    program: &Program,
    commands: &mut I,
    out: &mut O,
) -> (AnyMachine, Result<(), SessionFault>)
    requires n { machine.n ≡ S.n }
    requires cap { machine.cap ≡ S.cap }
    requires reader { I.has_failed commands.old ≡ false }
    requires writer { O.has_failed out.old ≡ false }
    ensures goes { Goes machine result.0 program.now.acts
        (streams (I.left commands.old) (I.left commands.new) (O.contents out.old) (O.contents out.new)
        (I.has_failed commands.new) (O.has_failed out.new)) result.1 }
    ensures no_threads { IsErrOf result.1 SessionFault.NoThread → ⊥ }
{
    let mut machine = machine.sized::<S>();
    let ended = session(alloc, &mut machine, program, commands, out, &mut Plain);
    (AnyMachine::of(machine), ended)
}
