//! Several workers, who run a session of `cm1 run`.

ghost use Rattle.std.specs.Prelude.{◌≡◌, ◌<◌, false, None};
ghost use Rattle.std.specs.Thread.{IsSync};
ghost use Rattle.cm_run.specs.Sharing.{sharing_fault};
ghost use Rattle.cm_system.specs.Streams.{streams};
ghost use Rattle.cm_run.specs.SessionRunners.{Goes};

use cm_array::{AnyMachine, Sizes};
use cm_asm::Program;
use cm_bits::{Sink, Source};
use cm_debug::{SessionFault, session};
use cm_gates::Passage;
use cm_resident::Chooser;
use cm_run::{SessionRunner, Sharing};
use std::alloc::Global;
use std::marker::Brand;
use std::sync::Wait;
use std::thread::Threads;

/// Several workers, each in a thread of its own, who go through the passage.
#[derive(Drop)]
pub struct Several<'a, R> {
    pub rt: &'a R,
    pub sharing: Sharing,
    pub passage: Passage,
}

impl<'a, R: Threads + Wait + Sync> SessionRunner for Several<'a, R> {
    ghost can_run = { λ several any. (sharing_fault any.n several.sharing ≡ None) × IsSync R.row };

    ghost may_want = { λ several. Unit {0} };

    fn go<I: Source, O: Sink>(
        self,
        alloc: Global,
        machine: AnyMachine,
        program: &Program,
        commands: &mut I,
        out: &mut O,
    ) -> (AnyMachine, Result<(), SessionFault>) {
        let mut runner = shared_runner(alloc, self);
        go_by_workers::<Brand, R, I, O>(&mut runner, alloc, machine, program, commands, out)
    }
}

/// The same by a runner, on a machine of these sizes.
fn go_by_workers<S: Sizes, R: Threads + Wait + Sync, I: Source, O: Sink>(
    runner: &mut Chooser<'_, R>,
    alloc: Global,
    machine: AnyMachine,
    program: &Program,
    commands: &mut I,
    out: &mut O,
) -> (AnyMachine, Result<(), SessionFault>)
    requires sync { IsSync R.row }
    requires n { machine.n ≡ S.n }
    requires cap { machine.cap ≡ S.cap }
    requires reader { I.has_failed commands.old ≡ false }
    requires writer { O.has_failed out.old ≡ false }
    ensures goes { Goes machine result.0 program.now.acts
        (streams (I.left commands.old) (I.left commands.new) (O.contents out.old) (O.contents out.new)
        (I.has_failed commands.new) (O.has_failed out.new)) result.1 }
{
    let mut machine = machine.sized::<S>();
    let ended = session(alloc, &mut machine, program, commands, out, runner);
    (AnyMachine::of(machine), ended)
}

/// The runner of as many workers as are asked for, at least one, on as many blocks.
fn shared_runner<'a, R: Threads + Wait + Sync>(
    alloc: Global,
    several: Several<'a, R>,
) -> Chooser<'a, R>
    requires some { 0 < several.sharing.workers }
    ensures blocks { result.k ≡ several.entry.sharing.split }
    ensures workers { result.workers ≡ several.entry.sharing.workers }
    ensures passage { result.passage ≡ several.entry.passage }
{
    let Several {
        rt,
        sharing,
        passage,
    } = several;
    Chooser::of_some(
        rt,
        alloc,
        sharing.split,
        u16::from(sharing.workers),
        passage,
    )
}
