//! `cm1 run`: a session over files.

ghost use Rattle.std.specs.Prelude.{◌≡◌, ◌≤◌, false, None, IfOk, IfErr, IsErrOf, OnOk, option_map, string_bytes};
ghost use Rattle.cm_array.specs.Sizes.{SizedMachine};
ghost use Rattle.cm_run.specs.Sharing.{sharing_fault};
ghost use Rattle.cm_system.specs.Trace.{HasTrace};
ghost use Rattle.cm_system.specs.InputFiles.{reads_by};
ghost use Rattle.cm_system.specs.OutputFiles.{FinishesWithImage, Readies};
ghost use Rattle.cm_run.specs.Files.{BeginsFiles, RefusesFiles, RefusesTaken};
ghost use Rattle.cm_system.specs.Streams.{streams};
ghost use Rattle.cm_run.specs.Runs.{IsRunTrace, RunsFrom};

use crate::session_runner::SessionRunner;
use crate::sharing::Sharing;
use cm_array::{AnyMachine, Sizes};
use cm_asm::Program;
use cm_bits::{Sink, Source};
use cm_system::{ProgramFault, System, Taken, abort_files, finish_files, make_ready, take_both};
use std::alloc::Global;
use std::marker::Brand;

/// What is asked to be run: the files of an image and of a program, how the session is shared out, and the file, if one
/// is named, into which the image goes of the machine that is left.
#[derive(Drop)]
pub struct RunLine {
    pub image: String,
    pub program: String,
    pub sharing: Sharing,
    pub out: Option<String>,
}

/// What a session over files begins with: its machine and its program, and the file that was made ready, if one is
/// named.
#[derive(Drop)]
struct PreparedFiles<M, P> {
    taken: Taken<M>,
    part: Option<P>,
}

/// Runs a session over files by this runner.
pub fn run_files<R: SessionRunner, H: System, I: Source, O: Sink>(
    alloc: Global,
    system: &mut H,
    line: &RunLine,
    runner: R,
    commands: &mut I,
    answers: &mut O,
) -> Result<(), ProgramFault>
    requires can { (any : SizedMachine) → sharing_fault any.n line.now.sharing ≡ None → R.can_run runner any }
    requires alone { line.now.sharing.workers ≡ 1 → ¬ R.may_want runner }
    requires reader { I.has_failed commands.old ≡ false }
    requires writer { O.has_failed answers.old ≡ false }
    ensures does { HasTrace H.does system.old system.new (IsRunTrace (reads_by H.File.left H.File.has_failed) line.now
        (streams (I.left commands.old) (I.left commands.new) (O.contents answers.old) (O.contents answers.new)
        (I.has_failed commands.new) (O.has_failed answers.new)) result) }
{
    match begin_files(alloc, system, line) {
        Ok(begun) => {
            let PreparedFiles { taken, part } = begun;
            let Taken { machine, program } = taken;
            run_any(
                alloc, system, machine, &program, part, runner, commands, answers,
            )
        }
        Err(fault) => Err(fault),
    }
}

/// Takes the image, then the program, looks whether the machine can be shared out so, and makes the file ready that is
/// to be written, in this order, until something is refused.
fn begin_files<H: System>(
    alloc: Global,
    system: &mut H,
    line: &RunLine,
) -> Result<PreparedFiles<AnyMachine, H::Pending>, ProgramFault>
    ensures value { IfOk result (λ begun. HasTrace H.does system.old system.new (BeginsFiles
        (reads_by H.File.left H.File.has_failed) line.now begun.taken.machine begun.taken.program begun.part)) }
    ensures refused { IfErr result (λ fault. HasTrace H.does system.old system.new (RefusesFiles
        (reads_by H.File.left H.File.has_failed) line.now fault)) }
{
    match take_both(alloc, system, line.image.as_str(), line.program.as_str()) {
        Ok(taken) => begin_taken(alloc, system, line, taken.machine.dims(), taken),
        Err(fault) => Err(fault),
    }
}

/// The same, once a machine of 2^`n` chips and a program are taken.
fn begin_taken<H: System, M: Drop>(
    alloc: Global,
    system: &mut H,
    line: &RunLine,
    n: u8,
    taken: Taken<M>,
) -> Result<PreparedFiles<M, H::Pending>, ProgramFault>
    requires dimension { n ≤ 12 }
    ensures same { IfOk result (λ begun. begun.taken ≡ taken) }
    ensures shared { OnOk result (sharing_fault n line.now.sharing ≡ None) }
    ensures value { IfOk result (λ begun. HasTrace H.does system.old system.new
        (Readies (option_map string_bytes line.now.out) begun.part)) }
    ensures refused { IfErr result (λ fault. HasTrace H.does system.old system.new (RefusesTaken n line.now fault)) }
{
    if let Err(fault) = line.sharing.check(n) {
        return Err(fault);
    }
    match make_ready(alloc, system, &line.out) {
        Ok(part) => Ok(PreparedFiles { taken, part }),
        Err(fault) => Err(fault),
    }
}

/// Runs a session on a machine; and then the image of the machine goes into the file that was made ready, if one was.
fn run_any<R: SessionRunner, H: System, I: Source, O: Sink>(
    alloc: Global,
    system: &mut H,
    machine: AnyMachine,
    program: &Program,
    part: Option<H::Pending>,
    runner: R,
    commands: &mut I,
    answers: &mut O,
) -> Result<(), ProgramFault>
    requires can { R.can_run runner machine }
    requires reader { I.has_failed commands.old ≡ false }
    requires writer { O.has_failed answers.old ≡ false }
    ensures does { HasTrace H.does system.old system.new (RunsFrom machine program.now.acts (R.may_want runner)
        (streams (I.left commands.old) (I.left commands.new) (O.contents answers.old) (O.contents answers.new)
        (I.has_failed commands.new) (O.has_failed answers.new)) part result) }
{
    let (left, ended) = runner.go(alloc, machine, program, commands, answers);
    match ended {
        Ok(()) => close_any(alloc, system, part, answers, left),
        Err(fault) => abort_files(system, part, ProgramFault::from(fault)),
    }
}

/// Once a session has ended well, and left this machine: as `finish_files`.
fn close_any<H: System, O: Sink>(
    alloc: Global,
    system: &mut H,
    part: Option<H::Pending>,
    out: &O,
    machine: AnyMachine,
) -> Result<(), ProgramFault>
    ensures value { HasTrace H.does system.old system.new
        (FinishesWithImage machine.n machine.cap machine.machine part (O.contents out.now) result) }
{
    close_sized::<Brand, H, O>(alloc, system, part, out, machine)
}

/// The same where it has left a machine of these sizes.
fn close_sized<S: Sizes, H: System, O: Sink>(
    alloc: Global,
    system: &mut H,
    part: Option<H::Pending>,
    out: &O,
    machine: AnyMachine,
) -> Result<(), ProgramFault>
    requires n { machine.n ≡ S.n }
    requires cap { machine.cap ≡ S.cap }
    ensures value { HasTrace H.does system.old system.new
        (FinishesWithImage machine.n machine.cap machine.machine part (O.contents out.now) result) }
{
    let machine = machine.sized::<S>();
    finish_files(alloc, system, part, out, &machine)
}
