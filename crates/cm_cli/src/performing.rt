//! The whole program: from its words to the line on standard error and the status.

ghost use Rattle.std.specs.Prelude.{◌≡◌, false, map, string_bytes, IfOk, IfErr, IsErrOf};
ghost use Rattle.cm_args.specs.Lines.{AsksFor, IsBadLine};
ghost use Rattle.cm_system.specs.Trace.{HasTrace};
ghost use Rattle.cm_system.specs.InputFiles.{reads_by};
ghost use Rattle.cm_system.specs.Streams.{streams};
ghost use Rattle.cm_cli.specs.Lines.{IsLineTrace};
ghost use Rattle.cm_cli.specs.Performed.{AsksLine, AsksNoLine, IsWordsTrace, Performs, ReportsFault, asked_words};

use crate::several::Several;
use cm_args::{Line, LineFault, command};
use cm_bits::{Sink, Source};
use cm_gates::Passage;
use cm_run::{Alone, RunLine, Sharing, run_files};
use cm_system::{ProgramFault, System, report};
use cm_tools::{WeaveLine, chip_line, fresh_line, list_line, weave_files};
use std::alloc::Global;
use std::sync::Wait;
use std::thread::Threads;

/// The status where even the line that tells a fault cannot be written.
const UNTOLD: u8 = 4;

/// Does what the words of the command line ask for, between standard input, output and error and what lies outside, and
/// answers the status to end with.
pub fn perform<R: Threads + Wait + Sync, H: System, I: Source, O: Sink, E: Sink>(
    rt: &R,
    alloc: Global,
    system: &mut H,
    commands: &mut I,
    answers: &mut O,
    errors: &mut E,
) -> u8
    requires reader { I.has_failed commands.old ≡ false }
    requires writer { O.has_failed answers.old ≡ false }
    requires teller { E.has_failed errors.old ≡ false }
    ensures performs { HasTrace H.does system.old system.new (Performs (reads_by H.File.left H.File.has_failed)
        (streams (I.left commands.old) (I.left commands.new) (O.contents answers.old) (O.contents answers.new)
        (I.has_failed commands.new) (O.has_failed answers.new))
        (E.contents errors.old) (E.contents errors.new) (E.has_failed errors.new) result) }
{
    let ended = do_words(rt, alloc, system, commands, answers);
    tell(ended, errors)
}

/// Does what the words ask for.
fn do_words<R: Threads + Wait + Sync, H: System, I: Source, O: Sink>(
    rt: &R,
    alloc: Global,
    system: &mut H,
    commands: &mut I,
    answers: &mut O,
) -> Result<(), ProgramFault>
    requires reader { I.has_failed commands.old ≡ false }
    requires writer { O.has_failed answers.old ≡ false }
    ensures does { HasTrace H.does system.old system.new (IsWordsTrace (reads_by H.File.left H.File.has_failed)
        (streams (I.left commands.old) (I.left commands.new) (O.contents answers.old) (O.contents answers.new)
        (I.has_failed commands.new) (O.has_failed answers.new)) result) }
{
    match ask_line(alloc, system) {
        Ok(line) => do_line(rt, alloc, system, line, commands, answers),
        Err(fault) => Err(fault),
    }
}

/// Does what a line asks for.
fn do_line<R: Threads + Wait + Sync, H: System, I: Source, O: Sink>(
    rt: &R,
    alloc: Global,
    system: &mut H,
    line: Line,
    commands: &mut I,
    answers: &mut O,
) -> Result<(), ProgramFault>
    requires reader { I.has_failed commands.old ≡ false }
    requires writer { O.has_failed answers.old ≡ false }
    ensures does { HasTrace H.does system.old system.new (IsLineTrace (reads_by H.File.left H.File.has_failed) line
        (streams (I.left commands.old) (I.left commands.new) (O.contents answers.old) (O.contents answers.new)
        (I.has_failed commands.new) (O.has_failed answers.new)) result) }
{
    match line {
        Line::Chip => chip_line(alloc, system, commands, answers),
        Line::List { program } => list_line(alloc, system, program.as_str(), answers),
        Line::Fresh { n, cap, file } => fresh_line(alloc, system, n, cap, file.as_str()),
        Line::Run {
            image,
            program,
            split,
            workers,
            out,
        } => {
            let sharing = Sharing { split, workers };
            let line = RunLine {
                image,
                program,
                sharing,
                out,
            };
            if workers == 1 {
                return run_files(alloc, system, &line, Alone, commands, answers);
            }
            let several = Several {
                rt,
                sharing,
                passage: Passage::Open,
            };
            run_files(alloc, system, &line, several, commands, answers)
        }
        Line::Weave {
            image,
            program,
            steps,
            split,
            out,
        } => {
            let line = WeaveLine {
                image,
                program,
                steps,
                split,
                out,
            };
            weave_files(alloc, system, &line, answers)
        }
    }
}

/// The line that the words of the command line ask for.
fn ask_line<H: System>(alloc: Global, system: &mut H) -> Result<Line, ProgramFault>
    ensures value { IfOk result (λ line. HasTrace H.does system.old system.new (AsksLine line)) }
    ensures refused { IfErr result (λ fault. HasTrace H.does system.old system.new (AsksNoLine fault)) }
{
    let words = match system.words(alloc) {
        Ok(words) => words,
        Err(fault) => return Err(ProgramFault::from(fault)),
    };
    match line_of(alloc, &words) {
        Ok(line) => Ok(line),
        Err(fault) => Err(ProgramFault::from(fault)),
    }
}

/// The line that these words are.
fn line_of(alloc: Global, texts: &Vec<String>) -> Result<Line, LineFault>
    ensures value { IfOk result (AsksFor (asked_words texts.now)) }
    ensures bad { IsErrOf result LineFault.BadLine → IsBadLine (asked_words texts.now) }
{
    let mut words = Vec::new(alloc);
    for text in texts {
        if words.push(text.as_str()).is_err() {
            return Err(LineFault::Memory);
        }
    }
    command(alloc, words.as_slice())
}

/// Tells a fault, if there is one, and answers the status to end with.
fn tell<E: Sink>(ended: Result<(), ProgramFault>, errors: &mut E) -> u8
    requires working { E.has_failed errors.old ≡ false }
    ensures value { ReportsFault ended (E.contents errors.old) (E.contents errors.new)
        (E.has_failed errors.new) result }
{
    let fault = match ended {
        Ok(()) => return 0,
        Err(fault) => fault,
    };
    match report(fault.number(), fault.line(), errors) {
        Ok(status) => status,
        Err(_) => UNTOLD,
    }
}
