//! What is done for the lines `chip`, `list` and `fresh`.

ghost use Rattle.std.specs.Prelude.{◌≡◌, false};
ghost use Rattle.cm_system.specs.Trace.{HasTrace};
ghost use Rattle.cm_system.specs.InputFiles.{reads_by};
ghost use Rattle.cm_system.specs.Streams.{streams};
ghost use Rattle.cm_tools.specs.Tools.{IsChipTrace, IsFreshTrace, IsListTrace};

use crate::blanks::fresh;
use crate::listed::list;
use crate::session::chip_session;
use cm_bits::{Sink, Source};
use cm_system::{ProgramFault, System, flush_out, put_file};
use std::alloc::Global;

/// `chip`: a session of one chip, from standard input to standard output.
pub fn chip_line<H: System, I: Source, O: Sink>(
    alloc: Global,
    system: &mut H,
    commands: &mut I,
    answers: &mut O,
) -> Result<(), ProgramFault>
    requires reader { I.has_failed commands.old ≡ false }
    requires writer { O.has_failed answers.old ≡ false }
    ensures does { HasTrace H.does system.old system.new (IsChipTrace
        (streams (I.left commands.old) (I.left commands.new) (O.contents answers.old) (O.contents answers.new)
        (I.has_failed commands.new) (O.has_failed answers.new)) result) }
{
    match chip_session(alloc, commands, answers) {
        Ok(()) => flush_out(system, answers),
        Err(fault) => Err(ProgramFault::from(fault)),
    }
}

/// `list`: from a program's file to standard output.
pub fn list_line<H: System, O: Sink>(
    alloc: Global,
    system: &mut H,
    path: &str,
    answers: &mut O,
) -> Result<(), ProgramFault>
    requires writer { O.has_failed answers.old ≡ false }
    ensures does { HasTrace H.does system.old system.new (IsListTrace (reads_by H.File.left H.File.has_failed) path.now
        (O.contents answers.old) (O.contents answers.new) (O.has_failed answers.new) result) }
{
    match system.open(path) {
        Ok(mut file) => match list(alloc, &mut file, answers) {
            Ok(()) => flush_out(system, answers),
            Err(fault) => Err(fault),
        },
        Err(_) => Err(ProgramFault::Read),
    }
}

/// `fresh`: the image of a blank machine goes into a file.
pub fn fresh_line<H: System>(
    alloc: Global,
    system: &mut H,
    n: u8,
    cap: u8,
    path: &str,
) -> Result<(), ProgramFault>
    ensures does { HasTrace H.does system.old system.new (IsFreshTrace n cap path.now result) }
{
    match fresh(alloc, n, cap) {
        Ok(image) => put_file(alloc, system, path, image.as_slice()),
        Err(fault) => Err(fault),
    }
}
