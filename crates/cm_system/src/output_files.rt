//! What is written outside: a file is made ready; once the program's work has ended standard output goes out, and the
//! file gets its place.

ghost use Rattle.std.specs.Prelude.{◌≡◌, IfOk, IfErr, Some, option_map, string_bytes};
ghost use Rattle.cm_system.specs.Trace.{HasTrace};
ghost use Rattle.cm_system.specs.OutputFiles.{Aborts, FinishesWithImage, FinishesWell, Fills, FlushesOut, IsUnready};
ghost use Rattle.cm_system.specs.OutputFiles.{Puts};
ghost use Rattle.cm_system.specs.OutputFiles.{Readies, let_go};

use crate::program_fault::ProgramFault;
use crate::system::System;
use crate::written::{Image, Written};
use cm_array::{MachineOf, Sizes};
use cm_bits::Sink;
use std::alloc::Global;

/// Makes the file ready that is to be written, if one is named.
pub fn make_ready<H: System>(
    alloc: Global,
    system: &mut H,
    out: &Option<String>,
) -> Result<Option<H::Pending>, ProgramFault>
    ensures value { IfOk result (λ part. HasTrace H.does system.old system.new
        (Readies (option_map string_bytes out.now) part)) }
    ensures refused { IfErr result (λ fault. HasTrace H.does system.old system.new
        (IsUnready (option_map string_bytes out.now) fault)) }
{
    let Some(path) = out else {
        return Ok(None);
    };
    match system.ready(alloc, path.as_str()) {
        Ok(part) => Ok(Some(part)),
        Err(fault) => Err(ProgramFault::from(fault)),
    }
}

/// Puts a file of these bytes where the path says.
pub fn put_file<H: System, T: Written>(
    alloc: Global,
    system: &mut H,
    path: &str,
    image: T,
) -> Result<(), ProgramFault>
    ensures { HasTrace H.does system.old system.new (Puts path.now (T.bytes image) result) }
{
    match system.ready(alloc, path) {
        Ok(part) => fill(system, part, image),
        Err(fault) => Err(ProgramFault::from(fault)),
    }
}

/// What was written goes out.
pub fn flush_out<H: System, O: Sink>(system: &mut H, out: &O) -> Result<(), ProgramFault>
    ensures { HasTrace H.does system.old system.new (FlushesOut (O.contents out.now) result) }
{
    match system.flush(out) {
        Ok(()) => Ok(()),
        Err(_) => Err(ProgramFault::Write),
    }
}

/// Once a session has ended well, and left this machine: what it wrote goes out, and then the file that was made ready
/// gets the machine's image. What writing that takes of memory is taken before.
pub fn finish_files<S: Sizes, H: System, O: Sink>(
    alloc: Global,
    system: &mut H,
    part: Option<H::Pending>,
    out: &O,
    machine: &MachineOf<S>,
) -> Result<(), ProgramFault>
    ensures value { HasTrace H.does system.old system.new
        (FinishesWithImage S.n S.cap machine.now.machine part (O.contents out.now)
        result) }
{
    let Some(part) = part else {
        return flush_out(system, out);
    };
    match Image::of(alloc, machine) {
        Ok(image) => save(system, part, out, image),
        Err(_) => {
            system.let_go(part);
            Err(ProgramFault::Memory)
        }
    }
}

/// Once a session broke off: the file that was made ready is taken away.
pub fn abort_files<H: System>(
    system: &mut H,
    part: Option<H::Pending>,
    fault: ProgramFault,
) -> Result<(), ProgramFault>
    ensures value { HasTrace H.does system.old system.new (Aborts part fault result) }
{
    take_away(system, part);
    Err(fault)
}

/// A file that was made ready, if one was, is taken away.
fn take_away<H: System>(system: &mut H, part: Option<H::Pending>)
    ensures { HasTrace H.does system.old system.new (λ trace. trace ≡ let_go part) }
{
    if let Some(part) = part {
        system.let_go(part);
    }
}

/// What was written goes out, and then the file that was made ready is filled.
fn save<H: System, T: Written, O: Sink>(
    system: &mut H,
    part: H::Pending,
    out: &O,
    image: T,
) -> Result<(), ProgramFault>
    ensures value { HasTrace H.does system.old system.new (FinishesWell (Some part) (O.contents out.now)
        (Some (T.bytes image)) result) }
{
    match system.flush(out) {
        Ok(()) => fill(system, part, image),
        Err(_) => {
            system.let_go(part);
            Err(ProgramFault::Write)
        }
    }
}

/// Fills a file that was made ready.
fn fill<H: System, T: Written>(
    system: &mut H,
    part: H::Pending,
    image: T,
) -> Result<(), ProgramFault>
    ensures { HasTrace H.does system.old system.new (Fills part (T.bytes image) result) }
{
    match system.fill(part, image) {
        Ok(()) => Ok(()),
        Err(fault) => Err(ProgramFault::from(fault)),
    }
}
