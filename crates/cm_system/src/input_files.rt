//! The files that the program reads to their end, an image and a program's text.

ghost use Rattle.std.specs.Prelude.{◌≡◌, IfOk, IfErr};
ghost use Rattle.cm_system.specs.Trace.{HasTrace};
ghost use Rattle.cm_system.specs.InputFiles.{OpensImage, ReadsProgram, RefusesImage, RefusesProgram, TakesFile};
ghost use Rattle.cm_system.specs.InputFiles.{reads_by};
ghost use Rattle.cm_system.specs.InputFiles.{RefusesBoth, TakesBoth};

use crate::program_fault::ProgramFault;
use crate::read_all::{TakeFault, take};
use crate::system::System;
use cm_array::AnyMachine;
use cm_asm::{Program, assemble};
use cm_sizes::open_image_source;
use std::alloc::Global;

/// Most bytes of a program's file.
pub const PROGRAM_LIMIT: u64 = 16777216;

/// A machine and a program that were taken of files.
#[derive(Drop)]
pub struct Taken<M> {
    pub machine: M,
    pub program: Program,
}

/// The machine of an image's file, and then the program of a text's.
pub fn take_both<H: System>(
    alloc: Global,
    system: &mut H,
    image: &str,
    program: &str,
) -> Result<Taken<AnyMachine>, ProgramFault>
    ensures value { IfOk result (λ taken. HasTrace H.does system.old system.new (TakesBoth
        (reads_by H.File.left H.File.has_failed) image.now program.now taken.machine taken.program)) }
    ensures refused { IfErr result (λ fault. HasTrace H.does system.old system.new (RefusesBoth
        (reads_by H.File.left H.File.has_failed) image.now program.now fault)) }
{
    match open_image_file(alloc, system, image) {
        Ok(machine) => take_program(alloc, system, machine, program),
        Err(fault) => Err(fault),
    }
}

/// The program of a text's file, beside a machine that was taken before.
fn take_program<H: System, M: Drop>(
    alloc: Global,
    system: &mut H,
    machine: M,
    path: &str,
) -> Result<Taken<M>, ProgramFault>
    ensures value { IfOk result (λ taken. HasTrace H.does system.old system.new (ReadsProgram
        (reads_by H.File.left H.File.has_failed) path.now taken.program)) }
    ensures same { IfOk result (λ taken. taken.machine ≡ machine) }
    ensures refused { IfErr result (λ fault. HasTrace H.does system.old system.new (RefusesProgram
        (reads_by H.File.left H.File.has_failed) path.now fault)) }
{
    match read_program_file(alloc, system, path) {
        Ok(program) => Ok(Taken { machine, program }),
        Err(fault) => Err(fault),
    }
}

/// The machine of an image's file.
fn open_image_file<H: System>(
    alloc: Global,
    system: &mut H,
    path: &str,
) -> Result<AnyMachine, ProgramFault>
    ensures value { IfOk result (λ machine. HasTrace H.does system.old system.new (OpensImage
        (reads_by H.File.left H.File.has_failed) path.now machine)) }
    ensures refused { IfErr result (λ fault. HasTrace H.does system.old system.new (RefusesImage
        (reads_by H.File.left H.File.has_failed) path.now fault)) }
{
    match system.open(path) {
        Ok(mut file) => match open_image_source(alloc, &mut file) {
            Ok(machine) => Ok(machine),
            Err(fault) => Err(ProgramFault::from(fault)),
        },
        Err(_) => Err(ProgramFault::Read),
    }
}

/// The program of a text's file.
fn read_program_file<H: System>(
    alloc: Global,
    system: &mut H,
    path: &str,
) -> Result<Program, ProgramFault>
    ensures value { IfOk result (λ program. HasTrace H.does system.old system.new (ReadsProgram
        (reads_by H.File.left H.File.has_failed) path.now program)) }
    ensures refused { IfErr result (λ fault. HasTrace H.does system.old system.new (RefusesProgram
        (reads_by H.File.left H.File.has_failed) path.now fault)) }
{
    let text = match take_file(alloc, system, path, PROGRAM_LIMIT) {
        Ok(text) => text,
        Err(fault) => return Err(ProgramFault::from(fault)),
    };
    match assemble(alloc, text.as_slice()) {
        Ok(program) => Ok(program),
        Err(fault) => Err(ProgramFault::Text(fault)),
    }
}

/// The bytes of a file, at most `limit` of them.
fn take_file<H: System>(
    alloc: Global,
    system: &mut H,
    path: &str,
    limit: u64,
) -> Result<Vec<u8>, TakeFault>
    ensures { HasTrace H.does system.old system.new (TakesFile
        (reads_by H.File.left H.File.has_failed) path.now limit result) }
{
    match system.open(path) {
        Ok(mut file) => take(alloc, &mut file, limit),
        Err(_) => Err(TakeFault::Read),
    }
}
