//! The outside of a program, as its runtime has it.

ghost use Rattle.std.specs.Prelude.{◌≡◌, false, IfOk};
ghost use Rattle.cm_bits.specs.Ends.{std_has_failed};

use crate::pending::{PendingFile, make_ready};
use cm_bits::{Failed, Sink, Std};
use cm_system::{LineFault, PutFault, System, Written};
use std::alloc::Global;
use std::io::{ErrorKind, Write};
use std::rt::{Env, Files};
use std::{env, fs, io};

/// What lies outside, as the runtime has it.
#[derive(Drop)]
pub struct Host<'a, R> {
    rt: &'a R,
}

impl<'a, R> Host<'a, R> {
    /// The outside of the program of this runtime.
    pub fn new(rt: &'a R) -> Host<'a, R> {
        Host { rt }
    }
}

impl<'a, R: Env + Files + Print + AllocGlobal> System for Host<'a, R> {
    type File = Std<R::File>;

    type Pending = PendingFile<R::File>;

    // No contract tells what a runtime does: each call is trusted to do what it is named for.
    ghost does = { λ before deed after. Unit {0} };

    fn words(&mut self, alloc: Global) -> Result<Vec<String>, LineFault> {
        match env::args(self.rt) {
            Ok(words) => Ok(words.collect(alloc)?),
            Err(error) if error.kind() == ErrorKind::OutOfMemory => Err(LineFault::Memory),
            Err(_) => Err(LineFault::BadLine),
        }
    }

    fn open(&mut self, path: &str) -> Result<Self::File, Failed> {
        open(self.rt, path)
    }

    fn ready(&mut self, alloc: Global, path: &str) -> Result<Self::Pending, PutFault> {
        make_ready(self.rt, alloc, path)
    }

    fn flush<O: Sink>(&mut self, _out: &O) -> Result<(), Failed> {
        match io::writer(self.rt).flush() {
            Ok(()) => Ok(()),
            Err(_) => Err(Failed),
        }
    }

    fn fill<T: Written>(&mut self, part: Self::Pending, image: T) -> Result<(), PutFault> {
        part.fill(self.rt, image)
    }

    fn let_go(&mut self, part: Self::Pending) {
        part.let_go(self.rt);
    }
}

/// Opens a file, to be read.
pub fn open<R: Files>(rt: &R, path: &str) -> Result<Std<R::File>, Failed>
    ensures working { IfOk result (λ file. std_has_failed file ≡ false) }
{
    match fs::open(rt, path) {
        Ok(file) => Ok(Std::new(file)),
        Err(_) => Err(Failed),
    }
}
