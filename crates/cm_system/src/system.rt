//! What lies outside of the program, and what it may do there.

ghost use Rattle.std.specs.Prelude.{◌≡◌, ℕ, false, IfOk, List, Option};
ghost use Rattle.cm_system.specs.Trace.{IoEvent, Asked, Opened, Readied, Flushed, Filled, LetGo};

use crate::written::Written;
use cm_args::LineFault;
use cm_bits::{Failed, Sink, Source};
use std::alloc::Global;
use thiserror::Error;

/// Why a file was not put where it was wanted.
#[derive(Clone, Copy, Debug, PartialEq, Eq, Error)]
pub enum PutFault {
    #[error("a file cannot be made or replaced, or a write failed")]
    Write,
    #[error("a growth of memory was refused")]
    Memory,
}

/// What lies outside of the program but for its standard input, output and error: the words of its command line, files,
/// and the way on which standard output goes out.
pub trait System {
    /// A file that is read.
    type File: Source + Drop;

    /// A file that was made ready, and is not yet where it was wanted.
    type Pending: Drop;

    // What a deed may leave of the outside: the outside before, the deed, the outside after it.
    ghost does: { Self → IoEvent Self.File Self.Pending → Self → Type 0 };

    /// The words of the command line, the first of which is the program's name.
    fn words(&mut self, alloc: Global) -> Result<Vec<String>, LineFault>
        ensures does { does self.old (Asked result) self.new };

    /// Opens a file, to be read.
    fn open(&mut self, path: &str) -> Result<Self::File, Failed>
        ensures working { IfOk result (λ file. Self.File.has_failed file ≡ false) }
        ensures does { does self.old (Opened path.now result) self.new };

    /// Makes a file ready that is to stand where the path says. What stands there is left as it is.
    fn ready(&mut self, alloc: Global, path: &str) -> Result<Self::Pending, PutFault>
        ensures does { does self.old (Readied path.now result) self.new };

    /// Sends on its way what standard output has taken.
    fn flush<O: Sink>(&mut self, out: &O) -> Result<(), Failed>
        ensures does { does self.old (Flushed (O.contents out.now) result) self.new };

    /// Writes the bytes of this into the file that was made ready, and puts it where it was wanted; or takes it away.
    fn fill<T: Written>(&mut self, part: Self::Pending, image: T) -> Result<(), PutFault>
        ensures does { does self.old (Filled part (T.bytes image) result) self.new };

    /// Takes away a file that was made ready.
    fn let_go(&mut self, part: Self::Pending)
        ensures does { does self.old (LetGo part) self.new };
}
