//! Why the program ends with a status other than 0, and what it tells then.

use lab_args::CommandFault;
use lab_data::{LabFault, NumbersFault};
use lab_fresh::FreshFault;
use lab_front::{FrontFault, ImageFault, SessionFault};
use lab_load::LoadFault;
use lab_plot::PlotFault;
use lab_source::{AsmKind, SourceFault, SourceKind};
use std::alloc::Global;
use std::io;
use thiserror::Error;

/// A fault of the whole program.
#[derive(Debug, Drop, Error)]
pub enum Fault {
    /// The words ask for nothing.
    #[error(transparent)]
    Command(CommandFault),
    #[error("a word of the command line is no UTF-8 text; cm1lab --help tells all")]
    Words,
    #[error(transparent)]
    Fresh(FreshFault),
    #[error(transparent)]
    Load(LoadFault),
    /// A rate that is too large.
    #[error("a chip offers at most 16 messages in a petit cycle, not {whole}.{hundredths:02}")]
    Rate { whole: u16, hundredths: u16 },
    #[error("{path}: {fault}")]
    File { path: String, fault: FileFault },
    #[error("standard input: {0}")]
    Numbers(NumbersFault),
    /// It cannot be read.
    #[error("standard input {0}")]
    Input(&'static str),
    /// There is more of it than is taken.
    #[error("standard input {0}")]
    LongInput(&'static str),
    #[error("standard output cannot be written")]
    Output,
    #[error("out of memory")]
    Memory,
}

/// What is wrong with a file.
#[derive(Clone, Copy, Debug, Error)]
pub enum FileFault {
    /// It cannot be opened, read or written.
    #[error("{0}")]
    Bytes(&'static str),
    /// It has too many bytes.
    #[error("{0}")]
    TooMuch(&'static str),
    #[error(transparent)]
    Image(LabFault),
    #[error(transparent)]
    Machine(ImageFault),
    #[error(transparent)]
    Source(SourceFault),
    #[error(transparent)]
    Plot(PlotFault),
    #[error(transparent)]
    Places(NumbersFault),
    /// A number that is no place, on this line.
    #[error("line {0}: no place of this cube has this number")]
    NoPlace(u64),
}

impl Fault {
    /// What is wrong with a file.
    pub fn file(alloc: Global, path: &str, fault: FileFault) -> Fault {
        match String::from_str(alloc, path) {
            Ok(path) => Fault::File { path, fault },
            Err(_) => Fault::Memory,
        }
    }

    /// What is wrong with the bytes of a file.
    pub fn bytes(alloc: Global, path: &str, what: &'static str) -> Fault {
        Fault::file(alloc, path, FileFault::Bytes(what))
    }

    /// What is wrong with an image, or with a picture.
    pub fn image(alloc: Global, path: &str, fault: LabFault) -> Fault {
        Fault::file(alloc, path, FileFault::Image(fault))
    }

    /// What is wrong with a source.
    pub fn source(alloc: Global, path: &str, fault: SourceFault) -> Fault {
        match fault.kind {
            SourceKind::Asm(AsmKind::Memory) => Fault::Memory,
            _ => Fault::file(alloc, path, FileFault::Source(fault)),
        }
    }

    /// Why a text has no picture.
    pub fn plot(alloc: Global, path: &str, fault: PlotFault) -> Fault {
        match fault {
            PlotFault::Memory => Fault::Memory,
            fault => Fault::file(alloc, path, FileFault::Plot(fault)),
        }
    }

    /// What is wrong with places.
    pub fn places(alloc: Global, path: &str, fault: NumbersFault) -> Fault {
        match fault {
            NumbersFault::Memory => Fault::Memory,
            NumbersFault::TooLarge(line) => Fault::file(alloc, path, FileFault::NoPlace(line)),
            fault => Fault::file(alloc, path, FileFault::Places(fault)),
        }
    }

    /// Why a front end did not begin, or ended.
    pub fn front(alloc: Global, path: &str, fault: FrontFault) -> Fault {
        match fault {
            FrontFault::Image(ImageFault::Memory)
            | FrontFault::Ended(SessionFault::Memory | SessionFault::NoThread)
            | FrontFault::Memory => Fault::Memory,
            FrontFault::Image(fault) => Fault::file(alloc, path, FileFault::Machine(fault)),
            FrontFault::Room => Fault::image(alloc, path, LabFault::Room),
            FrontFault::Ended(SessionFault::Read) => Fault::Input("cannot be read"),
            FrontFault::Ended(SessionFault::TooMuch) => Fault::LongInput(
                "has a line of more than 16777216 bytes",
            ),
            FrontFault::Ended(SessionFault::Write(_)) => Fault::Output,
        }
    }

    /// The exit status, as that of `cm1`: 2 for words that ask for nothing, 3 for want of memory, 4 for a file that
    /// cannot be opened, read or written, else 1.
    pub fn status(&self) -> u8 {
        match self {
            Fault::Command(CommandFault::Field(_)) => 1,
            Fault::Command(_) | Fault::Words => 2,
            Fault::Memory => 3,
            Fault::File {
                fault: FileFault::Bytes(_),
                ..
            }
            | Fault::Input(_)
            | Fault::Output => 4,
            _ => 1,
        }
    }

    /// Tells it on standard error.
    pub fn tell<R: Eprint>(&self, rt: &R) -> io::Result<()> {
        eprintln!(rt; "cm1lab: {self}")
    }
}
