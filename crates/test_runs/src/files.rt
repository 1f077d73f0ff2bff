//! Runs over files in memory: an image, a program, and what is left in the file that is asked for.

ghost use Rattle.std.specs.Prelude.{◌≡◌, false};

use cm_bits::{Failed, Sink};
use cm_cli::perform;
use cm_system::{LineFault, PutFault, System, Written};
use std::alloc::{AllocError, Global};
use std::sync::Wait;
use std::thread::Threads;
use test_doubles::{Bytes, Room};

/// So many bytes come at a read of a file.
const STEP: usize = 4096;

/// A program's text, and how much of it comes before a read fails.
pub(crate) type Text<'a> = (&'a [u8], usize);

/// The files of a run and how it is shared out, and what was put into the file that it leaves, if it leaves one.
#[derive(Drop)]
pub(crate) struct Files<'a> {
    pub(crate) alloc: Global,
    pub(crate) image: &'a [u8],
    pub(crate) text: Text<'a>,
    pub(crate) sharing: (u8, u8),
    pub(crate) keeps: bool,
    pub(crate) left: Option<Vec<u8>>,
}

/// How a run ended.
#[derive(Drop)]
pub(crate) struct Ended {
    pub(crate) status: u8,
    /// The number that standard error tells, 0 where it tells none.
    pub(crate) number: u8,
    pub(crate) left: Option<Vec<u8>>,
}

/// Files of which an image is to be left, by a text that comes whole.
pub(crate) fn files_of<'a>(
    alloc: Global,
    image: &'a [u8],
    text: &'a [u8],
    sharing: (u8, u8),
) -> Files<'a> {
    Files {
        alloc,
        image,
        text: (text, 100_000),
        sharing,
        keeps: true,
        left: None,
    }
}

/// The lines of a program, and so many petit cycles behind them.
pub(crate) fn with_cycles(
    alloc: Global,
    lines: &[u8],
    cycles: usize,
) -> Result<Vec<u8>, AllocError> {
    let mut text = lines.to_vec(alloc)?;
    for _ in 0..cycles {
        text.extend_from_slice(b"cycle\n")?;
    }
    Ok(text)
}

impl Files<'_> {
    /// The words behind the program's name.
    fn line(&self, alloc: Global) -> Result<String, AllocError> {
        let (split, workers) = self.sharing;
        let out = if self.keeps { " --out left" } else { "" };
        format!(in alloc; "cm1 run image program --split {split} --workers {workers}{out}")
    }
}

fn words_of(alloc: Global, text: &str) -> Result<Vec<String>, AllocError> {
    let mut words = Vec::new(alloc);
    for word in text.split_whitespace() {
        words.push(String::from_str(alloc, word)?)?;
    }
    Ok(words)
}

impl<'a> System for Files<'a> {
    type File = Bytes<'a>;

    type Pending = ();

    ghost does = { λ before deed after. Unit {0} };

    fn words(&mut self, alloc: Global) -> Result<Vec<String>, LineFault> {
        let Ok(line) = self.line(alloc) else {
            return Err(LineFault::Memory);
        };
        match words_of(alloc, line.as_str()) {
            Ok(words) => Ok(words),
            Err(_) => Err(LineFault::Memory),
        }
    }

    fn open(&mut self, path: &str) -> Result<Bytes<'a>, Failed> {
        match path {
            "image" => Ok(Bytes::new(self.image, STEP)),
            "program" => Ok(Bytes::failing(self.text.0, STEP, self.text.1)),
            _ => Err(Failed),
        }
    }

    fn ready(&mut self, _: Global, _: &str) -> Result<(), PutFault> {
        Ok(())
    }

    fn flush<O: Sink>(&mut self, _out: &O) -> Result<(), Failed> {
        Ok(())
    }

    fn fill<T: Written>(&mut self, _part: (), image: T) -> Result<(), PutFault> {
        let Ok(mut file) = Room::new(self.alloc, 65_536, STEP) else {
            return Err(PutFault::Memory);
        };
        image.write(&mut file)?;
        self.left = file.taken().to_vec(self.alloc).ok();
        Ok(())
    }

    fn let_go(&mut self, _part: ()) {}
}

/// The number in a line that tells a fault, behind the place of one in a text: `cm1: 30 Read`, `cm1: line 1: 15 Word`.
fn number_of(line: &[u8]) -> Option<u8> {
    let line = str::from_utf8(line).ok()?;
    if line.is_empty() {
        return Some(0);
    }
    let told = line.rsplit_once(": ")?.1;
    told.split_whitespace().next()?.parse().ok()
}

/// Runs what these files ask for.
pub(crate) fn run<R: Threads + Wait + Sync>(
    rt: &R,
    mut files: Files<'_>,
    commands: &mut Bytes<'_>,
    answers: &mut Room,
) -> Option<Ended>
    requires reader { commands.old.failed ≡ false }
    requires writer { answers.old.failed ≡ false }
{
    let alloc = files.alloc;
    let mut errors = Room::new(alloc, 100, 100).ok()?;
    let status = perform(rt, alloc, &mut files, commands, answers, &mut errors);
    Some(Ended {
        status,
        number: number_of(errors.taken())?,
        left: files.left,
    })
}
