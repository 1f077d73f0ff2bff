//! Runs that no command line asks for, and the longest program.

use crate::files::{Files, files_of, run};
use crate::runs::{Given, bytes_of};
use cm_cli::Several;
use cm_gates::Passage;
use cm_run::{Alone, RunLine, Sharing, run_files};
use cm_system::ProgramFault;
use std::alloc::Global;
use std::sync::Wait;
use std::thread::Threads;
use test_doubles::{Bytes, Room};

/// Most bytes of a program's file.
const MOST: usize = 16_777_216;

/// The number of the fault of a run whose program has so many lines, all blank, 0 for none.
fn number_of_lines<R: Threads + Wait + Sync>(rt: &R, alloc: Global, count: usize) -> Option<u8> {
    let image = bytes_of(alloc, Given::Blank(0, 7))?;
    let text = vec![in alloc; b'\n'; count].ok()?;
    let files = Files {
        alloc,
        image: &image,
        text: (&text, count + 1),
        sharing: (0, 1),
        keeps: false,
        left: None,
    };
    let mut commands = Bytes::new(b"", 1);
    let mut answers = Room::new(alloc, 0, 1).ok()?;
    Some(run(rt, files, &mut commands, &mut answers)?.number)
}

#[test]
fn a_program_has_at_most_16777216_bytes(rt: HostRuntime) {
    for (count, number) in [(MOST, 0), (MOST + 1, 32)] {
        let told = number_of_lines(&rt, rt.alloc(), count);
        assert!(rt; told == Some(number), "{count} bytes");
    }
}

/// The image, into how many blocks the machine is to be cut (2^k of them) and among how many workers, and the fault:
/// the command line takes none of these.
static UNLINED: [(Given, (u8, u8), ProgramFault); 5] = [
    (Given::Blank(12, 1), (7, 1), ProgramFault::Split),
    (Given::Blank(3, 7), (255, 1), ProgramFault::Split),
    (Given::Blank(4, 7), (2, 0), ProgramFault::Workers),
    (Given::Blank(12, 7), (6, 65), ProgramFault::Workers),
    // the cuts are looked at before the workers
    (Given::Blank(4, 7), (3, 0), ProgramFault::Split),
];

/// Why a run of this image is refused, if it is.
fn refused_as<R: Threads + Wait + Sync>(
    rt: &R,
    alloc: Global,
    image: &[u8],
    line: &RunLine,
) -> Option<ProgramFault> {
    let mut files = files_of(alloc, image, b"", (0, 1));
    let mut commands = Bytes::new(b"", 1);
    let mut answers = Room::new(alloc, 0, 1).ok()?;
    if line.sharing.workers == 1 {
        return run_files(alloc, &mut files, line, Alone, &mut commands, &mut answers).err();
    }
    let several = Several {
        rt,
        sharing: line.sharing,
        passage: Passage::Open,
    };
    run_files(
        alloc,
        &mut files,
        line,
        several,
        &mut commands,
        &mut answers,
    )
    .err()
}

/// The same of one that is shared out so.
fn refused_by<R: Threads + Wait + Sync>(
    rt: &R,
    alloc: Global,
    given: Given,
    sharing: Sharing,
) -> Option<ProgramFault> {
    let image = bytes_of(alloc, given)?;
    let line = RunLine {
        image: String::from_str(alloc, "image").ok()?,
        program: String::from_str(alloc, "program").ok()?,
        sharing,
        out: None,
    };
    refused_as(rt, alloc, &image, &line)
}

#[test]
fn a_run_that_no_command_line_asks_for_is_refused(rt: HostRuntime) {
    for (i, row) in UNLINED.iter().enumerate() {
        let (given, (split, workers), fault) = *row;
        let told = refused_by(&rt, rt.alloc(), given, Sharing { split, workers });
        assert!(rt; told == Some(fault), "in row {i}");
    }
}
