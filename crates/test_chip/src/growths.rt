//! Growths of memory that are refused: of chips, of what is read, of the words of a command line, and in a session.

use cm_args::{Line, LineFault, command};
use cm_bits::NoMemory;
use cm_element::{Chip, NearRun, Run, WideOutputs};
use cm_system::{AsmKind, ChipFault, TakeFault, take};
use cm_tools::chip_session;
use std::alloc::{AllocError, Global};
use test_doubles::{Bytes, Room};
use test_generators::{Call, address, first_not_so, flag, processor};

/// What takes memory.
#[derive(Clone, Copy, Debug, PartialEq, Eq)]
enum Grown {
    BlankChip,
    CopiedChip,
    BlankRun,
    CopiedRun,
    Outputs,
    NearRun,
    Taken,
    Words,
    Session,
}

static GROWN: [Grown; 9] = [
    Grown::BlankChip,
    Grown::CopiedChip,
    Grown::BlankRun,
    Grown::CopiedRun,
    Grown::Outputs,
    Grown::NearRun,
    Grown::Taken,
    Grown::Words,
    Grown::Session,
];

impl Call for Grown {
    fn is_so(&self, alloc: Global) -> Option<bool> {
        match self {
            Grown::BlankChip => Some(has_blank_chip(alloc)),
            Grown::CopiedChip => has_copied_chip(alloc),
            Grown::BlankRun => Some(has_blank_run(alloc)),
            Grown::CopiedRun => has_copied_run(alloc),
            Grown::Outputs => Some(has_outputs(alloc)),
            Grown::NearRun => has_near_run(alloc),
            Grown::Taken => Some(takes_all(alloc)),
            Grown::Words => Some(reads_words(alloc)),
            Grown::Session => runs_nine(alloc),
        }
    }
}

// ---- chips

fn has_blank_chip(alloc: Global) -> bool {
    let made = match Chip::blank(alloc) {
        Err(NoMemory) => Chip::blank(alloc),
        made => made,
    };
    match made {
        Ok(chip) => chip.plane(address(77)) == 0 && chip.flag_plane(flag(3)) == 0,
        Err(_) => false,
    }
}

fn has_copied_chip(alloc: Global) -> Option<bool> {
    let mut chip = Chip::blank(alloc).ok()?;
    chip.poke(processor(3), address(77), true);
    Some(is_copied_chip(alloc, &chip))
}

fn is_copied_chip(alloc: Global, chip: &Chip) -> bool {
    let made = match chip.copy(alloc) {
        Err(NoMemory) => chip.copy(alloc),
        made => made,
    };
    match made {
        Ok(copy) => copy.plane(address(77)) == 8 && chip.plane(address(77)) == 8,
        Err(_) => false,
    }
}

fn has_blank_run(alloc: Global) -> bool {
    let made = match Run::blank(alloc, 9) {
        Err(NoMemory) => Run::blank(alloc, 9),
        made => made,
    };
    match made {
        Ok(run) => run.chips() == 9,
        Err(_) => false,
    }
}

fn has_copied_run(alloc: Global) -> Option<bool> {
    let mut run = Run::blank(alloc, 9).ok()?;
    if run.chips() != 9 {
        return Some(false);
    }
    run.poke(8, processor(3), address(77), true);
    Some(is_copied_run(alloc, &run))
}

fn is_copied_run(alloc: Global, run: &Run) -> bool {
    let made = match run.copy(alloc) {
        Err(NoMemory) => run.copy(alloc),
        made => made,
    };
    match made {
        Ok(copy) => {
            copy.chips() == 9 && copy.plane_row(address(77)) == run.plane_row(address(77))
        }
        Err(_) => false,
    }
}

fn has_outputs(alloc: Global) -> bool {
    let made = match WideOutputs::blank(alloc, 9) {
        Err(NoMemory) => WideOutputs::blank(alloc, 9),
        made => made,
    };
    match made {
        Ok(outputs) => outputs.mem.len() == 9
            && outputs.flag.len() == 9
            && outputs.holds.len() == 9,
        Err(_) => false,
    }
}

/// The run is given up where there is no memory for the near one.
fn near_run(alloc: Global) -> Option<Result<NearRun, NoMemory>> {
    let run = Run::blank(alloc, 9).ok()?;
    if run.chips() != 9 {
        return None;
    }
    Some(NearRun::of(alloc, run, 9))
}

fn has_near_run(alloc: Global) -> Option<bool> {
    match near_run(alloc)? {
        Ok(near) => Some(near.into_run().chips() == 9),
        Err(NoMemory) => Some(near_run(alloc)?.is_ok()),
    }
}

// ---- sources and command lines

/// The full adder three times over. The list of its instructions grows at lines 1, 7 and 12.
static NINE: &[u8] =
    b"nano 0 0 8 0 8 0 0xff 0xff n\n\nnano 0 1 0 7 8 0 0x96 0xe8 n\nnano 5 0 7 8 8 0 0xaa 0x00 n\n\
      nano 0 0 8 0 8 0 0xff 0xff n\n;\nnano 0 1 0 7 8 0 0x96 0xe8 n\nnano 5 0 7 8 8 0 0xaa 0x00 n\n\
      nano 0 0 8 0 8 0 0xff 0xff n\nnano 0 1 0 7 8 0 0x96 0xe8 n\n\nnano 5 0 7 8 8 0 0xaa 0x00 n\n";

static ANSWER: &[u8] =
    b"flag 0 ffff\nflag 1 0000\nflag 2 0000\nflag 3 0000\nflag 4 0000\nflag 5 0000\nflag 6 0000\nflag 7 ffff\n\
      flag 8 0000\nflag 9 0000\nflag 10 0000\nflag 11 0000\nflag 12 0000\nflag 13 0000\nflag 14 0000\n\
      flag 15 0000\nplane 5 ffff\n";

/// What of a source is taken, in pieces.
fn taken(alloc: Global) -> Result<Vec<u8>, TakeFault> {
    take(alloc, &mut Bytes::new(NINE, 16), 1000)
}

fn takes_all(alloc: Global) -> bool {
    let made = match taken(alloc) {
        Err(TakeFault::Memory) => taken(alloc),
        made => made,
    };
    match made {
        Ok(bytes) => bytes.as_slice() == NINE,
        Err(_) => false,
    }
}

static WORDS: [&str; 10] = [
    "cm1",
    "run",
    "an image",
    "a program",
    "--split",
    "2",
    "--workers",
    "3",
    "--out",
    "a file",
];

fn reads_words(alloc: Global) -> bool {
    let made = match command(alloc, &WORDS) {
        Err(LineFault::Memory) => command(alloc, &WORDS),
        made => made,
    };
    match made {
        Ok(line) => has_words(&line),
        Err(_) => false,
    }
}

fn has_words(line: &Line) -> bool {
    match line {
        Line::Run {
            image,
            program,
            split: 2,
            workers: 3,
            out: Some(out),
        } => {
            image.as_str() == WORDS[2] && program.as_str() == WORDS[3] && out.as_str() == WORDS[9]
        }
        _ => false,
    }
}

// ---- a session

/// How a session of these nine instructions ends, and what it wrote.
fn session(alloc: Global) -> Result<(Result<(), ChipFault>, Room), AllocError> {
    let mut sink = Room::new(alloc, 4096, 4096)?;
    let ended = chip_session(alloc, &mut Bytes::new(NINE, 16), &mut sink);
    Ok((ended, sink))
}

/// Whether it ends by want of memory before anything is written: with the line where it was the list that could not
/// grow.
fn is_refused(ended: &Result<(), ChipFault>, written: &[u8]) -> bool {
    let is_told = match ended {
        Err(ChipFault::Memory) => true,
        Err(ChipFault::Text(fault)) => {
            let grows = fault.line == 1 || fault.line == 7 || fault.line == 12;
            grows && fault.kind == AsmKind::Memory
        }
        _ => false,
    };
    is_told && written.is_empty()
}

fn runs_nine(alloc: Global) -> Option<bool> {
    let (ended, sink) = session(alloc).ok()?;
    if ended.is_ok() {
        return Some(sink.taken() == ANSWER);
    }
    let (again, whole) = session(alloc).ok()?;
    Some(is_refused(&ended, sink.taken()) && again.is_ok() && whole.taken() == ANSWER)
}

// `.ci/refusals` refuses each growth in turn.
#[test]
fn a_refused_growth_changes_no_answer(rt: HostRuntime) {
    assert_eq!(rt; first_not_so(rt.alloc(), &GROWN), None);
}
