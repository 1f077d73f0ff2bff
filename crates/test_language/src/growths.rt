//! Growths of memory that are refused: while a macro is expanded, while a program text is read or listed, and while its
//! acts run.

use cm_array::{Machine, Plain, RunFault};
use cm_asm::{AsmFault, AsmKind, Program, assemble};
use cm_bits::Field;
use cm_language::{Context, Macro, MacroFault};
use cm_macros::expand;
use cm_model::Act;
use cm_system::ProgramFault;
use cm_tools::list;
use std::alloc::{AllocError, Global};
use test_doubles::{Bytes, Room};
use test_generators::{Call, first_not_so, flag, processor, run_beside_plain};

/// What takes memory.
#[derive(Clone, Copy, Debug, PartialEq, Eq)]
enum Grown {
    Expanded,
    Assembled,
    TooLong,
    Listing,
    Listed,
    Run,
}

static GROWN: [Grown; 6] = [
    Grown::Expanded,
    Grown::Assembled,
    Grown::TooLong,
    Grown::Listing,
    Grown::Listed,
    Grown::Run,
];

impl Call for Grown {
    fn is_so(&self, alloc: Global) -> Option<bool> {
        match self {
            Grown::Expanded => is_appended(alloc),
            Grown::Assembled => Some(is_assembled(alloc)),
            Grown::TooLong => tells_too_many_acts(alloc),
            Grown::Listing => is_listed(alloc),
            Grown::Listed => lists_all(alloc),
            Grown::Run => adds_up(alloc),
        }
    }
}

/// Whether a sum of eight bits is appended to a list of one act, which else stays as it is.
fn is_appended(alloc: Global) -> Option<bool> {
    let sum = Macro::Add(Field::new(0, 8).ok()?, Field::new(8, 8).ok()?);
    let mut acts = Vec::new(alloc);
    acts.push(Act::Cycle).ok()?;
    match expand(&sum, Context::Always, &mut acts) {
        Ok(()) => Some(acts.len() == 10),
        Err(fault) => {
            let is_kept = fault == MacroFault::Memory && acts.as_slice() == [Act::Cycle].as_slice();
            let again = expand(&sum, Context::Always, &mut acts);
            Some(is_kept && again.is_ok() && acts.len() == 10)
        }
    }
}

// ---- texts

static SUM: &[u8] =
    b"field x 0 2 ; two bits\nfield y 2 2\n\nif 3\nadd x y\ncycle\nsense\nnano 4095 1 2 3 4 1 255 016 w";

static SUM_LISTED: &[u8] =
    b"field x 0 2\nfield y 2 2\nnano 0 0 8 7 3 1 0xf0 0x00 n ; 0\nnano 0 2 7 7 3 1 0x96 0xe8 n ; 1\n\
      nano 1 3 7 7 3 1 0x96 0xe8 n ; 2\ncycle ; 3\nsense ; 4\nnano 4095 1 2 3 4 1 0xff 0x10 w ; 5\n";

/// How many acts a text has, or why it is refused.
fn assembled(alloc: Global, text: &[u8]) -> Result<usize, AsmFault> {
    match assemble(alloc, text) {
        Ok(program) => Ok(program.acts().len()),
        Err(fault) => Err(fault),
    }
}

fn is_assembled(alloc: Global) -> bool {
    match assembled(alloc, SUM) {
        Ok(count) => count == 6,
        Err(fault) => fault.kind == AsmKind::Memory && assembled(alloc, SUM) == Ok(6),
    }
}

/// A text of 29 products of 64 bits, one more than there is room for.
fn products(alloc: Global) -> Result<Vec<u8>, AllocError> {
    let mut text = Vec::from_slice(alloc, b"field d 0 64\nfield x 64 64\nfield y 128 64\n")?;
    for _ in 0..29 {
        text.extend_from_slice(b"mul d x y\n")?;
    }
    Ok(text)
}

/// A text whose last macro is too much.
const TOO_LONG: AsmFault = AsmFault {
    line: 32,
    kind: AsmKind::TooLong,
};

/// Whether it is told so, or else want of memory at an earlier line.
fn tells_too_many_acts(alloc: Global) -> Option<bool> {
    let text = products(alloc).ok()?;
    Some(is_told_as_too_long(alloc, &text))
}

fn is_told_as_too_long(alloc: Global, text: &[u8]) -> bool {
    match assembled(alloc, text) {
        Ok(_) => false,
        Err(fault) if fault.kind == AsmKind::Memory && fault.line < TOO_LONG.line => {
            assembled(alloc, text) == Err(TOO_LONG)
        }
        Err(fault) => fault == TOO_LONG,
    }
}

fn is_listed(alloc: Global) -> Option<bool> {
    let program = assemble(alloc, SUM).ok()?;
    match has_listing(alloc, &program) {
        None => Some(has_listing(alloc, &program) == Some(true)),
        told => told,
    }
}

/// Whether its listing is as it should be. None where memory is wanting.
fn has_listing(alloc: Global, program: &Program) -> Option<bool> {
    let listing = program.listing(alloc).ok()?;
    Some(listing.as_slice() == SUM_LISTED)
}

/// How the listing of the sum ends from bytes to bytes: all of it is written, or nothing for want of memory, or else.
#[derive(Clone, Copy, PartialEq, Eq)]
enum Ending {
    All,
    Nothing,
    Other,
}

fn ending_of(ended: Result<(), ProgramFault>, taken: &[u8]) -> Ending {
    match ended {
        Ok(()) if taken == SUM_LISTED => Ending::All,
        Err(fault) if wants_memory(fault) && taken.is_empty() => Ending::Nothing,
        _ => Ending::Other,
    }
}

fn wants_memory(fault: ProgramFault) -> bool {
    match fault {
        ProgramFault::Memory => true,
        ProgramFault::Text(fault) => fault.kind == AsmKind::Memory,
        _ => false,
    }
}

fn listed(alloc: Global) -> Option<Ending> {
    let mut sink = Room::new(alloc, 4096, 4096).ok()?;
    let ended = list(alloc, &mut Bytes::new(SUM, 16), &mut sink);
    Some(ending_of(ended, sink.taken()))
}

/// Whether the sum is listed, or else nothing is written and it is listed when it is asked for once more.
fn lists_all(alloc: Global) -> Option<bool> {
    match listed(alloc)? {
        Ending::Nothing => Some(listed(alloc)? == Ending::All),
        ending => Some(ending == Ending::All),
    }
}

// ---- acts

static TWO_NUMBERS: &[u8] = b"field x 0 8\nfield y 8 8\nconst x 200\nconst y 100\nadd x y\n";

/// Whether the first eight bits of a processor are 200 + 100 - 256, with a carry.
fn has_sum(machine: &Machine<0, 7>) -> bool {
    let chip = machine.chip(0);
    match Field::new(0, 8) {
        Ok(field) => chip.field(processor(0), field) == 44 && chip.flag(processor(0), flag(7)),
        Err(_) => false,
    }
}

/// Why a chip does not go through the acts, and whether it stays as it is then. None where memory is wanting beside it.
fn refusal(
    alloc: Global,
    machine: &mut Machine<0, 7>,
    acts: &[Act],
) -> Option<(Option<RunFault>, bool)> {
    run_beside_plain(&mut Plain, alloc, machine, acts, 1)
}

/// Whether a chip has the sum after the acts, or else stays as it is and has it when they are tried once more.
fn adds_up_on(alloc: Global, machine: &mut Machine<0, 7>, acts: &[Act]) -> Option<bool> {
    let went = match refusal(alloc, machine, acts)? {
        (Some(RunFault::Memory), true) => refusal(alloc, machine, acts)?,
        first => first,
    };
    Some(went == (None, true) && has_sum(machine))
}

fn adds_up_by(alloc: Global, program: &Program) -> Option<bool> {
    let mut machine = Machine::<0, 7>::blank(alloc).ok()?;
    adds_up_on(alloc, &mut machine, program.acts())
}

/// Whether a chip adds up two numbers, or else stays as it is.
fn adds_up(alloc: Global) -> Option<bool> {
    let program = assemble(alloc, TWO_NUMBERS).ok()?;
    adds_up_by(alloc, &program)
}

// `.ci/refusals` refuses each growth in turn.
#[test]
fn a_refused_growth_hides_no_fault_and_leaves_all_as_it_was(rt: HostRuntime) {
    assert_eq!(rt; first_not_so(rt.alloc(), &GROWN), None);
}
