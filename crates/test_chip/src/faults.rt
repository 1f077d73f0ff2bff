//! Faults that no text ends with, as the program has them.

use crate::cases::{Case, first_not_so};
use cm_system::{AsmFault, AsmKind, ChipFault, LineFault, ProgramFault, TakeFault};
use std::alloc::Global;
use std::test::Fail;

/// A fault of a session, of reading a file, of a command line, or of the whole program.
#[derive(Clone, Copy)]
enum Fault {
    Session(ChipFault),
    Take(TakeFault),
    Line(LineFault),
    Whole(ProgramFault),
}

impl Fault {
    fn of_program(self) -> ProgramFault {
        match self {
            Fault::Session(fault) => ProgramFault::from(fault),
            Fault::Take(fault) => ProgramFault::from(fault),
            Fault::Line(fault) => ProgramFault::from(fault),
            Fault::Whole(fault) => fault,
        }
    }
}

/// A fault, the number that is told, and the line of a text.
struct Numbered(&'static str, Fault, u8, Option<u64>);

impl Case for Numbered {
    fn name(&self) -> &'static str {
        self.0
    }

    fn is_so(&self, _alloc: Global) -> Result<bool, Fail> {
        let Numbered(_, fault, number, line) = *self;
        let fault = fault.of_program();
        Ok(fault.number() == number && fault.line() == line)
    }
}

static NUMBERED: [Numbered; 8] = [
    Numbered(
        "memory of a session",
        Fault::Session(ChipFault::Memory),
        33,
        None,
    ),
    Numbered("memory of a file", Fault::Take(TakeFault::Memory), 33, None),
    Numbered("memory of a line", Fault::Line(LineFault::Memory), 33, None),
    Numbered("memory", Fault::Whole(ProgramFault::Memory), 33, None),
    Numbered(
        "memory of a text",
        Fault::Whole(ProgramFault::Text(AsmFault {
            line: 9,
            kind: AsmKind::Memory,
        })),
        14,
        Some(9),
    ),
    Numbered("no thread", Fault::Whole(ProgramFault::NoThread), 9, None),
    Numbered("workers", Fault::Whole(ProgramFault::Workers), 36, None),
    Numbered("a split", Fault::Whole(ProgramFault::Split), 37, None),
];

#[test]
fn faults_have_their_numbers(rt: HostRuntime) -> Result<(), Fail> {
    assert_eq!(rt; first_not_so(rt.alloc(), &NUMBERED)?, None);
    Ok(())
}
