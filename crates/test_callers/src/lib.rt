//! How a program in Rust calls the emulator: it makes a machine, runs a text on it, looks at it, and keeps it.
#![tactic(auto)]

ghost use Rattle.std.specs.Prelude.{◌≡◌, ◌<◌, IfOk, IfErr, IsErr, IsOk, OnOk};
ghost use Rattle.cm_model.specs.Array.{chip_at};
ghost use Rattle.cm_model.specs.Chip.{processor_at};
ghost use Rattle.cm_model.specs.Machine.{blank_machine, run_of};
ghost use Rattle.cm_model.specs.Processor.{field_value};
ghost use Rattle.cm_language.specs.Program.{program_of};

use cm_array::{Machine, MachineFault, Plain, RunFault, Runner};
use cm_asm::assemble;
use cm_bits::{Field, Place, Proc};
use cm_language::AsmFault;
use std::alloc::Global;
use thiserror::Error;

/// Why no machine was left.
#[derive(Clone, Copy, Debug, PartialEq, Eq, Error)]
pub enum UseFault {
    #[error("{0}")]
    Text(AsmFault),
    #[error("{0}")]
    Machine(MachineFault),
    #[error("{0}")]
    Run(RunFault),
}

impl From<AsmFault> for UseFault {
    fn from(fault: AsmFault) -> UseFault {
        UseFault::Text(fault)
    }
}

impl From<MachineFault> for UseFault {
    fn from(fault: MachineFault) -> UseFault {
        UseFault::Machine(fault)
    }
}

impl From<RunFault> for UseFault {
    fn from(fault: RunFault) -> UseFault {
        UseFault::Run(fault)
    }
}

/// The machine that a text leaves, of four chips with room for seven messages each. A text of more than 4,096 acts or
/// 64 petit cycles is refused: its acts would be handed over in several lists.
pub fn machine_after(alloc: Global, text: &[u8]) -> Result<Machine<2, 7>, UseFault>
    ensures value { IfOk result (λ left. IfOk (program_of text.now)
        (λ program. left.machine ≡ run_of 2 7 (blank_machine 2) program.acts)) }
    ensures program { OnOk result (IsOk (program_of text.now)) }
{
    let program = assemble(alloc, text)?;
    let mut machine = Machine::<2, 7>::blank(alloc)?;
    Plain.go(&mut machine, program.acts())?;
    Ok(machine)
}

/// The number in a memory field of one processor.
pub fn number_at(machine: &Machine<2, 7>, place: Place, field: Field) -> u64
    requires chip { place.chip < 4 }
    ensures value { result ≡ field_value
        (processor_at (chip_at machine.now.machine.chips place.chip) place.proc) field.at field.len }
{
    machine.chip(place.chip).field(place.proc, field)
}

/// What a text leaves in memory bits 0 to 7 of processor 5 of chip 3.
pub fn answer_of(alloc: Global, text: &[u8]) -> Result<u64, UseFault>
    ensures value { IfOk result (λ number. IfOk (program_of text.now) (λ program. number
        ≡ field_value (processor_at (chip_at (run_of 2 7 (blank_machine 2) program.acts).chips 3) 5) 0 8)) }
    ensures program { OnOk result (IsOk (program_of text.now)) }
{
    let left = machine_after(alloc, text)?;
    let place = Place {
        chip: 3,
        proc: Proc::new(5).unwrap(),
    };
    let field = Field::new(0, 8).unwrap();
    Ok(number_at(&left, place, field))
}
