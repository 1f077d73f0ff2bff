//! A study of a program.

ghost use Rattle.std.specs.Prelude.{◌≡◌, ◌≢◌, ◌^◌, ◌-◌, Ok, Err, IfOk, IfErr, OnOk, length};
ghost use Rattle.lab_study.specs.Studies.{study_table};
ghost use Rattle.lab_study.specs.Study.{table_header, act_lacks_room, lines_table};
ghost use Rattle.lab_study.specs.Watching.{WasTold};

use crate::known::Known;
use crate::repeating::repeats;
use crate::watch::Watch;
use cm_bits::NoMemory;
use cm_model::Act;
use lab_machine::{LAST_CLOCK, LabMachine};
use std::alloc::Global;
use thiserror::Error;

/// What a study tells.
#[derive(Clone, Copy, Debug, PartialEq, Eq)]
pub enum Table {
    /// A line for each petit cycle.
    Cycles,
    /// A line for each message: of those that were delivered when they were, of the others at the end.
    Messages,
    /// A line where routers come to hold again what they held.
    Repeats,
}

/// What each line is of, where a table has as many as there are of these.
#[derive(Clone, Copy, Debug, PartialEq, Eq)]
pub(crate) enum LinesOf {
    Cycles,
    Messages,
}

/// Why there is no table.
#[derive(Clone, Copy, Debug, PartialEq, Eq, Error)]
pub enum StudyFault {
    #[error("more than 2^63 - 1 petit cycles in all")]
    Clock,
    #[error("out of memory")]
    Memory,
}

impl From<NoMemory> for StudyFault {
    ghost use Rattle.std.specs.Prelude.{◌≡◌};
    ghost use Rattle.lab_study.specs.declared.studies.StudyFault.TheVariants.{Memory};

    ghost from_gives = { λ _ fault. fault ≡ Memory };

    fn from(_: NoMemory) -> StudyFault {
        StudyFault::Memory
    }
}

/// Has a machine run a program's acts, and tells the table of them.
#[tactic(auto, unfolding(crate::specs::Studies::study_table))]
pub fn study<W: Watch>(
    alloc: Global,
    machine: &mut LabMachine,
    acts: &[Act],
    table: Table,
    watch: &mut W,
) -> Result<Vec<u8>, StudyFault>
    ensures value { IfOk result (λ text.
        study_table machine.old.n machine.old.cap table machine.old.machine acts.now ≡ Ok text.items) }
    ensures refused { IfErr result (λ fault. fault ≢ StudyFault.Memory
        → study_table machine.old.n machine.old.cap table machine.old.machine acts.now ≡ Err fault) }
    ensures told { OnOk result (WasTold W.sees (length acts.now) watch.old (length acts.now) watch.new) }
{
    match table {
        Table::Cycles => study_lines(alloc, machine, acts, LinesOf::Cycles, watch),
        Table::Messages => study_lines(alloc, machine, acts, LinesOf::Messages, watch),
        Table::Repeats => repeats(alloc, machine, acts, watch),
    }
}

/// The same, of a table of petit cycles or messages.
fn study_lines<W: Watch>(
    alloc: Global,
    machine: &mut LabMachine,
    acts: &[Act],
    table: LinesOf,
    watch: &mut W,
) -> Result<Vec<u8>, StudyFault>
    ensures value { IfOk result (λ text.
        lines_table machine.old.n machine.old.cap table machine.old.machine acts.now ≡ Ok text.items) }
    ensures refused { IfErr result (λ fault. fault ≢ StudyFault.Memory
        → lines_table machine.old.n machine.old.cap table machine.old.machine acts.now ≡ Err fault) }
    ensures told { OnOk result (WasTold W.sees (length acts.now) watch.old (length acts.now) watch.new) }
{
    let mut text = opening_text(alloc, table)?;
    let mut known = Known::opening(alloc, machine)?;
    for (done, act) in acts.iter().enumerate() {
        if lacks_room(machine.clock(), act) {
            return Err(StudyFault::Clock);
        }
        known.follow(alloc, machine, act, table, &mut text)?;
        watch.see(done + 1, acts.len());
    }
    known.tell_end(machine, table, &mut text)?;
    Ok(text)
}

/// The first line of a table.
fn opening_text(alloc: Global, table: LinesOf) -> Result<Vec<u8>, NoMemory>
    ensures value { IfOk result (λ text. text.items ≡ table_header table) }
{
    let line = match table {
        LinesOf::Cycles => b"cycle,taken,delivered,referred,standing,full,asking\n".as_slice(),
        LinesOf::Messages => {
            b"chip,processor,taken,to chip,to processor,delivered,crossed,referred\n".as_slice()
        }
    };
    Ok(Vec::from_slice(alloc, line)?)
}

/// Whether the act is a petit cycle for which the counter has no room.
pub fn lacks_room(clock: u64, act: &Act) -> bool
    ensures value { result ≡ act_lacks_room clock act.now }
{
    match act {
        Act::Cycle => clock == LAST_CLOCK,
        Act::Sense | Act::Nano(_) => false,
    }
}
