//! What a study keeps from one act to the next.

ghost use Rattle.std.specs.Prelude.{◌≡◌, ◌++◌, IfOk, OnOk};
ghost use Rattle.cm_model.specs.declared.act.Act.TheVariants as act;
ghost use Rattle.lab_machine.specs.Machines.{lab_after};
ghost use Rattle.lab_study.specs.Study.{studied, study_opening, study_cycle_text, end_text, act_text, one_act_on};

use crate::counting::{counts, log_lengths};
use crate::studies::LinesOf;
use crate::tables::{push_cycle, push_delivered, push_standing};
use crate::ways::Ways;
use cm_bits::NoMemory;
use cm_model::Act;
use lab_machine::LabMachine;
use std::alloc::Global;

/// By chip, how many of its events were told; and what is known of the messages that stand in routers.
#[derive(Drop)]
pub(crate) struct Known {
    pub(crate) told: Vec<usize>,
    pub(crate) ways: Ways,
}

impl Known {
    /// At the start of a study.
    pub(crate) fn opening(alloc: Global, machine: &LabMachine) -> Result<Known, NoMemory>
        ensures value { IfOk result (λ known.
            studied machine.now.machine known ≡ study_opening machine.now.n machine.now.machine) }
    {
        let told = log_lengths(alloc, machine)?;
        let nothing = Ways::none(alloc);
        let ways = nothing.after(alloc, machine)?;
        Ok(Known { told, ways })
    }

    /// Has a machine do an act, and tells what it tells.
    pub(crate) fn follow(
        &mut self,
        alloc: Global,
        machine: &mut LabMachine,
        act: &Act,
        table: LinesOf,
        text: &mut Vec<u8>,
    ) -> Result<(), NoMemory>
        ensures machine { OnOk result (machine.new ≡ lab_after machine.old act.now) }
        ensures text { OnOk result (text.new.items ≡ text.old.items
            ++ act_text machine.old.n machine.old.cap table (studied machine.old.machine self.old) act.now) }
        ensures studied { OnOk result (studied machine.new.machine self.new
            ≡ one_act_on machine.old.n machine.old.cap (studied machine.old.machine self.old) act.now) }
    {
        match act {
            Act::Cycle => self.follow_cycle(alloc, machine, table, text),
            Act::Sense => machine.go_on(alloc, &Act::Sense),
            Act::Nano(nano) => machine.go_on(alloc, &Act::Nano(*nano)),
        }
    }

    /// Has it do a petit cycle.
    fn follow_cycle(
        &mut self,
        alloc: Global,
        machine: &mut LabMachine,
        table: LinesOf,
        text: &mut Vec<u8>,
    ) -> Result<(), NoMemory>
        ensures machine { OnOk result (machine.new ≡ lab_after machine.old act.Cycle) }
        ensures text { OnOk result (text.new.items ≡ text.old.items
            ++ act_text machine.old.n machine.old.cap table (studied machine.old.machine self.old) act.Cycle) }
        ensures studied { OnOk result (studied machine.new.machine self.new
            ≡ one_act_on machine.old.n machine.old.cap (studied machine.old.machine self.old) act.Cycle) }
    {
        let clock = machine.clock();
        machine.go_on(alloc, &Act::Cycle)?;
        self.tell(clock, machine, table, text)?;
        let told = log_lengths(alloc, machine)?;
        let ways = self.ways.after(alloc, machine)?;
        *self = Known { told, ways };
        Ok(())
    }

    /// What is told of a petit cycle, at this count, which left this machine.
    fn tell(
        &self,
        clock: u64,
        machine: &LabMachine,
        table: LinesOf,
        text: &mut Vec<u8>,
    ) -> Result<(), NoMemory>
        ensures ok { OnOk result (text.new.items
            ≡ text.old.items
            ++ study_cycle_text machine.now.n machine.now.cap table clock self.now.told.items self.now.ways
            machine.now.machine) }
    {
        match table {
            LinesOf::Cycles => push_cycle(text, clock, counts(&self.told, &self.ways, machine)),
            LinesOf::Messages => push_delivered(text, clock, &self.told, &self.ways, machine),
        }
    }

    /// What is told at the end.
    pub(crate) fn tell_end(
        &self,
        machine: &LabMachine,
        table: LinesOf,
        text: &mut Vec<u8>,
    ) -> Result<(), NoMemory>
        ensures ok { OnOk result (text.new.items
            ≡ text.old.items ++ end_text machine.now.n table (studied machine.now.machine self.now)) }
    {
        match table {
            LinesOf::Cycles => Ok(()),
            LinesOf::Messages => push_standing(text, &self.ways, machine),
        }
    }
}
