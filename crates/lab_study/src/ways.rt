//! What is known of the ways of all messages that stand in routers.

ghost use Rattle.std.specs.Prelude.{◌≡◌, ◌++◌, ◌∷◌, [], ◌<◌, ◌≤◌, ℕ, List, IfOk, OnOk, length, map, slice_set};
ghost use Rattle.std.specs.List.{find};
ghost use Rattle.cm_model.specs.Array.{nth_or_nil};
ghost use Rattle.cm_model.specs.Found.{same_tag};
ghost use Rattle.lab_study.specs.declared.trace.Trace.{Trace};
ghost use Rattle.lab_study.specs.Traces.{trace_of, trace_after, by_sender, traces_after};

use crate::trace::Trace;
use cm_bits::NoMemory;
use cm_model::{Message, Tag};
use lab_machine::LabMachine;
use std::alloc::Global;
use std::marker::Model;

/// What is known of messages, by the chip that sent them.
#[derive(Drop)]
pub(crate) struct Ways {
    by_sender: Vec<Vec<Trace>>,
}

impl Model for Ways {
    ghost use Rattle.std.specs.Prelude.{map};
    ghost use Rattle.lab_study.specs.Traces.{Traces};

    ghost Value = { Traces };

    ghost view = { λ ways. map (λ traces. traces.items) ways.by_sender.items };
}

impl Ways {
    /// Of no chip.
    pub(crate) fn none(alloc: Global) -> Ways
        ensures value { result ≡ [] }
    {
        Ways {
            by_sender: Vec::new(alloc),
        }
    }

    /// Of each chip nothing.
    fn blank(alloc: Global, machine: &LabMachine) -> Result<Ways, NoMemory>
        ensures value { IfOk result (λ ways. ways ≡ by_sender machine.now.n []) }
    {
        let chips = machine.chips();
        let mut by_sender = Vec::with_capacity(alloc, usize::from(chips))?;
        for _chip in 0..chips {
            let Ok(()) = by_sender.push(no_traces(alloc)) else {
                return Err(NoMemory);
            };
        }
        Ok(Ways { by_sender })
    }

    /// What is known one petit cycle on, when the machine is this.
    pub(crate) fn after(&self, alloc: Global, machine: &LabMachine) -> Result<Ways, NoMemory>
        ensures value { IfOk result (λ ways. ways ≡ traces_after machine.now.n self.now machine.now.machine) }
    {
        let mut next = Ways::blank(alloc, machine)?;
        for chip in 0..machine.chips() {
            self.follow_chip(chip, machine.buffer(chip), &mut next)?;
        }
        Ok(next)
    }

    /// What is known then of the messages that stand at a chip comes in addition.
    fn follow_chip(&self, chip: u16, messages: &[Message], next: &mut Ways) -> Result<(), NoMemory>
        ensures ok { OnOk result ((n : ℕ) (before : List Trace) → next.old ≡ by_sender n before
            → next.new ≡ by_sender n
            (before ++ map (λ m. trace_after (trace_of self.now chip m) m) messages.now)) }
    {
        for message in messages {
            next.push(self.of(chip, message).followed(message))?;
        }
        Ok(())
    }

    /// One message more, of a chip of which there are messages.
    fn push(&mut self, trace: Trace) -> Result<(), NoMemory>
        ensures ok { OnOk result (self.new
            ≡ slice_set self.old trace.tag.chip (nth_or_nil self.old trace.tag.chip ++ trace ∷ [])) }
    {
        let sender = usize::from(trace.tag.chip);
        if sender < self.by_sender.len() {
            let sent = &mut self.by_sender[sender];
            push_trace(sent, trace)?;
        }
        Ok(())
    }

    /// What was known of a message that stands at a chip.
    #[tactic(auto, using(crate::proofs::Sending::unsent))]
    pub(crate) fn of(&self, chip: u16, message: &Message) -> Trace
        ensures value { result ≡ trace_of self.now chip message.now }
    {
        let sender = message.tag.chip;
        if usize::from(sender) >= self.chips() {
            return Trace::set_out(chip, message);
        }
        match known_of(self.sent_by(sender), &message.tag) {
            Some(trace) => trace,
            None => Trace::set_out(chip, message),
        }
    }

    /// How many chips there are.
    fn chips(&self) -> usize
        ensures value { result ≡ length self.now }
    {
        self.by_sender.len()
    }

    /// What is known of the messages of a chip.
    fn sent_by(&self, chip: u16) -> &[Trace]
        requires there { chip < length self.now }
        ensures value { result.now ≡ nth_or_nil self.now chip }
    {
        &self.by_sender[usize::from(chip)]
    }
}

fn no_traces(alloc: Global) -> Vec<Trace>
    ensures value { result.items ≡ [] }
{
    Vec::new(alloc)
}

fn push_trace(traces: &mut Vec<Trace>, trace: Trace) -> Result<(), NoMemory>
    ensures ok { OnOk result (traces.new.items ≡ traces.old.items ++ trace ∷ []) }
{
    match traces.push(trace) {
        Ok(()) => Ok(()),
        Err(_) => Err(NoMemory),
    }
}

/// What is known of the message of a tag.
fn known_of(traces: &[Trace], tag: &Tag) -> Option<Trace>
    ensures value { result ≡ find (λ trace. same_tag trace.tag tag.now) traces.now }
{
    for trace in traces {
        if are_same(&trace.tag, tag) {
            return Some(*trace);
        }
    }
    None
}

/// Whether two tags are one.
pub fn are_same(left: &Tag, right: &Tag) -> bool
    ensures value { result ≡ same_tag left.now right.now }
{
    left.chip == right.chip && left.proc.get() == right.proc.get() && left.birth == right.birth
}
