//! What a command does and is answered.

ghost use Rattle.std.specs.Prelude.{◌≡◌, ◌≢◌, ◌<◌, ◌^◌, ◌++◌, ◌∷◌, [], length, slice_set, codes, decimal, IfOk, IfSome};
ghost use Rattle.std.specs.Prelude.{IsErrOf, IsFalse, IsTrue, OnErr, OnOk};
ghost use Rattle.cm_bits.specs.Bit.{bit_number};
ghost use Rattle.cm_model.specs.Processor.{ZERO, flag, field_value};
ghost use Rattle.cm_model.specs.Array.{nth_or_nil, processor_of, wire};
ghost use Rattle.cm_model.specs.Found.{found_in};
ghost use Rattle.cm_array.specs.Pokes.{machine_with_memory_bit, machine_with_flag};
ghost use Rattle.cm_session.specs.Answer.{line, buffer_lines, log_lines, found_line, refused_line};
ghost use Rattle.cm_session.specs.Bounds.{IsFor};
ghost use Rattle.cm_session.specs.Session.{answered, obeyed};
ghost use Rattle.cm_debug.specs.State.{session_of, state, Goes, IsDone};
ghost use Rattle.cm_debug.specs.Telling.{asks_for_acts, only_asks, runs_acts};

use crate::answers::{push_bit, push_buffer, push_found, push_log, push_number, push_word};
use crate::debugger::{Debugger, Stops};
use crate::out_of::OutOf;
use cm_array::{Log, MachineOf, Runner, Sizes};
use cm_bits::{Addr, Field, FlagNo, NoMemory, Place};
use cm_model::{Found, Tag};
use cm_session::{Command, Refusal};
use std::alloc::AllocError;

impl Debugger<'_> {
    /// Answers what was read of a line. After an `Err` the machine is as it was, or some of the acts that the line runs
    /// are run.
    pub fn answer<S: Sizes, R: Runner<S>>(
        &mut self,
        machine: &mut MachineOf<S>,
        runner: &mut R,
        asked: Result<Option<Command>, Refusal>,
        text: &mut Vec<u8>,
    ) -> Result<(), OutOf>
        requires runner { R.ready }
        requires operands { IfOk asked (λ command. IfSome command (IsFor S.n (length self.old.acts.now))) }
        ensures goes { Goes S.n S.cap
            (answered S.n S.cap self.old.acts.now (session_of machine.old.machine self.old) asked)
            (state machine.old.machine self.old text.old.items (R.threads_lacked runner.old))
            (state machine.new.machine self.new text.new.items (R.threads_lacked runner.new)) result }
        ensures acts { IsErrOf result OutOf.Thread → IsTrue (asks_for_acts asked) }
    {
        match asked {
            Ok(None) => Ok(()),
            Ok(Some(Command::Step)) => self.run_on(machine, runner, Stops::Everywhere, text),
            Ok(Some(Command::Run)) => self.run_on(machine, runner, Stops::AtBreaks, text),
            Ok(Some(command)) => {
                self.obey(machine, command, text)?;
                Ok(())
            }
            Err(refusal) => {
                push_number(text, b"?", u64::from(refusal.number()))?;
                Ok(())
            }
        }
    }

    /// Does what a command asks for that runs no acts, and tells what it is answered.
    fn obey<S: Sizes>(
        &mut self,
        machine: &mut MachineOf<S>,
        command: Command,
        text: &mut Vec<u8>,
    ) -> Result<(), AllocError>
        requires operands { IsFor S.n (length self.old.acts.now) command }
        requires still { IsFalse (runs_acts command) }
        ensures ok { OnOk result (IsDone
            (obeyed S.n S.cap self.old.acts.now (session_of machine.old.machine self.old) command)
            (state machine.old.machine self.old text.old.items 0)
            (state machine.new.machine self.new text.new.items 0)) }
        ensures err { OnErr result (machine.new.machine ≡ machine.old.machine) }
    {
        match command {
            Command::Step | Command::Run => unreachable!(),
            Command::Break(index) => {
                self.breakpoints[index] = true;
                push_number(text, b"break", index as u64)
            }
            Command::Clear(index) => {
                self.breakpoints[index] = false;
                push_number(text, b"clear", index as u64)
            }
            Command::WireOn => {
                self.trace = true;
                push_wire(text, b"on")
            }
            Command::WireOff => {
                self.trace = false;
                push_wire(text, b"off")
            }
            Command::Poke(place, at, bit) => {
                push_word(text, b"ok")?;
                machine.poke(place.chip, place.proc, at, bit);
                Ok(())
            }
            Command::PokeFlag(place, number, bit) => {
                push_word(text, b"ok")?;
                poke_flag(machine, place, number, bit);
                Ok(())
            }
            Command::WireShow
            | Command::Field(..)
            | Command::Flag(..)
            | Command::Buffer(_)
            | Command::Find(_)
            | Command::Events(_)
            | Command::Rule => self.tell(machine, command, text),
        }
    }

    /// Tells what a command asks that leaves all as it is.
    fn tell<S: Sizes>(
        &self,
        machine: &mut MachineOf<S>,
        command: Command,
        text: &mut Vec<u8>,
    ) -> Result<(), AllocError>
        requires operands { IsFor S.n (length self.now.acts.now) command }
        requires asks { IsTrue (only_asks command) }
        ensures ok { OnOk result (IsDone
            (obeyed S.n S.cap self.now.acts.now (session_of machine.old.machine self.now) command)
            (state machine.old.machine self.now text.old.items 0)
            (state machine.new.machine self.now text.new.items 0)) }
        ensures same { machine.new.machine ≡ machine.old.machine }
    {
        match command {
            Command::Step
            | Command::Run
            | Command::Break(_)
            | Command::Clear(_)
            | Command::WireOn
            | Command::WireOff
            | Command::Poke(..)
            | Command::PokeFlag(..) => unreachable!(),
            Command::WireShow => push_bit(text, b"wire", machine.wire()),
            Command::Field(place, field) => push_field(text, machine, place, field),
            Command::Flag(place, number) => push_flag(text, machine, place, number),
            Command::Buffer(chip) => push_buffer(text, machine.buffer(chip)),
            Command::Find(tag) => push_found(text, whereabouts(machine, tag)),
            Command::Events(chip) => push_events(text, machine, chip),
            Command::Rule => push_number(text, b"rule", u64::from(machine.rule().number())),
        }
    }
}

/// Whether the command runs acts.
fn runs_acts(command: Command) -> bool
    ensures value { result ≡ runs_acts command }
{
    matches!(command, Command::Step | Command::Run)
}

/// Whether a line asks for a command that runs acts.
pub fn asks_for_acts(asked: &Result<Option<Command>, Refusal>) -> bool
    ensures value { result ≡ asks_for_acts asked.now }
{
    match asked {
        Ok(Some(command)) => runs_acts(*command),
        Ok(None) | Err(_) => false,
    }
}

/// Where the message of a tag is. A birth that is still to come is of none: then nothing is looked through.
#[tactic(auto, using(crate::proofs::Finding::unborn))]
fn whereabouts<S: Sizes>(machine: &MachineOf<S>, tag: Tag) -> Found
    ensures value { result ≡ found_in S.n machine.now.machine tag }
{
    if tag.birth >= machine.clock() {
        return Found::Unknown;
    }
    machine.find(tag)
}

#[tactic(auto, unfolding(cm_session::specs::Answer::line))]
fn push_wire(text: &mut Vec<u8>, word: &[u8]) -> Result<(), AllocError>
    ensures ok { OnOk result (text.new.items ≡ text.old.items ++ line (codes "wire" ∷ word.now ∷ [])) }
{
    text.extend_from_slice(b"wire ")?;
    push_word(text, word)
}

fn push_field<S: Sizes>(
    text: &mut Vec<u8>,
    machine: &MachineOf<S>,
    place: Place,
    field: Field,
) -> Result<(), AllocError>
    requires chip { place.chip < 2 ^ S.n }
    ensures ok { OnOk result (text.new.items ≡ text.old.items
        ++ line (codes "field"
        ∷ decimal (field_value (processor_of machine.now.machine.chips place) field.at field.len) ∷ [])) }
{
    let value = machine.chip(place.chip).field(place.proc, field);
    push_number(text, b"field", value)
}

fn push_flag<S: Sizes>(
    text: &mut Vec<u8>,
    machine: &MachineOf<S>,
    place: Place,
    number: FlagNo,
) -> Result<(), AllocError>
    requires chip { place.chip < 2 ^ S.n }
    ensures ok { OnOk result (text.new.items ≡ text.old.items
        ++ line (codes "flag"
        ∷ decimal (bit_number (flag (processor_of machine.now.machine.chips place) number)) ∷ [])) }
{
    push_bit(
        text,
        b"flag",
        machine.chip(place.chip).flag(place.proc, number),
    )
}

/// Deals a machine's events out and tells those of a chip; where memory is wanting for that, tells them from a copy.
fn push_events<S: Sizes>(
    text: &mut Vec<u8>,
    machine: &mut MachineOf<S>,
    chip: u16,
) -> Result<(), AllocError>
    requires chip { chip < 2 ^ S.n }
    ensures ok { OnOk result (text.new.items
        ≡ text.old.items ++ log_lines (nth_or_nil machine.old.machine.logs chip)) }
    ensures machine { machine.new.machine ≡ machine.old.machine }
{
    let _ = machine.deal_out();
    let log = machine.log(chip);
    match log.whole() {
        Some(events) => push_log(text, events),
        None => push_copied(text, &log),
    }
}

/// Tells events from a copy.
fn push_copied(text: &mut Vec<u8>, log: &Log<'_>) -> Result<(), AllocError>
    ensures ok { OnOk result (text.new.items ≡ text.old.items ++ log_lines log.now) }
{
    let mut events = Vec::new(*text.allocator());
    match log.push_onto(&mut events) {
        Ok(()) => push_log(text, &events),
        Err(NoMemory) => Err(AllocError),
    }
}

/// Puts a bit into a flag that is not flag 8.
fn poke_flag<S: Sizes>(machine: &mut MachineOf<S>, place: Place, number: FlagNo, bit: bool)
    requires chip { place.chip < 2 ^ S.n }
    requires pokeable { number ≢ ZERO }
    ensures value { machine.new.machine ≡ machine_with_flag machine.old.machine place.chip place.proc number bit }
{
    let _ = machine.poke_flag(place.chip, place.proc, number, bit);
}
