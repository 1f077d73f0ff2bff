//! How a machine's numbers are counted, chip by chip.

ghost use Rattle.std.specs.Prelude.{◌≡◌, ◌^◌, ◌<◌, ◌≤◌, IfOk, sum, sum_by};
ghost use Rattle.std.specs.List.{count_by};
ghost use Rattle.cm_bits.specs.Bit.{bit_number};
ghost use Rattle.cm_model.specs.Each.{tabulate};
ghost use Rattle.cm_model.specs.Processor.{SEND, flag};
ghost use Rattle.cm_model.specs.Chip.{processor_at};
ghost use Rattle.cm_model.specs.Array.{each_chip};
ghost use Rattle.lab_study.specs.Adding.{AreCountsWithin};
ghost use Rattle.lab_study.specs.Counts.{log_lengths, events_behind, is_injection_event, is_delivery_event, counts_at};
ghost use Rattle.lab_study.specs.Counts.{counts_of};
ghost use Rattle.lab_study.specs.Traces.{trace_of, referrals};

use crate::counts::Counts;
use crate::ways::Ways;
use cm_bits::{FlagNo, NoMemory, PROCESSORS, Proc};
use cm_element::ChipView;
use cm_model::{Event, Message};
use lab_machine::LabMachine;
use std::alloc::Global;

/// By chip, how many events its log has.
pub fn log_lengths(alloc: Global, machine: &LabMachine) -> Result<Vec<usize>, NoMemory>
    ensures value { IfOk result (λ lengths. lengths.items ≡ log_lengths machine.now.n machine.now.machine) }
{
    let chips = machine.chips();
    let mut lengths = Vec::with_capacity(alloc, usize::from(chips))?;
    for chip in 0..chips {
        let Ok(()) = lengths.push(machine.log(chip).len()) else {
            return Err(NoMemory);
        };
    }
    Ok(lengths)
}

/// The numbers of a machine after a petit cycle, where its logs had so many events and this was known before.
pub(crate) fn counts(before: &[usize], ways: &Ways, machine: &LabMachine) -> Counts
    ensures value { result ≡ counts_of machine.now.n machine.now.cap before.now ways.now machine.now.machine }
{
    let mut counts = Counts::NONE;
    for chip in 0..machine.chips() {
        counts = counts.plus(counts_at(before, ways, machine, chip));
    }
    counts
}

/// The numbers of one chip.
fn counts_at(before: &[usize], ways: &Ways, machine: &LabMachine, chip: u16) -> Counts
    requires chip { chip < 2 ^ machine.now.n }
    ensures value { result ≡ counts_at machine.now.cap before.now ways.now machine.now.machine chip }
    ensures within { AreCountsWithin (2 ^ 72) result }
{
    let events = events_behind(before, machine, chip);
    let messages = machine.buffer(chip);
    let room = usize::from(machine.room());
    Counts {
        taken: injections(events) as u128,
        delivered: deliveries(events) as u128,
        referred: referred(ways, chip, messages),
        standing: messages.len() as u128,
        full: if messages.len() >= room { 1 } else { 0 },
        asking: asking(&machine.chip(chip)),
    }
}

/// The events of a chip behind those that were there before: by chip so many.
pub fn events_behind<'a>(before: &[usize], machine: &'a LabMachine, chip: u16) -> &'a [Event]
    requires chip { chip < 2 ^ machine.now.n }
    ensures value { result.now ≡ events_behind before.now machine.now.machine chip }
{
    let log = machine.log(chip);
    let from = before.get(usize::from(chip)).copied().unwrap_or(0);
    if from < log.len() { &log[from..] } else { &[] }
}

fn injections(events: &[Event]) -> usize
    ensures value { result ≡ count_by is_injection_event events.now }
{
    events.iter().filter(|event| is_injection(event)).count()
}

fn is_injection(event: &Event) -> bool
    ensures value { result ≡ is_injection_event event.now }
{
    matches!(event, Event::Injected(_))
}

fn deliveries(events: &[Event]) -> usize
    ensures value { result ≡ count_by is_delivery_event events.now }
{
    events.iter().filter(|event| is_delivery(event)).count()
}

fn is_delivery(event: &Event) -> bool
    ensures value { result ≡ is_delivery_event event.now }
{
    matches!(event, Event::Delivered { .. })
}

/// How often the messages that stand at a chip were referred since.
fn referred(ways: &Ways, chip: u16, messages: &[Message]) -> u128
    ensures value { result ≡ sum_by (λ m. referrals (trace_of ways.now chip m) m) messages.now }
    ensures within { result ≤ 2 ^ 72 }
{
    let mut total = 0;
    for message in messages {
        total += u128::from(ways.of(chip, message).referrals(message));
    }
    total
}

/// How many processors of a chip ask to send.
fn asking(chip: &ChipView<'_>) -> u128
    ensures value { result
        ≡ sum (tabulate 0 16 (λ p. bit_number (flag (processor_at chip.now p) SEND))) }
    ensures within { result ≤ 16 }
{
    let mut total = 0;
    for p in 0..PROCESSORS {
        let proc = Proc::new(p).unwrap();
        total += bit_number(chip.flag(proc, FlagNo::SEND));
    }
    total
}

fn bit_number(bit: bool) -> u128
    ensures value { result ≡ bit_number bit }
    ensures within { result ≤ 1 }
{
    if bit { 1 } else { 0 }
}
