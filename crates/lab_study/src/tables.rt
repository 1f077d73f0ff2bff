//! The lines of the tables of a study.

ghost use Rattle.std.specs.Prelude.{◌≡◌, ◌++◌, ◌∷◌, [], ◌^◌, ◌<◌, OnOk, decimal};
ghost use Rattle.std.specs.List.{flat_map};
ghost use Rattle.lab_study.specs.Tables.{three_columns, cycle_line, tag_columns, bound_columns, way_columns};
ghost use Rattle.lab_study.specs.Tables.{delivered_line, trace_line};
ghost use Rattle.lab_study.specs.Tables.{event_text, delivered_text, delivered_text_at, standing_text};
ghost use Rattle.lab_study.specs.Tables.{standing_text_at};
ghost use Rattle.lab_study.specs.Traces.{trace_of};

use crate::counting::events_behind;
use crate::counts::Counts;
use crate::trace::Trace;
use crate::ways::Ways;
use cm_bits::NoMemory;
use cm_model::{Event, Message};
use lab_digits::{push_byte, push_number};
use lab_machine::LabMachine;

/// The line of a petit cycle.
#[tactic(auto, unfolding(crate::specs::Tables::cycle_line))]
pub(crate) fn push_cycle(text: &mut Vec<u8>, clock: u64, counts: Counts) -> Result<(), NoMemory>
    ensures ok { OnOk result (text.new.items ≡ text.old.items ++ cycle_line clock counts) }
{
    push_columns(text, u128::from(clock), counts.taken, counts.delivered)?;
    push_columns(text, counts.referred, counts.standing, counts.full)?;
    push_number(text, counts.asking, b'\n')
}

/// The lines of the messages that all chips delivered in a petit cycle, where their logs had so many events and this
/// was known before.
pub(crate) fn push_delivered(
    text: &mut Vec<u8>,
    clock: u64,
    before: &[usize],
    ways: &Ways,
    machine: &LabMachine,
) -> Result<(), NoMemory>
    ensures ok { OnOk result (text.new.items
        ≡ text.old.items ++ delivered_text machine.now.n clock before.now ways.now machine.now.machine) }
{
    for chip in 0..machine.chips() {
        let events = events_behind(before, machine, chip);
        push_events(text, clock, ways, chip, events)?;
    }
    Ok(())
}

/// The lines of the messages that events of a chip tell were delivered.
fn push_events(
    text: &mut Vec<u8>,
    clock: u64,
    ways: &Ways,
    chip: u16,
    events: &[Event],
) -> Result<(), NoMemory>
    ensures ok { OnOk result (text.new.items
        ≡ text.old.items ++ flat_map (event_text clock ways.now chip) events.now) }
{
    for event in events {
        push_event(text, clock, ways, chip, event)?;
    }
    Ok(())
}

fn push_event(
    text: &mut Vec<u8>,
    clock: u64,
    ways: &Ways,
    chip: u16,
    event: &Event,
) -> Result<(), NoMemory>
    ensures ok { OnOk result (text.new.items ≡ text.old.items ++ event_text clock ways.now chip event.now) }
{
    match event {
        Event::Injected(_) => Ok(()),
        Event::Delivered { message, chip: _ } => {
            let trace = ways.of(chip, message).followed(message);
            push_delivered_line(text, clock, chip, message, &trace)
        }
    }
}

#[tactic(auto, unfolding(crate::specs::Tables::delivered_line))]
fn push_delivered_line(
    text: &mut Vec<u8>,
    clock: u64,
    chip: u16,
    message: &Message,
    trace: &Trace,
) -> Result<(), NoMemory>
    ensures ok { OnOk result (text.new.items ≡ text.old.items ++ delivered_line clock chip message.now trace.now) }
{
    push_tag(text, trace)?;
    push_columns(
        text,
        u128::from(chip),
        u128::from(message.proc.get()),
        u128::from(clock),
    )?;
    push_way(text, trace)
}

/// The lines of the messages that stand in all routers.
pub(crate) fn push_standing(
    text: &mut Vec<u8>,
    ways: &Ways,
    machine: &LabMachine,
) -> Result<(), NoMemory>
    ensures ok { OnOk result (text.new.items
        ≡ text.old.items ++ standing_text machine.now.n ways.now machine.now.machine) }
{
    for chip in 0..machine.chips() {
        push_buffer(text, ways, chip, machine.buffer(chip))?;
    }
    Ok(())
}

/// The lines of the messages that stand at a chip.
fn push_buffer(
    text: &mut Vec<u8>,
    ways: &Ways,
    chip: u16,
    messages: &[Message],
) -> Result<(), NoMemory>
    ensures ok { OnOk result (text.new.items
        ≡ text.old.items ++ flat_map (λ m. trace_line chip m (trace_of ways.now chip m)) messages.now) }
{
    for message in messages {
        let trace = ways.of(chip, message);
        push_standing_line(text, chip, message, &trace)?;
    }
    Ok(())
}

#[tactic(auto, unfolding(crate::specs::Tables::trace_line))]
fn push_standing_line(
    text: &mut Vec<u8>,
    chip: u16,
    message: &Message,
    trace: &Trace,
) -> Result<(), NoMemory>
    ensures ok { OnOk result (text.new.items ≡ text.old.items ++ trace_line chip message.now trace.now) }
{
    push_tag(text, trace)?;
    push_bound(text, chip, message)?;
    push_way(text, trace)
}

/// Where a message that stands at a chip is bound for, and that it was not delivered.
fn push_bound(text: &mut Vec<u8>, chip: u16, message: &Message) -> Result<(), NoMemory>
    ensures ok { OnOk result (text.new.items ≡ text.old.items ++ bound_columns chip message.now) }
{
    push_number(text, chip ^ message.rel, b',')?;
    push_number(text, message.proc.get(), b',')?;
    push_byte(text, b',')
}

/// Who sent a message and when.
fn push_tag(text: &mut Vec<u8>, trace: &Trace) -> Result<(), NoMemory>
    ensures ok { OnOk result (text.new.items ≡ text.old.items ++ tag_columns trace.now) }
{
    let tag = trace.tag;
    push_columns(
        text,
        u128::from(tag.chip),
        u128::from(tag.proc.get()),
        u128::from(tag.birth),
    )
}

/// How many dimensions it crossed and how often it was referred.
fn push_way(text: &mut Vec<u8>, trace: &Trace) -> Result<(), NoMemory>
    ensures ok { OnOk result (text.new.items ≡ text.old.items ++ way_columns trace.now) }
{
    push_number(text, trace.crossed, b',')?;
    push_number(text, trace.referred, b'\n')
}

/// Three numbers, each with a comma behind it.
fn push_columns(text: &mut Vec<u8>, x: u128, y: u128, z: u128) -> Result<(), NoMemory>
    ensures ok { OnOk result (text.new.items ≡ text.old.items ++ three_columns x y z) }
{
    push_number(text, x, b',')?;
    push_number(text, y, b',')?;
    push_number(text, z, b',')
}
