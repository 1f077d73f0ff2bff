//! What a machine of the laboratory takes over of another: chips, messages and logs.

ghost use Rattle.std.specs.Prelude.{◌≡◌, ◌+◌, ◌<◌, ◌≤◌, ◌++◌, ◌∷◌, [], ◌^◌, IfOk, OnOk, IsTrue, length, slice_set, map};
ghost use Rattle.cm_model.specs.Array.{nth_or_nil};
ghost use Rattle.cm_petit.specs.Routers.{events_of};

use cm_array::{Log, MachineOf, Sizes};
use cm_bits::NoMemory;
use cm_element::Run;
use cm_message::{Event, Message};
use cm_router_engine::RouterEngine;
use std::alloc::Global;

pub(crate) fn copied_run<S: Sizes>(alloc: Global, machine: &MachineOf<S>) -> Result<Run, NoMemory>
    ensures value { IfOk result (λ run. run ≡ machine.now.machine.chips) }
{
    // For the prover alone: a call brings in what holds of every machine.
    let _clock = machine.clock();
    let chips = machine.chip_count();
    let mut run = Run::blank(alloc, chips)?;
    machine.copy_chips(0, chips, &mut run);
    Ok(run)
}

pub(crate) fn copied_engine<S: Sizes>(
    alloc: Global,
    machine: &MachineOf<S>,
) -> Result<RouterEngine, NoMemory>
    ensures value { IfOk result (λ engine. engine.buffers ≡ machine.now.machine.buffers) }
    ensures gathered { IfOk result (λ engine. IsTrue engine.gathered) }
{
    // For the prover alone: a call brings in what holds of every machine.
    let _clock = machine.clock();
    let chips = machine.chip_count();
    let mut engine = RouterEngine::new(alloc, usize::from(chips))?;
    for chip in 0..chips {
        arrive_all(&mut engine, usize::from(chip), messages_of(machine, chip));
    }
    engine.gather();
    Ok(engine)
}

/// The messages that stand at a chip: at most fifteen.
fn messages_of<S: Sizes>(machine: &MachineOf<S>, chip: u16) -> &[Message]
    requires chip { chip < 2 ^ S.n }
    ensures value { result.now ≡ nth_or_nil machine.now.machine.buffers chip }
    ensures few { length result.now ≤ 15 }
{
    // For the prover alone: a call brings in what holds of every machine.
    let _dims = machine.dims();
    machine.buffer(chip)
}

/// Messages come to stand last at a chip, in their order.
fn arrive_all(engine: &mut RouterEngine, chip: usize, messages: &[Message])
    requires chip { chip < length engine.old.buffers }
    requires room { length (nth_or_nil engine.old.buffers chip) + length messages.now ≤ 15 }
    ensures value { engine.new.buffers
        ≡ slice_set engine.old.buffers chip (nth_or_nil engine.old.buffers chip ++ messages.now) }
{
    for message in messages {
        engine.arrive(chip, *message);
    }
}

pub(crate) fn copied_logs<S: Sizes>(
    alloc: Global,
    machine: &MachineOf<S>,
) -> Result<Vec<Vec<Event>>, NoMemory>
    ensures value { IfOk result (λ logs. events_of logs.items ≡ machine.now.machine.logs) }
{
    // For the prover alone: a call brings in what holds of every machine.
    let _clock = machine.clock();
    let mut logs = Vec::new(alloc);
    for chip in 0..machine.chip_count() {
        let log = copied_log(alloc, &machine.log(chip))?;
        let Ok(()) = logs.push(log) else {
            return Err(NoMemory);
        };
    }
    Ok(logs)
}

fn copied_log(alloc: Global, log: &Log<'_>) -> Result<Vec<Event>, NoMemory>
    ensures value { IfOk result (λ copy. copy.items ≡ log.now) }
{
    let mut copy = Vec::new(alloc);
    log.push_onto(&mut copy)?;
    Ok(copy)
}
