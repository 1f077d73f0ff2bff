//! What the logs tell of a petit cycle.

ghost use Rattle.std.specs.Prelude.{◌≡◌, ◌++◌, ◌∷◌, [], ◌<◌, ◌≤◌, ◌^◌, OnOk, length, sum_by};
ghost use Rattle.std.specs.List.{count_by, flat_map};
ghost use Rattle.lab_load.specs.Telling.{is_injection_event, latency_logged};

use cm_bits::NoMemory;
use cm_message::Event;

/// How many messages were taken in.
pub(crate) fn taken_in(logs: &[Vec<Event>]) -> u128
    requires few { length logs.now ≤ 4096 }
    ensures value { result ≡ sum_by (λ log. count_by is_injection_event log.items) logs.now }
    ensures within { result ≤ 2 ^ 76 }
{
    let mut taken = 0;
    for log in logs {
        taken += injections(log) as u128;
    }
    taken
}

fn injections(events: &[Event]) -> usize
    ensures value { result ≡ count_by is_injection_event events.now }
{
    events.iter().filter(|event| is_injection(event)).count()
}

fn is_injection(event: &Event) -> bool
    ensures value { result ≡ is_injection_event event.now }
{
    matches!(event, Event::Injected(_))
}

/// How many petit cycles each message took that was delivered in petit cycle t.
pub(crate) fn push_latencies(
    latencies: &mut Vec<u32>,
    t: u32,
    logs: &[Vec<Event>],
) -> Result<(), NoMemory>
    requires early { t < 2 ^ 31 }
    ensures ok { OnOk result (latencies.new.items
        ≡ latencies.old.items ++ flat_map (λ log. flat_map (latency_logged t) log.items) logs.now) }
{
    for log in logs {
        push_told(latencies, t, log)?;
    }
    Ok(())
}

fn push_told(latencies: &mut Vec<u32>, t: u32, events: &[Event]) -> Result<(), NoMemory>
    requires early { t < 2 ^ 31 }
    ensures ok { OnOk result (latencies.new.items
        ≡ latencies.old.items ++ flat_map (latency_logged t) events.now) }
{
    for event in events {
        push_event(latencies, t, event)?;
    }
    Ok(())
}

fn push_event(latencies: &mut Vec<u32>, t: u32, event: &Event) -> Result<(), NoMemory>
    requires early { t < 2 ^ 31 }
    ensures ok { OnOk result (latencies.new.items ≡ latencies.old.items ++ latency_logged t event.now) }
{
    match event {
        Event::Injected(_) => Ok(()),
        Event::Delivered { message, chip: _ } => {
            push_one(latencies, (t + 1).saturating_sub(message.payload))
        }
    }
}

fn push_one(latencies: &mut Vec<u32>, latency: u32) -> Result<(), NoMemory>
    ensures ok { OnOk result (latencies.new.items ≡ latencies.old.items ++ latency ∷ []) }
{
    match latencies.push(latency) {
        Ok(()) => Ok(()),
        Err(_) => Err(NoMemory),
    }
}
