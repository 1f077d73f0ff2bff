//! Processors that offer messages, and ask the router to take them.

ghost use Rattle.std.specs.Prelude.{◌≡◌, ℕ, ◌/◌, ◌%◌, ◌<◌, ◌≤◌, ◌^◌, Some, IfSome, max, length, slice_set};
ghost use Rattle.cm_model.specs.Array.{chip_at};
ghost use Rattle.lab_load.specs.Offers.{places};
ghost use Rattle.lab_load.specs.Asking.{chip_asking, chips_asking, chips_asked, offer_asked, asking_after_place};
ghost use Rattle.lab_load.specs.Asking.{asking_after_places};

use crate::offers::Load;
use crate::sources::Source;
use cm_bits::{Field, FlagNo, Proc};
use cm_element::Run;
use cm_model::{SENT_PAYLOAD, SENT_PROC, SENT_REL};

/// Every processor offers what the load says in petit cycle t, and asks for what waits there, if it does not ask
/// already.
pub(crate) fn ask_all(load: &Load, t: u32, run: &mut Run, sources: &mut [Source], deepest: &mut u32)
    requires dimension { load.now.dims ≤ 12 }
    requires early { t < 2 ^ 31 }
    requires chips { length run.old ≡ 2 ^ load.now.dims }
    requires sources { length sources.old ≡ places load.now.dims }
    ensures value { record { chips = run.new; sources = sources.new; deepest = deepest.new }
        ≡ asking_after_places load.now t (record { chips = run.old; sources = sources.old; deepest = deepest.old })
        (places load.now.dims) }
    ensures chips { length run.new ≡ length run.old }
{
    for place in 0..load.places() {
        let waiting = ask_at(load, t, run, sources, place);
        *deepest = (*deepest).max(waiting);
    }
}

/// The same of the processor of one place; how many of its offers wait then.
fn ask_at(load: &Load, t: u32, run: &mut Run, sources: &mut [Source], place: u32) -> u32
    requires dimension { load.now.dims ≤ 12 }
    requires early { t < 2 ^ 31 }
    requires chips { length run.old ≡ 2 ^ load.now.dims }
    requires sources { length sources.old ≡ places load.now.dims }
    requires place { place < places load.now.dims }
    requires few { place < 65536 }
    ensures value { (deepest : ℕ) → record { chips = run.new; sources = sources.new; deepest = max deepest result }
        ≡ asking_after_place load.now t (record { chips = run.old; sources = sources.old; deepest = deepest }) place }
    ensures chips { length run.new ≡ length run.old }
{
    let offered = load.offers(t, place);
    let source = sources[place as usize].with_offer(offered);
    let offer = offer_asked(load, t, run, source, place);
    ask_for(load, run, place, offer);
    let next = source.asked(offer);
    sources[place as usize] = next;
    next.waiting
}

/// The petit cycle of the offer that a processor asks for, if it asks for one more.
fn offer_asked(load: &Load, t: u32, run: &Run, source: Source, place: u32) -> Option<u32>
    requires early { t < 2 ^ 31 }
    requires chips { length run.now ≡ 2 ^ load.now.dims }
    requires place { place < places load.now.dims }
    requires few { place < 65536 }
    ensures value { result ≡ offer_asked load.now t place run.now source }
    ensures early { IfSome result (λ s. s < 2 ^ 31) }
{
    if run.flag(chip_of(place), proc_of(place), FlagNo::SEND) {
        return None;
    }
    source.next_offer(load, t, place)
}

/// A processor asks for its offer of a petit cycle, if it asks for one.
fn ask_for(load: &Load, run: &mut Run, place: u32, offer: Option<u32>)
    requires dimension { load.now.dims ≤ 12 }
    requires chips { length run.old ≡ 2 ^ load.now.dims }
    requires place { place < places load.now.dims }
    requires few { place < 65536 }
    ensures value { run.new ≡ chips_asked load.now place offer run.old }
    ensures chips { length run.new ≡ length run.old }
{
    match offer {
        None => {}
        Some(cycle) => ask(run, place, load.target(cycle, place), cycle),
    }
}

/// A processor asks for a message to a place, with this payload.
fn ask(run: &mut Run, place: u32, to: u32, payload: u32)
    requires chip { place / 16 < length run.old }
    requires few { place < 65536 }
    requires to { to < 65536 }
    ensures value { run.new ≡ chips_asking place to payload run.old }
    ensures chips { length run.new ≡ length run.old }
{
    let chip = chip_of(place);
    let far = chip_of(to);
    let proc = proc_of(place);
    write_record(
        run,
        chip,
        proc,
        (chip ^ far) as u64,
        (to % 16) as u64,
        payload as u64,
    );
}

/// Writes the record of a message that a processor sends, and sets its SEND.
fn write_record(run: &mut Run, chip: u16, proc: Proc, rel: u64, to: u64, payload: u64)
    requires chip { chip < length run.old }
    ensures value { run.new ≡ slice_set run.old chip (chip_asking proc rel to payload (chip_at run.old chip)) }
{
    run.poke_field(chip, proc, rel_field(), rel);
    run.poke_field(chip, proc, proc_field(), to);
    run.poke_field(chip, proc, payload_field(), payload);
    run.poke_flag(chip, proc, FlagNo::SEND, true).unwrap();
}

fn rel_field() -> Field
    ensures at { result.at ≡ SENT_REL }
    ensures len { result.len ≡ 16 }
{
    Field::new(SENT_REL, 16).unwrap()
}

fn proc_field() -> Field
    ensures at { result.at ≡ SENT_PROC }
    ensures len { result.len ≡ 4 }
{
    Field::new(SENT_PROC, 4).unwrap()
}

fn payload_field() -> Field
    ensures at { result.at ≡ SENT_PAYLOAD }
    ensures len { result.len ≡ 32 }
{
    Field::new(SENT_PAYLOAD, 32).unwrap()
}

/// The chip of a place.
fn chip_of(place: u32) -> u16
    requires few { place < 65536 }
    ensures value { result ≡ place / 16 }
{
    (place / 16) as u16
}

/// Its number on that chip.
fn proc_of(place: u32) -> Proc
    ensures value { result ≡ place % 16 }
{
    Proc::new((place % 16) as u8).unwrap()
}
