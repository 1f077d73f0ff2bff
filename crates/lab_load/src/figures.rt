//! The numbers of a load.

ghost use Rattle.std.specs.Prelude.{◌≡◌, ◌-◌, ◌≤◌, ◌^◌, [], IfOk, replicate, sum_by};
ghost use Rattle.cm_bits.specs.Bit.{bit_number};
ghost use Rattle.cm_model.specs.Each.{tabulate};
ghost use Rattle.cm_model.specs.Keeping.{AreSizes};
ghost use Rattle.cm_router.specs.Routes.{routing_of};
ghost use Rattle.cm_petit.specs.Routers.{events_of};
ghost use Rattle.lab_load.specs.Offers.{places};
ghost use Rattle.lab_load.specs.Asking.{no_source};
ghost use Rattle.lab_load.specs.Loaded.{Loaded, offered_by, offered_in, loaded_for};
ghost use Rattle.lab_load.specs.Kept.{IsToldOf};
ghost use Rattle.lab_counts.specs.declared.counts.Counts.{Counts as Counted};
ghost use Rattle.lab_load.specs.Counted.{counts_for, chips_from, chips_for};
ghost use Rattle.lab_load.specs.Latencies.{histogram};
ghost use Rattle.lab_load.specs.Figures.{throughput_of, mean_of, is_reached, most_of, greatest_latency, AreFigures};

use crate::cycles::{Told, go_through};
use crate::latencies::histogram;
use crate::offers::Load;
use crate::sources::Source;
use cm_bits::NoMemory;
use cm_element::Run;
use cm_message::Event;
use cm_router::Routing;
use cm_router_engine::{RouterEngine, Shape};
use lab_counts::{Counts, Crossings, blank_chips};
use std::alloc::Global;

/// What was offered to a machine, and what became of it.
#[derive(Clone, Copy, Debug, PartialEq, Eq)]
pub struct Figures {
    /// Hundredths of a message that the processors of a chip were to offer in a petit cycle.
    pub rate: u16,
    /// Messages that were offered.
    pub offered: u64,
    /// Messages that routers took in.
    pub taken: u128,
    /// Messages that were delivered.
    pub delivered: usize,
    /// Thousandths of a message that a chip delivered in a petit cycle, in the mean.
    pub throughput: u128,
    /// Hundredths of petit cycles that these took in the mean, from that of the offer to that of the delivery, both
    /// counted.
    pub mean: u128,
    /// So many petit cycles took 95 in a hundred of them at most.
    pub most: Option<u32>,
    /// The most that one took.
    pub greatest: u32,
    /// The most offers that waited at one processor, behind the one that it asked for.
    pub deepest: u32,
    pub counts: Counts,
}

/// Which petit cycles of a load are told of.
#[derive(Clone, Copy, Debug, PartialEq, Eq)]
pub struct Period {
    /// So many first ones are not.
    pub skip: u32,
    /// So many there are in all.
    pub cycles: u32,
    /// Whether their crossings are counted, and those behind which nothing is left.
    pub counting: bool,
}

/// How many messages are offered in the petit cycles from this one on, before that one.
fn offered_from(load: &Load, skip: u32, cycles: u32) -> u64
    requires dimension { load.now.dims ≤ 12 }
    requires skip { skip ≤ cycles }
    ensures value { result ≡ offered_in load.now cycles - offered_in load.now skip }
{
    let mut offered = 0u64;
    for t in skip..cycles {
        offered += offered_by(load, t) as u64;
    }
    offered
}

fn offered_by(load: &Load, t: u32) -> u32
    requires dimension { load.now.dims ≤ 12 }
    ensures value { result ≡ offered_by load.now t (places load.now.dims) }
    ensures within { result ≤ 65536 }
{
    let mut offered = 0;
    for place in 0..load.places() {
        offered += bit_number(load.offers(t, place));
    }
    offered
}

fn bit_number(bit: bool) -> u32
    ensures value { result ≡ bit_number bit }
    ensures within { result ≤ 1 }
{
    if bit { 1 } else { 0 }
}

/// How many messages each of so many turns delivered, in thousandths.
fn throughput_of(delivered: usize, turns: u64) -> u128
    ensures value { result ≡ throughput_of delivered turns }
{
    if turns == 0 {
        return 0;
    }
    1000 * delivered as u128 / u128::from(turns)
}

/// The mean of some numbers, in hundredths.
pub(crate) fn mean_of(latencies: &[u32]) -> u128
    ensures value { result ≡ mean_of latencies.now }
{
    let count = latencies.len() as u128;
    let total = total_of(latencies);
    if count == 0 {
        return 0;
    }
    100 * total / count
}

fn total_of(latencies: &[u32]) -> u128
    ensures value { result ≡ sum_by (λ x. x) latencies.now }
    ensures within { result ≤ 2 ^ 100 }
{
    let mut total = 0u128;
    for latency in latencies {
        total += *latency as u128;
    }
    total
}

/// The least number up to this one which 95 in a hundred do not pass.
pub(crate) fn most_of(latencies: &[u32], cycles: u32) -> Option<u32>
    requires few { cycles ≤ 1000000 }
    ensures value { result ≡ most_of cycles latencies.now }
{
    let hundredths = 95 * latencies.len() as u128;
    let mut low = 0;
    let mut high = cycles + 1;
    while low < high {
        let middle = low + (high - low) / 2;
        if is_reached(latencies, hundredths, middle) {
            high = middle;
        } else {
            low = middle + 1;
        }
    }
    if low <= cycles { Some(low) } else { None }
}

fn is_reached(latencies: &[u32], hundredths: u128, most: u32) -> bool
    ensures value { result ≡ is_reached latencies.now hundredths most }
{
    let count = latencies.iter().filter(|latency| **latency <= most).count();
    hundredths <= 100 * count as u128
}

/// The greatest, or 0.
pub(crate) fn greatest_of(latencies: &[u32]) -> u32
    ensures value { result ≡ greatest_latency latencies.now }
{
    let mut greatest = 0u32;
    for latency in latencies {
        greatest = greatest.max(*latency);
    }
    greatest
}

/// The numbers of a load on a blank machine of its cube, whose routers have this room and route so, after so many petit
/// cycles, without the first so many.
pub fn measure(
    alloc: Global,
    room: u8,
    routing: &Routing,
    load: &Load,
    period: Period,
) -> Result<Figures, NoMemory>
    requires sizes { AreSizes load.now.dims room }
    requires cube { routing.now.cuts.dims ≡ load.now.dims }
    requires few { period.cycles ≤ 1000000 }
    requires skip { period.skip ≤ period.cycles }
    ensures value { IfOk result (AreFigures load.now period.skip period.cycles
        (loaded_for room load.now (routing_of routing.now) period.skip period.cycles)
        (counts_for period.counting room load.now (routing_of routing.now) period.skip period.cycles)) }
{
    let told = tell(alloc, room, routing, load, period, Vec::new(alloc))?;
    Ok(figures_of(load, period.skip, period.cycles, &told))
}

/// How many messages took how long under a load on such a machine, in the same petit cycles.
pub(crate) fn measure_latencies(
    alloc: Global,
    room: u8,
    routing: &Routing,
    load: &Load,
    period: Period,
) -> Result<Vec<u64>, NoMemory>
    requires sizes { AreSizes load.now.dims room }
    requires cube { routing.now.cuts.dims ≡ load.now.dims }
    requires few { period.cycles ≤ 1000000 }
    requires skip { period.skip ≤ period.cycles }
    ensures value { IfOk result (λ counts. counts.items
        ≡ histogram (loaded_for room load.now (routing_of routing.now) period.skip period.cycles).latencies) }
{
    let told = tell(alloc, room, routing, load, period, Vec::new(alloc))?;
    histogram(alloc, &told.latencies)
}

/// What messages did at each chip under a load on such a machine, in the same petit cycles.
pub(crate) fn measure_chips(
    alloc: Global,
    room: u8,
    routing: &Routing,
    load: &Load,
    period: Period,
) -> Result<Vec<Crossings>, NoMemory>
    requires sizes { AreSizes load.now.dims room }
    requires cube { routing.now.cuts.dims ≡ load.now.dims }
    requires few { period.cycles ≤ 1000000 }
    requires skip { period.skip ≤ period.cycles }
    ensures value { IfOk result (λ chips. chips.items
        ≡ chips_for room load.now (routing_of routing.now) period.skip period.cycles) }
{
    let blank = blank_chips(alloc, chip_count(load.dims))?;
    let counted = Period {
        counting: true,
        ..period
    };
    let told = tell(alloc, room, routing, load, counted, blank)?;
    Ok(told.chips)
}

/// The numbers of a load after so many petit cycles, of which these were told without the first so many.
fn figures_of(load: &Load, skip: u32, cycles: u32, told: &Told) -> Figures
    requires dimension { load.now.dims ≤ 12 }
    requires few { cycles ≤ 1000000 }
    requires skip { skip ≤ cycles }
    ensures value { (loaded : Loaded) (counts : Counted) → IsToldOf loaded counts told.now
        → AreFigures load.now skip cycles loaded counts result }
{
    let latencies = told.latencies.as_slice();
    let delivered = latencies.len();
    let turns = u64::from(chip_count(load.dims)) * u64::from(cycles - skip);
    Figures {
        rate: load.rate,
        offered: offered_from(load, skip, cycles),
        taken: told.taken,
        delivered,
        throughput: throughput_of(delivered, turns),
        mean: mean_of(latencies),
        most: most_of(latencies, cycles),
        greatest: greatest_of(latencies),
        deepest: told.deepest,
        counts: told.counts,
    }
}

/// What it tells, with crossings by chip beside these.
fn tell(
    alloc: Global,
    room: u8,
    routing: &Routing,
    load: &Load,
    period: Period,
    by_chip: Vec<Crossings>,
) -> Result<Told, NoMemory>
    requires sizes { AreSizes load.now.dims room }
    requires cube { routing.now.cuts.dims ≡ load.now.dims }
    requires few { period.cycles ≤ 1000000 }
    requires skip { period.skip ≤ period.cycles }
    ensures value { IfOk result (IsToldOf
        (loaded_for room load.now (routing_of routing.now) period.skip period.cycles)
        (counts_for period.counting room load.now (routing_of routing.now) period.skip period.cycles)) }
    ensures chips { IfOk result (λ told. told.chips.items
        ≡ chips_from by_chip.items period.counting room load.now (routing_of routing.now) period.skip period.cycles) }
{
    let chips = chip_count(load.dims);
    let mut logs = blank_logs(alloc, usize::from(chips))?;
    let mut sources = blank_sources(alloc, load.places())?;
    begin(
        alloc,
        chips,
        room,
        routing,
        load,
        period,
        by_chip,
        &mut logs,
        &mut sources,
    )
}

/// The same, with a log for each chip, and a source for each place.
fn begin(
    alloc: Global,
    chips: u16,
    room: u8,
    routing: &Routing,
    load: &Load,
    period: Period,
    by_chip: Vec<Crossings>,
    logs: &mut [Vec<Event>],
    sources: &mut [Source],
) -> Result<Told, NoMemory>
    requires sizes { AreSizes load.now.dims room }
    requires cube { routing.now.cuts.dims ≡ load.now.dims }
    requires few { period.cycles ≤ 1000000 }
    requires skip { period.skip ≤ period.cycles }
    requires chips { chips ≡ 2 ^ load.now.dims }
    requires all { chips ≤ 4096 }
    requires logs { events_of logs.old ≡ tabulate 0 chips (λ c. []) }
    requires sources { sources.old ≡ replicate (places load.now.dims) no_source }
    ensures value { IfOk result (IsToldOf
        (loaded_for room load.now (routing_of routing.now) period.skip period.cycles)
        (counts_for period.counting room load.now (routing_of routing.now) period.skip period.cycles)) }
    ensures chips { IfOk result (λ told. told.chips.items
        ≡ chips_from by_chip.items period.counting room load.now (routing_of routing.now) period.skip period.cycles) }
{
    let mut rows = Run::blank(alloc, chips)?;
    let mut crossing = RouterEngine::new(alloc, usize::from(chips))?;
    let latencies = Vec::new(alloc);
    let mut told = Told {
        deepest: 0,
        taken: 0,
        latencies,
        counts: Counts::none(false),
        chips: Vec::new(alloc),
    };
    let sizes = Shape {
        dims: load.dims,
        room,
    };
    go_through(
        sizes,
        routing,
        load,
        0,
        period.skip,
        &mut rows,
        &mut crossing,
        logs,
        sources,
        &mut told,
    )?;
    told.forget(period.counting, by_chip);
    go_through(
        sizes,
        routing,
        load,
        period.skip,
        period.cycles,
        &mut rows,
        &mut crossing,
        logs,
        sources,
        &mut told,
    )?;
    Ok(told)
}

/// The chips of a cube of so many dimensions.
fn chip_count(n: u8) -> u16
    requires dimension { n ≤ 12 }
    ensures value { result ≡ 2 ^ n }
    ensures few { result ≤ 4096 }
{
    1 << n
}

fn blank_logs(alloc: Global, count: usize) -> Result<Vec<Vec<Event>>, NoMemory>
    ensures value { IfOk result (λ logs. events_of logs.items ≡ tabulate 0 count (λ c. [])) }
{
    Ok((0..count).map(|_| Vec::new(alloc)).collect(alloc)?)
}

fn blank_sources(alloc: Global, count: u32) -> Result<Vec<Source>, NoMemory>
    ensures value { IfOk result (λ sources. sources.items ≡ replicate count no_source) }
{
    Ok(vec![in alloc; Source::NONE; count as usize]?)
}
