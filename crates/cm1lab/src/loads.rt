//! Loads of the router: how one after another is measured.

use crate::fault::Fault;
use crate::files::read_file;
use crate::progress::seconds_since;
use lab_args::Loads;
use lab_data::read_numbers;
use lab_fresh::{FreshFault, WireEnd, cut_wires};
use lab_load::{
    ChipCrossings, Figures, Latencies, LoadFault, LoadTable, Spreads, Trial, chip_table,
    crossing_table, dimension_table, latency_table, spread_table, table,
};
use std::alloc::Global;
use std::rt::{Clock, Files};
use std::time::Instant;

/// Most bytes of a text of places.
const PLACES_LIMIT: u64 = 16777216;

/// The table of loads. Where they take longer than a second, a line on standard error tells of each.
pub fn measure_all<R: Eprint + Files + Clock>(
    rt: &R,
    alloc: Global,
    loads: &Loads<'_>,
) -> Result<Vec<u8>, Fault> {
    let trial = &loads.trial;
    let cuts = cuts_of(alloc, trial.n, &loads.cuts, loads.drawn, trial.seed)?;
    if let Some(fault) = trial.fault(&cuts, &loads.rates) {
        return Err(told(fault));
    }
    let targets = read_targets(rt, alloc, trial.n, loads.places)?;
    if trial.seeds > 1 {
        spread_all(rt, alloc, loads, &targets, &cuts)
    } else {
        tell_each(rt, alloc, loads, &targets, &cuts)
    }
}

/// The places of a file to which messages go, on a cube of n dimensions; none where there is no file.
fn read_targets<R: Files>(
    rt: &R,
    alloc: Global,
    n: u16,
    file: Option<&str>,
) -> Result<Vec<u64>, Fault> {
    let Some(path) = file else {
        return Ok(Vec::new(alloc));
    };
    let text = read_file(
        rt,
        alloc,
        path,
        PLACES_LIMIT,
        "has too many bytes for places",
    )?;
    let dims = n.min(12);
    match read_numbers(alloc, text.as_slice(), dims + 4, 16 << dims) {
        Ok(targets) => Ok(targets),
        Err(fault) => Err(Fault::places(alloc, path, fault)),
    }
}

/// The table of one seed that is asked for.
fn tell_each<R: Eprint + Clock>(
    rt: &R,
    alloc: Global,
    loads: &Loads<'_>,
    targets: &[u64],
    cuts: &[WireEnd],
) -> Result<Vec<u8>, Fault> {
    let trial = &loads.trial;
    let told = match trial.table {
        LoadTable::Plain => table(alloc, &measure_each(rt, alloc, loads, targets, cuts)?),
        LoadTable::Crossings => {
            crossing_table(alloc, &measure_each(rt, alloc, loads, targets, cuts)?)
        }
        LoadTable::Dimensions => {
            dimension_table(
                alloc,
                trial.n,
                &measure_each(rt, alloc, loads, targets, cuts)?,
            )
        }
        LoadTable::Chips => chip_table(alloc, &count_each(rt, alloc, loads, targets, cuts)?),
        LoadTable::Latencies => latency_table(alloc, &time_each(rt, alloc, loads, targets, cuts)?),
    };
    match told {
        Ok(text) => Ok(text),
        Err(_) => Err(Fault::Memory),
    }
}

/// The numbers of each load.
fn measure_each<R: Eprint + Clock>(
    rt: &R,
    alloc: Global,
    loads: &Loads<'_>,
    targets: &[u64],
    cuts: &[WireEnd],
) -> Result<Vec<Figures>, Fault> {
    let began = Instant::now(rt).ok();
    let mut measured = Vec::new(alloc);
    for rate in &loads.rates {
        let figures = match loads.trial.figures(alloc, targets, cuts, *rate) {
            Ok(figures) => figures,
            Err(fault) => return Err(told(fault)),
        };
        if measured.push(figures).is_err() {
            return Err(Fault::Memory);
        }
        tell_progress(rt, began, *rate, measured.len(), loads.rates.len());
    }
    Ok(measured)
}

/// What the messages of each load did at each chip.
fn count_each<R: Eprint + Clock>(
    rt: &R,
    alloc: Global,
    loads: &Loads<'_>,
    targets: &[u64],
    cuts: &[WireEnd],
) -> Result<Vec<ChipCrossings>, Fault> {
    let began = Instant::now(rt).ok();
    let mut counted = Vec::new(alloc);
    for rate in &loads.rates {
        let chips = match loads.trial.chips(alloc, targets, cuts, *rate) {
            Ok(chips) => chips,
            Err(fault) => return Err(told(fault)),
        };
        if counted.push(chips).is_err() {
            return Err(Fault::Memory);
        }
        tell_progress(rt, began, *rate, counted.len(), loads.rates.len());
    }
    Ok(counted)
}

/// How long the messages of each load took.
fn time_each<R: Eprint + Clock>(
    rt: &R,
    alloc: Global,
    loads: &Loads<'_>,
    targets: &[u64],
    cuts: &[WireEnd],
) -> Result<Vec<Latencies>, Fault> {
    let began = Instant::now(rt).ok();
    let mut measured = Vec::new(alloc);
    for rate in &loads.rates {
        let latencies = match loads.trial.latencies(alloc, targets, cuts, *rate) {
            Ok(latencies) => latencies,
            Err(fault) => return Err(told(fault)),
        };
        if measured.push(latencies).is_err() {
            return Err(Fault::Memory);
        }
        tell_progress(rt, began, *rate, measured.len(), loads.rates.len());
    }
    Ok(measured)
}

/// The table of the means of many seeds.
fn spread_all<R: Eprint + Clock>(
    rt: &R,
    alloc: Global,
    loads: &Loads<'_>,
    targets: &[u64],
    cuts: &[WireEnd],
) -> Result<Vec<u8>, Fault> {
    let began = Instant::now(rt).ok();
    let mut lines = Vec::new(alloc);
    for rate in &loads.rates {
        let spreads = spreads_of(alloc, &loads.trial, targets, cuts, *rate)?;
        if lines.push(spreads).is_err() {
            return Err(Fault::Memory);
        }
        tell_progress(rt, began, *rate, lines.len(), loads.rates.len());
    }
    match spread_table(alloc, &lines) {
        Ok(text) => Ok(text),
        Err(_) => Err(Fault::Memory),
    }
}

/// The means of many seeds at a rate.
fn spreads_of(
    alloc: Global,
    trial: &Trial,
    targets: &[u64],
    cuts: &[WireEnd],
    rate: u16,
) -> Result<Spreads, Fault> {
    if trial.seeds < 2 {
        return Err(told(LoadFault::Seeds(trial.seeds)));
    }
    match trial.spreads(alloc, targets, cuts, rate) {
        Ok(spreads) => Ok(spreads),
        Err(fault) => Err(told(fault)),
    }
}

/// The wires that are named and those that are drawn.
pub fn cuts_of(
    alloc: Global,
    n: u16,
    named: &[WireEnd],
    count: u16,
    seed: u64,
) -> Result<Vec<WireEnd>, Fault> {
    match cut_wires(alloc, n, named, count, seed) {
        Ok(cuts) => Ok(cuts),
        Err(FreshFault::Memory) => Err(Fault::Memory),
        Err(fault) => Err(Fault::Fresh(fault)),
    }
}

fn told(fault: LoadFault) -> Fault {
    match fault {
        LoadFault::Memory => Fault::Memory,
        LoadFault::Rate(rate) => Fault::Rate {
            whole: rate / 100,
            hundredths: rate % 100,
        },
        fault => Fault::Load(fault),
    }
}

/// Tells that a load was measured, where a second has passed; it does not matter whether that can be told.
fn tell_progress<R: Eprint + Clock>(
    rt: &R,
    began: Option<Instant>,
    rate: u16,
    done: usize,
    all: usize,
) {
    if seconds_since(rt, began) >= 1 {
        let _ = eprintln!(rt;
            "cm1lab: rate {}.{:02}, {done} of {all}",
            rate / 100,
            rate % 100
        );
    }
}
