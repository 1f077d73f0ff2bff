//! The words of `load`.

ghost use Rattle.std.specs.Prelude.{◌≡◌, IfOk, IfErr, Ok};
ghost use Rattle.lab_args.specs.Words.{texts};
ghost use Rattle.lab_args.specs.Refusals.{Reports};
ghost use Rattle.lab_args.specs.Requests.{loads_asked};
ghost use Rattle.lab_args.specs.Loads.{load, says_both, with_choice, load_with_cut, with_option, with_options};

use crate::blanks::wire_named;
use crate::fault::CommandFault;
use crate::operands::{Operand, cycle_count, long_number, number, pattern, table};
use crate::rates::read_rates;
use crate::reading::stands_in;
use lab_fresh::WireEnd;
use lab_load::{LoadTable, Pattern, Trial};
use std::alloc::Global;

/// Loads of one pattern on one machine, at these rates.
#[derive(Drop)]
pub struct Loads<'a> {
    pub trial: Trial,
    pub cuts: Vec<WireEnd>,
    /// So many wires more are drawn, by the trial's seed.
    pub drawn: u16,
    /// Hundredths of a message that a chip offers in a petit cycle.
    pub rates: Vec<u16>,
    /// The file with the places to which messages go, if there is one.
    pub places: Option<&'a str>,
}

/// Reads the words behind `load`.
pub(crate) fn read_loads<'a>(
    alloc: Global,
    n: &str,
    room: &str,
    rates: &str,
    cycles: &str,
    options: &[&'a str],
) -> Result<Loads<'a>, CommandFault>
    ensures value { IfOk result
        (λ loads. load n.now room.now rates.now cycles.now (texts options.now) ≡ Ok (loads_asked loads)) }
    ensures refused { IfErr result (Reports (load n.now room.now rates.now cycles.now (texts options.now))) }
{
    if says_both(options) {
        return Err(CommandFault::Words);
    }
    let n = number(alloc, Operand::N, n)?;
    let room = number(alloc, Operand::Cap, room)?;
    let rates = read_rates(alloc, rates)?;
    let cycles = cycle_count(alloc, Operand::Cycles, cycles)?;
    let trial = Trial {
        n,
        room,
        rule: 0,
        pattern: Pattern::Uniform,
        background: 0,
        until: cycles,
        seed: 1,
        cycles,
        skip: 0,
        seeds: 1,
        table: LoadTable::Plain,
    };
    let plain = Loads {
        trial,
        cuts: Vec::new(alloc),
        drawn: 0,
        rates,
        places: None,
    };
    with_options(alloc, plain, options)
}

/// Whether a pattern is said, and places too.
fn says_both(options: &[&str]) -> bool
    ensures { result ≡ says_both (texts options.now) }
{
    stands_in("--pattern", options) && stands_in("--places", options)
}

/// Takes what the options say, each with the word behind it, or the two.
fn with_options<'a>(
    alloc: Global,
    loads: Loads<'a>,
    options: &[&'a str],
) -> Result<Loads<'a>, CommandFault>
    ensures value { IfOk result
        (λ found. with_options (loads_asked loads.entry) (texts options.now) ≡ Ok (loads_asked found)) }
    ensures refused { IfErr result (Reports (with_options (loads_asked loads.entry) (texts options.now))) }
{
    match options {
        [] => Ok(loads),
        [_] => Err(CommandFault::Words),
        [option, word, after @ ..] => {
            if *option == "--cut" {
                let Some((dim, after)) = after.split_first() else {
                    return Err(CommandFault::Words);
                };
                let cut = with_cut(alloc, loads, word, dim)?;
                with_options(alloc, cut, after)
            } else {
                let changed = with_choice(alloc, loads, option, word)?;
                with_options(alloc, changed, after)
            }
        }
    }
}

/// Takes what an option says that has one word behind it.
fn with_choice<'a>(
    alloc: Global,
    loads: Loads<'a>,
    option: &str,
    word: &'a str,
) -> Result<Loads<'a>, CommandFault>
    ensures value { IfOk result
        (λ changed. with_choice (loads_asked loads.entry) option.now word.now ≡ Ok (loads_asked changed)) }
    ensures refused { IfErr result (Reports (with_choice (loads_asked loads.entry) option.now word.now)) }
{
    if option == "--cut-random" {
        let drawn = number(alloc, Operand::Count, word)?;
        return Ok(Loads { drawn, ..loads });
    }
    if option == "--places" {
        let trial = Trial {
            pattern: Pattern::Own,
            ..loads.trial
        };
        return Ok(Loads {
            trial,
            places: Some(word),
            ..loads
        });
    }
    let trial = with_option(alloc, loads.trial, option, word)?;
    Ok(Loads { trial, ..loads })
}

/// The loads of a machine with this wire cut too.
fn with_cut<'a>(
    alloc: Global,
    loads: Loads<'a>,
    chip: &str,
    dim: &str,
) -> Result<Loads<'a>, CommandFault>
    ensures value { IfOk result
        (λ cut. load_with_cut (loads_asked loads.entry) chip.now dim.now ≡ Ok (loads_asked cut)) }
    ensures refused { IfErr result (Reports (load_with_cut (loads_asked loads.entry) chip.now dim.now)) }
{
    let mut cut = loads;
    let wire = wire_named(alloc, chip, dim)?;
    if cut.cuts.push(wire).is_err() {
        return Err(CommandFault::Memory);
    }
    Ok(cut)
}

/// Takes an option that changes only the trial. Options on wires and places are taken in `with_choice` and
/// `with_options`.
fn with_option(alloc: Global, trial: Trial, option: &str, word: &str) -> Result<Trial, CommandFault>
    ensures value { IfOk result (λ changed. with_option trial option.now word.now ≡ Ok changed) }
    ensures refused { IfErr result (Reports (with_option trial option.now word.now)) }
{
    match option {
        "--rule" => {
            let rule = number(alloc, Operand::Rule, word)?;
            Ok(Trial { rule, ..trial })
        }
        "--pattern" => {
            let pattern = pattern(alloc, word)?;
            Ok(Trial { pattern, ..trial })
        }
        "--background" => {
            let background = number(alloc, Operand::Background, word)?;
            Ok(Trial {
                background,
                ..trial
            })
        }
        "--until" => {
            let until = cycle_count(alloc, Operand::Until, word)?;
            Ok(Trial { until, ..trial })
        }
        "--skip" => {
            let skip = cycle_count(alloc, Operand::Skip, word)?;
            Ok(Trial { skip, ..trial })
        }
        "--seeds" => {
            let seeds = number(alloc, Operand::Seeds, word)?;
            Ok(Trial { seeds, ..trial })
        }
        "--table" => {
            let table = table(alloc, word)?;
            Ok(Trial { table, ..trial })
        }
        "--seed" => {
            let seed = long_number(alloc, Operand::Seed, word)?;
            Ok(Trial { seed, ..trial })
        }
        _ => Err(CommandFault::Words),
    }
}
