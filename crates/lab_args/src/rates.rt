//! Rates of messages, as `load` takes them.

ghost use Rattle.std.specs.Prelude.{◌≡◌, ◌+◌, ◌*◌, ◌<◌, ◌^◌, IfOk, IfErr, IfSome, MatchOption, Ok, length};
ghost use Rattle.std.specs.List.{position_or_len};
ghost use Rattle.cm_bits.specs.Text.{is_comma};
ghost use Rattle.lab_args.specs.Refusals.{Reports};
ghost use Rattle.lab_args.specs.Operands.{digits_below};
ghost use Rattle.lab_args.specs.Rates.{IsSplitAtComma, behind_point, fitting, hundredths_in, rate, rates};
ghost use Rattle.lab_args.specs.Rates.{with_rate};

use crate::fault::CommandFault;
use crate::operands::Operand;
use std::alloc::Global;

/// Rates with a comma between two.
pub(crate) fn read_rates(alloc: Global, word: &str) -> Result<Vec<u16>, CommandFault>
    ensures value { IfOk result (λ found. rates word.now ≡ Ok found.items) }
    ensures refused { IfErr result (Reports (rates word.now)) }
{
    let mut rates = Vec::new(alloc);
    let mut rest = word;
    while let Some((part, after)) = cut_at_comma(rest) {
        rates = with_rate(alloc, rates, part)?;
        rest = after;
    }
    with_rate(alloc, rates, rest)
}

/// What stands before the first comma and behind it, if there is one.
fn cut_at_comma(word: &str) -> Option<(&str, &str)>
    ensures { MatchOption result (position_or_len is_comma word.now ≡ length word.now)
        (λ parts. IsSplitAtComma word.now parts.0.now parts.1.now) }
{
    word.split_once(',')
}

/// The rates with one more.
fn with_rate(alloc: Global, known: Vec<u16>, word: &str) -> Result<Vec<u16>, CommandFault>
    ensures value { IfOk result (λ found. with_rate known.items word.now ≡ Ok found.items) }
    ensures refused { IfErr result (Reports (with_rate known.items word.now)) }
{
    let mut rates = known;
    let rate = read_rate(alloc, word)?;
    match rates.push(rate) {
        Ok(()) => Ok(rates),
        Err(_) => Err(CommandFault::Memory),
    }
}

fn read_rate(alloc: Global, word: &str) -> Result<u16, CommandFault>
    ensures value { IfOk result (λ found. rate word.now ≡ Ok found) }
    ensures refused { IfErr result (Reports (rate word.now)) }
{
    match hundredths(word) {
        Some(rate) => Ok(rate),
        None => Err(CommandFault::operand(alloc, Operand::Rate, word)),
    }
}

/// The hundredths of a number with at most two digits behind its point.
fn hundredths(word: &str) -> Option<u16>
    ensures { result ≡ hundredths_in word.now }
{
    match word.split_once('.') {
        Some((whole, part)) => in_hundredths(digits(whole)?, behind_point(part)?),
        None => in_hundredths(digits(word)?, 0),
    }
}

fn in_hundredths(whole: u16, part: u32) -> Option<u16>
    requires { part < 1000000 }
    ensures { result ≡ fitting (whole * 100 + part) }
{
    u16::try_from(u32::from(whole) * 100 + part).ok()
}

/// So many hundredths are these one or two digits behind a point.
fn behind_point(part: &str) -> Option<u32>
    ensures value { result ≡ behind_point part.now }
    ensures within { IfSome result (λ number. number < 1000000) }
{
    let number = u32::from(digits(part)?);
    match part.len() {
        1 => Some(number * 10),
        2 => Some(number),
        _ => None,
    }
}

/// The number of decimal digits and nothing else.
fn digits(word: &str) -> Option<u16>
    ensures { result ≡ digits_below (2 ^ 16) word.now }
{
    if word.starts_with('+') {
        return None;
    }
    word.parse::<u16>().ok()
}
