//! The legs of a message's way, as the lines of a route tell them.

ghost use Rattle.std.specs.Prelude.{◌≡◌, ◌++◌, ◌∷◌, [], ◌<◌, ◌≤◌, ◌^◌, None, IfOk};
ghost use Rattle.std.specs.Prelude.{IfSome, OnOk, length};
ghost use Rattle.std.specs.List.{after_first, before_first};
ghost use Rattle.cm_bits.specs.Text.{lines_of, number_of, words_of};
ghost use Rattle.lab_plot.specs.Cells.{cell, is_colon};
ghost use Rattle.lab_plot.specs.Rows.{GivesPlot};
ghost use Rattle.lab_route_plot.specs.Cycles.{are_all_cycles, is_among_cycles};
ghost use Rattle.lab_route_plot.specs.Legs.{dim_between, option_below, cycle_behind, cycle_in, chip_of_word, is_number};
ghost use Rattle.lab_route_plot.specs.Legs.{is_referral};
ghost use Rattle.lab_route_plot.specs.Legs.{is_referred, says_delivered, leg_to, last_leg, legs_at, next_chip};
ghost use Rattle.lab_route_plot.specs.Legs.{legs_end};
ghost use Rattle.lab_route_plot.specs.Legs.{legs_from, line_legs, is_route_line, legs_told, legs_with, legs_after};

use cm_bits::{Lines, NoMemory, Words, read_number};
use lab_plot::{PlotFault, behind, cell, has_words, place, trim};
use std::alloc::Global;

/// The petit cycles from one on up to another.
#[derive(Clone, Copy, Debug, PartialEq, Eq)]
pub struct Cycles {
    pub from: u64,
    pub to: u64,
}

impl Cycles {
    /// All that there can be.
    pub const ALL: Cycles = Cycles {
        from: 0,
        to: u64::MAX,
    };

    /// Whether they are all.
    pub(crate) fn are_all(self) -> bool
        ensures value { result ≡ are_all_cycles self }
    {
        self.from == 0 && self.to == u64::MAX
    }

    /// Whether a petit cycle is one of them.
    fn has(self, cycle: u64) -> bool
        ensures value { result ≡ is_among_cycles self cycle }
    {
        self.from <= cycle && cycle <= self.to
    }
}

/// What a message did on a leg.
#[derive(Clone, Copy, PartialEq, Eq)]
pub(crate) enum Step {
    /// It crossed a dimension that it had to, or stood.
    Wanted,
    /// It was referred over a dimension.
    Referred,
    /// It was delivered at the end.
    Delivered,
}

/// A leg of the way: over one dimension of a petit cycle, or from chip to the same chip.
#[derive(Clone, Copy)]
pub(crate) struct Leg {
    pub cycle: u64,
    /// Behind how many dimensions of the petit cycle it begins and ends.
    pub start: u16,
    pub end: u16,
    pub from: u16,
    pub to: u16,
    pub step: Step,
}

/// The legs that the lines of a route tell.
pub(crate) fn read_legs(alloc: Global, text: &[u8], cycles: Cycles) -> Result<Vec<Leg>, PlotFault>
    ensures value { GivesPlot (λ legs. legs.items) result (legs_after cycles 1 [] (lines_of text.now)) }
{
    let mut legs = Vec::new(alloc);
    let mut number = 1u64;
    for line in Lines::new(text) {
        match push_line(&mut legs, number, line, cycles) {
            Ok(()) => {}
            Err(fault) => return Err(fault),
        }
        let Some(next) = number.checked_add(1) else {
            return Err(PlotFault::Memory);
        };
        number = next;
    }
    Ok(legs)
}

/// The legs of a line of this number, whatever blanks stand around it; a blank line has none.
fn push_line(legs: &mut Vec<Leg>, number: u64, line: &[u8], cycles: Cycles) -> Result<(), PlotFault>
    ensures ok { GivesPlot (λ _. legs.new.items) result (legs_with cycles number legs.old.items line.now) }
{
    if has_words(line) {
        push_told(legs, number, trim(line), cycles)
    } else {
        Ok(())
    }
}

/// Those of a line that has to be one of a route.
fn push_told(legs: &mut Vec<Leg>, number: u64, line: &[u8], cycles: Cycles) -> Result<(), PlotFault>
    ensures ok { GivesPlot (λ _. legs.new.items) result (legs_told cycles number legs.old.items line.now) }
{
    if !is_told(line) {
        return Err(PlotFault::Route(number));
    }
    match push_legs(legs, line, cycles) {
        Ok(()) => Ok(()),
        Err(_) => Err(PlotFault::Memory),
    }
}

/// Whether it is a line of a route.
fn is_told(line: &[u8]) -> bool
    ensures value { result ≡ is_route_line line.now }
{
    cycle_in(line).is_some() || line.starts_with(b"stands at ")
}

/// The legs of a line: of a petit cycle, or none.
fn push_legs(legs: &mut Vec<Leg>, line: &[u8], cycles: Cycles) -> Result<(), NoMemory>
    ensures ok { OnOk result (legs.new.items ≡ legs.old.items ++ line_legs cycles line.now) }
{
    match cycle_in(line) {
        Some(cycle) => {
            if cycles.has(cycle) {
                push_chips(legs, cycle, line)
            } else {
                Ok(())
            }
        }
        None => Ok(()),
    }
}

/// The petit cycle of a line.
fn cycle_in(line: &[u8]) -> Option<u64>
    ensures value { result ≡ cycle_in line.now }
    ensures within { IfSome result (λ cycle. cycle < 2 ^ 50) }
{
    if line.starts_with(b"cycle ") {
        cycle_behind(line)
    } else {
        None
    }
}

/// The same, where the line has its first word.
fn cycle_behind(line: &[u8]) -> Option<u64>
    requires long { 6 ≤ length line.now }
    ensures value { result ≡ cycle_behind line.now }
    ensures within { IfSome result (λ cycle. cycle < 2 ^ 50) }
{
    let rest = &line[6..];
    below(1 << 50, number_before_colon(rest))
}

fn number_before_colon(bytes: &[u8]) -> Option<u64>
    ensures value { result ≡ number_of (before_first is_colon bytes.now) }
{
    read_number(&bytes[..place(b':', bytes)])
}

/// A number below a limit, if there is one.
fn below(limit: u64, number: Option<u64>) -> Option<u64>
    ensures value { result ≡ option_below limit number }
    ensures within { IfSome result (λ number. number < limit) }
{
    let number = number?;
    if number < limit { Some(number) } else { None }
}

/// The legs of a petit cycle.
fn push_chips(legs: &mut Vec<Leg>, cycle: u64, line: &[u8]) -> Result<(), NoMemory>
    requires within { cycle < 2 ^ 50 }
    ensures ok { OnOk result (legs.new.items ≡ legs.old.items
        ++ legs_from cycle line.now None (words_of (after_first is_colon (cell line.now 0)))) }
{
    let mut from = None;
    for word in Words::new(behind(b':', cell(line, 0))) {
        from = push_word(legs, cycle, line, from, word)?;
    }
    push_end(legs, cycle, line, from)?;
    Ok(())
}

/// The leg to the chip of a word, if it names one: the chip from which the next leg leads.
fn push_word(
    legs: &mut Vec<Leg>,
    cycle: u64,
    line: &[u8],
    from: Option<u16>,
    word: &[u8],
) -> Result<Option<u16>, NoMemory>
    ensures legs { IfOk result (λ _. legs.new.items
        ≡ legs.old.items ++ legs_at cycle line.now from (chip_of_word word.now)) }
    ensures next { IfOk result (λ next. next ≡ next_chip from (chip_of_word word.now)) }
{
    match chip_in(word) {
        Some(chip) => {
            push_leg(legs, leg_to(cycle, line, from, chip))?;
            Ok(Some(chip))
        }
        None => Ok(from),
    }
}

/// The leg to the end of the petit cycle, if there is a chip.
fn push_end(legs: &mut Vec<Leg>, cycle: u64, line: &[u8], from: Option<u16>) -> Result<(), NoMemory>
    requires within { cycle < 2 ^ 50 }
    ensures ok { OnOk result (legs.new.items ≡ legs.old.items ++ legs_end cycle line.now from) }
{
    match from {
        Some(chip) => push_leg(legs, last_leg(cycle, line, chip)),
        None => Ok(()),
    }
}

/// The chip that a word names.
fn chip_in(word: &[u8]) -> Option<u16>
    ensures value { result ≡ chip_of_word word.now }
{
    let chip = below(4096, read_number(word))?;
    Some(chip as u16)
}

/// The leg to a chip from this one before it; or where the petit cycle begins.
fn leg_to(cycle: u64, line: &[u8], from: Option<u16>, chip: u16) -> Leg
    ensures value { result ≡ leg_to cycle line.now from chip }
{
    let Some(from) = from else {
        return Leg {
            cycle,
            start: 0,
            end: 0,
            from: chip,
            to: chip,
            step: Step::Wanted,
        };
    };
    let dim = dim_between(from, chip);
    Leg {
        cycle,
        start: dim,
        end: dim + 1,
        from,
        to: chip,
        step: if is_referred(line, dim) {
            Step::Referred
        } else {
            Step::Wanted
        },
    }
}

/// That to the end of the petit cycle.
fn last_leg(cycle: u64, line: &[u8], chip: u16) -> Leg
    requires within { cycle < 2 ^ 50 }
    ensures value { result ≡ last_leg cycle line.now chip }
{
    Leg {
        cycle: cycle + 1,
        start: 0,
        end: 0,
        from: chip,
        to: chip,
        step: if is_delivered(line) {
            Step::Delivered
        } else {
            Step::Wanted
        },
    }
}

/// The dimension in which two chips differ.
fn dim_between(from: u16, to: u16) -> u16
    ensures value { result ≡ dim_between from to }
    ensures within { result ≤ 16 }
{
    (from ^ to).trailing_zeros() as u16
}

/// Whether the line tells that the message was referred in a dimension.
fn is_referred(line: &[u8], dim: u16) -> bool
    ensures value { result ≡ is_referred line.now dim }
{
    line.split(|byte| *byte == b',')
        .any(|cell| is_referral(cell, dim))
}

/// Whether a part of a line tells it.
fn is_referral(cell: &[u8], dim: u16) -> bool
    ensures value { result ≡ is_referral dim cell.now }
{
    cell.starts_with(b" referred in ") && is_number(&cell[13..], dim)
}

fn is_number(word: &[u8], number: u16) -> bool
    ensures value { result ≡ is_number number (number_of word.now) }
{
    match read_number(word) {
        Some(read) => read == u64::from(number),
        None => false,
    }
}

/// Whether the line tells that the message was delivered.
fn is_delivered(line: &[u8]) -> bool
    ensures value { result ≡ says_delivered line.now }
{
    line.split(|byte| *byte == b',')
        .any(|cell| cell.starts_with(b" delivered"))
}

fn push_leg(legs: &mut Vec<Leg>, leg: Leg) -> Result<(), NoMemory>
    ensures ok { OnOk result (legs.new.items ≡ legs.old.items ++ leg ∷ []) }
{
    match legs.push(leg) {
        Ok(()) => Ok(()),
        Err(_) => Err(NoMemory),
    }
}
