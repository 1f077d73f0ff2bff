//! The table of loads, as a text.

ghost use Rattle.std.specs.Prelude.{◌≡◌, ◌++◌, OnOk, IfOk};
ghost use Rattle.lab_load.specs.Tables.{thousandths, column_if};
ghost use Rattle.lab_load.specs.Tables.{loads_header, offer_columns, message_columns, latency_columns, load_line};
ghost use Rattle.lab_load.specs.Tables.{loads_table};
ghost use Rattle.lab_load.specs.Tables.{crossing_header, crossing_columns, crossing_line, crossing_table_of};
ghost use Rattle.lab_load.specs.Tables.{dimension_header, dimension_lines, dimension_table_of};
ghost use Rattle.lab_load.specs.Tables.{last_hundredths, spread_header, spread_columns, throughput_columns};
ghost use Rattle.lab_load.specs.Tables.{spread_line, spread_table_of};

use crate::figures::Figures;
use crate::spreads::{Spread, Spreads};
use cm_bits::NoMemory;
use lab_counts::{
    Crossings, in_all, push_counted_lines, push_hundredths, push_last_digit, push_last_two,
};
use lab_digits::{push_byte, push_number};
use std::alloc::Global;

/// The table of these loads: a line of names, and a line for each load.
#[tactic(auto, unfolding(crate::specs::Tables::loads_table))]
pub fn table(alloc: Global, loads: &[Figures]) -> Result<Vec<u8>, NoMemory>
    ensures value { IfOk result (λ text. text.items ≡ loads_table loads.now) }
{
    let mut text = opening_text(alloc)?;
    for figures in loads {
        push_line(&mut text, figures)?;
    }
    Ok(text)
}

/// The first line.
fn opening_text(alloc: Global) -> Result<Vec<u8>, NoMemory>
    ensures value { IfOk result (λ text. text.items ≡ loads_header) }
{
    Ok(Vec::from_slice(
        alloc,
        b"rate,offered,taken,delivered,throughput,mean,p95,greatest,deepest\n",
    )?)
}

/// The line of a load.
#[tactic(auto, unfolding(crate::specs::Tables::load_line))]
fn push_line(text: &mut Vec<u8>, figures: &Figures) -> Result<(), NoMemory>
    ensures ok { OnOk result (text.new.items ≡ text.old.items ++ load_line figures.now) }
{
    push_offers(text, figures)?;
    push_messages(text, figures)?;
    push_latencies(text, figures)?;
    push_number(text, figures.deepest, b'\n')
}

/// What was offered.
fn push_offers(text: &mut Vec<u8>, figures: &Figures) -> Result<(), NoMemory>
    ensures ok { OnOk result (text.new.items ≡ text.old.items ++ offer_columns figures.now) }
{
    push_hundredths(text, u128::from(figures.rate))?;
    push_number(text, figures.offered, b',')
}

/// What became of it.
fn push_messages(text: &mut Vec<u8>, figures: &Figures) -> Result<(), NoMemory>
    ensures ok { OnOk result (text.new.items ≡ text.old.items ++ message_columns figures.now) }
{
    push_number(text, figures.taken, b',')?;
    push_number(text, figures.delivered, b',')?;
    push_thousandths(text, figures.throughput)
}

/// How long that took.
fn push_latencies(text: &mut Vec<u8>, figures: &Figures) -> Result<(), NoMemory>
    ensures ok { OnOk result (text.new.items ≡ text.old.items ++ latency_columns figures.now) }
{
    push_hundredths(text, figures.mean)?;
    push_if(text, figures.most)?;
    push_number(text, figures.greatest, b',')
}

/// The table of these loads with columns for what is counted: a line of names, and a line for each load.
#[tactic(auto, unfolding(crate::specs::Tables::crossing_table_of))]
pub fn crossing_table(alloc: Global, loads: &[Figures]) -> Result<Vec<u8>, NoMemory>
    ensures value { IfOk result (λ text. text.items ≡ crossing_table_of loads.now) }
{
    let mut text = crossing_opening(alloc)?;
    for figures in loads {
        push_crossing_line(&mut text, figures)?;
    }
    Ok(text)
}

/// Its first line.
fn crossing_opening(alloc: Global) -> Result<Vec<u8>, NoMemory>
    ensures value { IfOk result (λ text. text.items ≡ crossing_header) }
{
    Ok(Vec::from_slice(
        alloc,
        b"rate,offered,taken,delivered,throughput,mean,p95,greatest,deepest,crossed,referred,refused,quiet\n",
    )?)
}

/// The line of a load.
#[tactic(auto, unfolding(crate::specs::Tables::crossing_line))]
fn push_crossing_line(text: &mut Vec<u8>, figures: &Figures) -> Result<(), NoMemory>
    ensures ok { OnOk result (text.new.items ≡ text.old.items ++ crossing_line figures.now) }
{
    push_offers(text, figures)?;
    push_messages(text, figures)?;
    push_latencies(text, figures)?;
    push_number(text, figures.deepest, b',')?;
    push_crossings(text, in_all(&figures.counts.dims))?;
    push_number(text, figures.counts.quiet, b'\n')
}

/// How often messages crossed a dimension, were referred over one, and were refused.
fn push_crossings(text: &mut Vec<u8>, crossings: Crossings) -> Result<(), NoMemory>
    ensures ok { OnOk result (text.new.items ≡ text.old.items ++ crossing_columns crossings) }
{
    push_number(text, crossings.crossed, b',')?;
    push_number(text, crossings.referred, b',')?;
    push_number(text, crossings.refused, b',')
}

/// The table by dimension of these loads on a cube of n dimensions: a line of names, and for each load a line for each
/// dimension.
#[tactic(auto, unfolding(crate::specs::Tables::dimension_table_of))]
pub fn dimension_table(alloc: Global, n: u16, loads: &[Figures]) -> Result<Vec<u8>, NoMemory>
    ensures value { IfOk result (λ text. text.items ≡ dimension_table_of n loads.now) }
{
    let mut text = dimension_opening(alloc)?;
    for figures in loads {
        push_dimensions(&mut text, n, figures)?;
    }
    Ok(text)
}

/// Its first line.
fn dimension_opening(alloc: Global) -> Result<Vec<u8>, NoMemory>
    ensures value { IfOk result (λ text. text.items ≡ dimension_header) }
{
    Ok(Vec::from_slice(alloc, b"rate,dimension,crossed,referred,refused\n")?)
}

/// The lines of a load.
fn push_dimensions(text: &mut Vec<u8>, n: u16, figures: &Figures) -> Result<(), NoMemory>
    ensures ok { OnOk result (text.new.items ≡ text.old.items ++ dimension_lines n figures.now) }
{
    push_counted_lines(
        text,
        figures.rate,
        &figures.counts.dims[..usize::from(n.min(12))],
    )
}

/// The table of loads of many seeds: a line of names, and a line for each rate.
#[tactic(auto, unfolding(crate::specs::Tables::spread_table_of))]
pub fn spread_table(alloc: Global, rates: &[Spreads]) -> Result<Vec<u8>, NoMemory>
    ensures value { IfOk result (λ text. text.items ≡ spread_table_of rates.now) }
{
    let mut text = spread_opening(alloc)?;
    for spreads in rates {
        push_spread_line(&mut text, spreads)?;
    }
    Ok(text)
}

/// Its first line.
fn spread_opening(alloc: Global) -> Result<Vec<u8>, NoMemory>
    ensures value { IfOk result (λ text. text.items ≡ spread_header) }
{
    Ok(Vec::from_slice(
        alloc,
        b"rate,throughput,throughput +-,mean,mean +-,p95,p95 +-,greatest,greatest +-\n",
    )?)
}

/// The line of loads of a rate.
#[tactic(auto, unfolding(crate::specs::Tables::spread_line))]
fn push_spread_line(text: &mut Vec<u8>, spreads: &Spreads) -> Result<(), NoMemory>
    ensures ok { OnOk result (text.new.items ≡ text.old.items ++ spread_line spreads.now) }
{
    push_throughput(text, spreads)?;
    push_spread(text, spreads.mean)?;
    push_spread(text, spreads.most)?;
    push_hundredths(text, spreads.greatest.mean)?;
    push_last_hundredths(text, spreads.greatest.half)
}

/// What was delivered.
fn push_throughput(text: &mut Vec<u8>, spreads: &Spreads) -> Result<(), NoMemory>
    ensures ok { OnOk result (text.new.items ≡ text.old.items ++ throughput_columns spreads.now) }
{
    push_hundredths(text, u128::from(spreads.rate))?;
    push_thousandths(text, spreads.throughput.mean)?;
    push_thousandths(text, spreads.throughput.half)
}

/// A mean and a half width in hundredths.
fn push_spread(text: &mut Vec<u8>, spread: Spread) -> Result<(), NoMemory>
    ensures ok { OnOk result (text.new.items ≡ text.old.items ++ spread_columns spread) }
{
    push_hundredths(text, spread.mean)?;
    push_hundredths(text, spread.half)
}

/// So many hundredths, and the end of the line.
fn push_last_hundredths(text: &mut Vec<u8>, number: u128) -> Result<(), NoMemory>
    ensures ok { OnOk result (text.new.items ≡ text.old.items ++ last_hundredths number) }
{
    push_number(text, number / 100, b'.')?;
    push_last_two(text, number)?;
    push_byte(text, b'\n')
}

/// A number with a comma behind it, or the comma alone.
fn push_if(text: &mut Vec<u8>, number: Option<u32>) -> Result<(), NoMemory>
    ensures ok { OnOk result (text.new.items ≡ text.old.items ++ column_if number) }
{
    match number {
        None => push_byte(text, b','),
        Some(number) => push_number(text, number, b','),
    }
}

/// So many thousandths, and a comma.
fn push_thousandths(text: &mut Vec<u8>, number: u128) -> Result<(), NoMemory>
    ensures ok { OnOk result (text.new.items ≡ text.old.items ++ thousandths number) }
{
    push_number(text, number / 1000, b'.')?;
    push_last_digit(text, number / 100)?;
    push_last_two(text, number)?;
    push_byte(text, b',')
}
