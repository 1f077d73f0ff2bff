//! How many messages took how long, and the table that tells it.

ghost use Rattle.std.specs.Prelude.{◌≡◌, ◌++◌, IfOk, OnOk, length, replicate, slice_index, slice_set};
ghost use Rattle.std.specs.List.{flat_map};
ghost use Rattle.cm_model.specs.Each.{tabulate};
ghost use Rattle.lab_counts.specs.Crossings.{capped_sum};
ghost use Rattle.lab_load.specs.Latencies.{took, histogram, rate_name, latency_header, took_cell, latency_line};
ghost use Rattle.lab_load.specs.Latencies.{table_end, latency_table_of};

use crate::figures::greatest_of;
use cm_bits::NoMemory;
use lab_counts::push_last_two;
use lab_digits::{push_byte, push_piece, push_words};
use std::alloc::Global;

/// How many messages took how long under a load.
#[derive(Drop)]
pub struct Latencies {
    /// Hundredths of a message that a chip was to offer in a petit cycle.
    pub rate: u16,
    /// How many took no petit cycle, one, two, and so on.
    pub counts: Vec<u64>,
}

/// How many of these took how long.
#[tactic(auto, unfolding(crate::specs::Latencies::histogram))]
pub(crate) fn histogram(alloc: Global, latencies: &[u32]) -> Result<Vec<u64>, NoMemory>
    ensures value { IfOk result (λ counts. counts.items ≡ histogram latencies.now) }
{
    let mut counts = vec![in alloc; 0; greatest_of(latencies) as usize + 1]?;
    count_all(&mut counts, latencies);
    Ok(counts)
}

/// Counts each of them, where none was counted so far.
fn count_all(counts: &mut [u64], latencies: &[u32])
    requires none { counts.old ≡ replicate (length counts.old) 0 }
    ensures value { counts.new ≡ tabulate 0 (length counts.old) (took latencies.now) }
{
    for latency in latencies {
        count_one(counts, *latency);
    }
}

/// Counts one that took so long, if there is a place for it.
#[tactic(auto, using(std::proofs::lemmas::List::set_past))]
fn count_one(counts: &mut [u64], latency: u32)
    ensures value { counts.new ≡ slice_set counts.old latency (capped_sum (slice_index counts.old latency) 1) }
{
    let index = latency as usize;
    if index < counts.len() {
        counts[index] = counts[index].saturating_add(1);
    }
}

/// The table of these loads: a line of names, and a line for each number of petit cycles that a message took.
#[tactic(auto, unfolding(crate::specs::Latencies::latency_table_of))]
pub fn latency_table(alloc: Global, loads: &[Latencies]) -> Result<Vec<u8>, NoMemory>
    ensures value { IfOk result (λ text. text.items ≡ latency_table_of loads.now) }
{
    let mut text = Vec::new(alloc);
    push_header(&mut text, loads)?;
    for index in 0..table_end(loads).saturating_sub(1) {
        push_line(&mut text, loads, index + 1)?;
    }
    Ok(text)
}

/// The line of names.
#[tactic(auto, unfolding(crate::specs::Latencies::latency_header))]
fn push_header(text: &mut Vec<u8>, loads: &[Latencies]) -> Result<(), NoMemory>
    ensures ok { OnOk result (text.new.items ≡ text.old.items ++ latency_header loads.now) }
{
    push_words(text, b"latency")?;
    push_names(text, loads)?;
    push_byte(text, b'\n')
}

/// The names of the columns behind the first.
fn push_names(text: &mut Vec<u8>, loads: &[Latencies]) -> Result<(), NoMemory>
    ensures ok { OnOk result (text.new.items ≡ text.old.items ++ flat_map (λ load. rate_name load.rate) loads.now) }
{
    for load in loads {
        push_name(text, load.rate)?;
    }
    Ok(())
}

/// The name of a rate's column, behind a comma.
fn push_name(text: &mut Vec<u8>, rate: u16) -> Result<(), NoMemory>
    ensures ok { OnOk result (text.new.items ≡ text.old.items ++ rate_name rate) }
{
    push_piece(text, b",rate ", rate / 100)?;
    push_byte(text, b'.')?;
    push_last_two(text, u128::from(rate))
}

/// How many counts the longest of these loads has.
fn table_end(loads: &[Latencies]) -> usize
    ensures value { result ≡ table_end loads.now }
{
    let mut most = 0usize;
    for load in loads {
        most = most.max(load.counts.len());
    }
    most
}

/// The line of so many petit cycles.
#[tactic(auto, unfolding(crate::specs::Latencies::latency_line))]
fn push_line(text: &mut Vec<u8>, loads: &[Latencies], cycles: usize) -> Result<(), NoMemory>
    ensures ok { OnOk result (text.new.items ≡ text.old.items ++ latency_line loads.now cycles) }
{
    push_piece(text, b"", cycles)?;
    push_cells(text, loads, cycles)?;
    push_byte(text, b'\n')
}

/// How many took so long under each load.
fn push_cells(text: &mut Vec<u8>, loads: &[Latencies], cycles: usize) -> Result<(), NoMemory>
    ensures ok { OnOk result (text.new.items
        ≡ text.old.items ++ flat_map (λ load. took_cell cycles load.counts.items) loads.now) }
{
    for load in loads {
        push_cell(text, &load.counts, cycles)?;
    }
    Ok(())
}

fn push_cell(text: &mut Vec<u8>, counts: &[u64], cycles: usize) -> Result<(), NoMemory>
    ensures ok { OnOk result (text.new.items ≡ text.old.items ++ took_cell cycles counts.now) }
{
    push_piece(text, b",", counts.get(cycles).copied().unwrap_or(0))
}
