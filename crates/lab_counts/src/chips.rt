//! What is counted by chip under a load, and the table that tells it.

ghost use Rattle.std.specs.Prelude.{◌≡◌, IfOk, replicate};
ghost use Rattle.lab_counts.specs.Crossings.{no_crossings};
ghost use Rattle.lab_counts.specs.Tables.{chip_header, chip_lines, chip_table_of};

use crate::crossings::Crossings;
use crate::tables::push_counted_lines;
use cm_bits::NoMemory;
use std::alloc::Global;

/// What messages did at each chip under a load.
#[derive(Drop)]
pub struct ChipCrossings {
    /// Hundredths of a message that a chip was to offer in a petit cycle.
    pub rate: u16,
    /// By chip: the messages that crossed out of it, over whichever dimension, and those that had to and stayed.
    pub chips: Vec<Crossings>,
}

/// So many chips, at which nothing was counted so far.
pub fn blank_chips(alloc: Global, count: u16) -> Result<Vec<Crossings>, NoMemory>
    ensures value { IfOk result (λ chips. chips.items ≡ replicate count no_crossings) }
{
    Ok(vec![in alloc; Crossings::NONE; count as usize]?)
}

/// The table by chip of these loads: a line of names, and for each load a line for each chip.
#[tactic(auto, unfolding(crate::specs::Tables::chip_table_of))]
pub fn chip_table(alloc: Global, loads: &[ChipCrossings]) -> Result<Vec<u8>, NoMemory>
    ensures value { IfOk result (λ text. text.items ≡ chip_table_of loads.now) }
{
    let mut text = chip_opening(alloc)?;
    for load in loads {
        push_counted_lines(&mut text, load.rate, &load.chips)?;
    }
    Ok(text)
}

/// Its first line.
fn chip_opening(alloc: Global) -> Result<Vec<u8>, NoMemory>
    ensures value { IfOk result (λ text. text.items ≡ chip_header) }
{
    Ok(Vec::from_slice(alloc, b"rate,chip,crossed,referred,refused\n")?)
}
