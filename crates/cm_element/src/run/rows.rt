//! One instruction over the rows of a run.

ghost use Rattle.std.specs.Prelude.{◌≡◌, ◌≢◌, ℕ, ◌+◌, ◌*◌, ◌<◌, ◌≤◌, ◌^◌, false, true, length, slice_index};
ghost use Rattle.cm_bits.specs.Bit.{bit};
ghost use Rattle.cm_model.specs.Each.{tabulate};
ghost use Rattle.cm_model.specs.Processor.{NEWS};
ghost use Rattle.cm_model.specs.Instruction.{takes_incoming};
ghost use Rattle.cm_model.specs.Chip.{chip_after};
ghost use Rattle.cm_model.specs.Array.{chip_at};
ghost use Rattle.cm_element.specs.Runs.{AreRows, chips_of};
ghost use Rattle.cm_element.specs.Steps.{ArePlaces, AreMerged, AreLookedUp, along_chain};

use crate::run::memory::MemoryRows;
use crate::run::{ADDRESSES, FLAGS};
use crate::word::{chosen, holding};
use cm_bits::{FlagNo, Plane};
use cm_model::Nano;
use cm_rows::Places;
use cm_truth::apply_into;

/// Where a row begins.
pub(crate) fn row(number: usize, rows: usize, stride: usize) -> usize
    requires number { number < rows }
    requires rows { rows ≤ 4096 }
    requires stride { stride < 2 ^ 20 }
    ensures value { result ≡ number * stride }
    ensures within { result + stride ≤ rows * stride }
{
    number * stride
}

/// Where the word of a chip lies in a row.
pub(crate) fn word_at(number: usize, rows: usize, stride: usize, chip: u16) -> usize
    requires number { number < rows }
    requires rows { rows ≤ 4096 }
    requires stride { stride < 2 ^ 20 }
    requires chip { chip < stride }
    ensures value { result ≡ number * stride + chip }
    ensures within { result < rows * stride }
{
    row(number, rows, stride) + usize::from(chip)
}

/// One instruction in all chips of the rows, in place, when nothing comes in over NEWS.
pub(crate) fn step_rows(
    memory: &mut MemoryRows,
    flags: &mut [Plane],
    nano: &Nano,
    stride: usize,
    chips: usize,
)
    requires rows { AreRows memory.old flags.old stride chips }
    requires apart { nano.now.write ≢ NEWS }
    ensures rows { AreRows memory.new flags.new stride chips }
    ensures value { chips_of memory.new flags.new stride chips ≡ tabulate 0 chips (λ c. chip_after nano.now
        (along_chain nano.now (chip_at (chips_of memory.old flags.old stride chips) c))
        (chip_at (chips_of memory.old flags.old stride chips) c)) }
{
    let at = places(nano, stride);
    let always = is_always(nano);
    if nano.write == FlagNo::ZERO {
        memory.compute_memory(nano, stride, always, flags, at, chips);
    } else {
        memory.compute(
            nano,
            stride,
            nano.write == FlagNo::DAISY,
            always,
            flags,
            at,
            chips,
        );
    }
}

/// Writes down what a table gives the processors of every chip, whatever their condition: the flag's table for what
/// `Run::send` sends over NEWS or DAISY, and both tables for `Run::outputs`, which only tests call.
pub(crate) fn look_up_row(
    table: u8,
    memory: &MemoryRows,
    flags: &[Plane],
    nano: &Nano,
    stride: usize,
    chips: usize,
    found: &mut [Plane],
)
    requires rows { AreRows memory.now flags.now stride chips }
    requires found { length found.old ≡ chips }
    ensures value { AreLookedUp table nano.now (chips_of memory.now flags.now stride chips) found.new }
{
    let at = places(nano, stride);
    let a = memory.row(usize::from(nano.a.get()), stride, chips);
    let b = memory.row(usize::from(nano.b.get()), stride, chips);
    apply_into(table, a, b, &flags[at.read..at.read + chips], found);
}

/// One instruction in all chips of the rows, when these planes come in over NEWS or DAISY. They are
/// used up.
pub(crate) fn take_rows(
    memory: &mut MemoryRows,
    flags: &mut [Plane],
    nano: &Nano,
    stride: usize,
    chips: usize,
    incoming: &mut [Plane],
)
    requires rows { AreRows memory.old flags.old stride chips }
    requires taken { takes_incoming nano.now ≡ true }
    requires incoming { length incoming.old ≡ chips }
    ensures rows { AreRows memory.new flags.new stride chips }
    ensures value { chips_of memory.new flags.new stride chips
        ≡ tabulate 0 chips (λ c. chip_after nano.now (bit (slice_index incoming.old c))
        (chip_at (chips_of memory.old flags.old stride chips) c)) }
{
    let at = places(nano, stride);
    let always = is_always(nano);
    memory.compute_memory(nano, stride, always, flags, at, chips);
    merge(flags, always, nano.sense, at, incoming);
    put_row(flags, at.write, incoming);
}

/// Keeps of the planes what comes in where the condition holds, and else has what the written flag has.
/// Under `always` the condition holds everywhere.
fn merge(flags: &[Plane], always: bool, sense: bool, at: Places, incoming: &mut [Plane])
    requires write { at.write + length incoming.old ≤ length flags.now }
    requires cond { at.cond + length incoming.old ≤ length flags.now }
    requires all { always ≡ true → (sense ≡ false)
        × ((c : ℕ) → c < length incoming.old → slice_index flags.now (at.cond + c) ≡ 0) }
    ensures value { AreMerged sense at flags.now incoming.old incoming.new }
{
    if always {
        return;
    }
    for c in 0..incoming.len() {
        let holds = holding(flags[at.cond + c], sense);
        incoming[c] = chosen(holds, incoming[c], flags[at.write + c]);
    }
}

/// Puts planes into a list from a place on.
pub(crate) fn put_row(rows: &mut [Plane], at: usize, planes: &[Plane])
    requires within { at + length planes.now ≤ length rows.old }
    ensures value { (c : ℕ) → c < length planes.now → slice_index rows.new (at + c) ≡ slice_index planes.now c }
    ensures below { (i : ℕ) → i < at → slice_index rows.new i ≡ slice_index rows.old i }
    ensures above { (i : ℕ) → at + length planes.now ≤ i → slice_index rows.new i ≡ slice_index rows.old i }
{
    for c in 0..planes.len() {
        rows[at + c] = planes[c];
    }
}

/// Whether the condition of an instruction holds everywhere: flag ZERO is to be 0.
fn is_always(nano: &Nano) -> bool
    ensures value { result ≡ true → (nano.now.cond ≡ 8) × (nano.now.sense ≡ false) }
{
    nano.cond == FlagNo::ZERO && !nano.sense
}

/// Where the rows of an instruction begin.
pub(crate) fn places(nano: &Nano, stride: usize) -> Places
    requires stride { stride < 2 ^ 20 }
    ensures value { ArePlaces nano.now stride result }
    ensures a { result.a + stride ≤ 4096 * stride }
    ensures b { result.b + stride ≤ 4096 * stride }
    ensures read { result.read + stride ≤ 16 * stride }
    ensures write { result.write + stride ≤ 16 * stride }
    ensures cond { result.cond + stride ≤ 16 * stride }
{
    Places {
        a: row(usize::from(nano.a.get()), ADDRESSES, stride),
        b: row(usize::from(nano.b.get()), ADDRESSES, stride),
        read: row(usize::from(nano.read.get()), FLAGS, stride),
        write: row(usize::from(nano.write.get()), FLAGS, stride),
        cond: row(usize::from(nano.cond.get()), FLAGS, stride),
    }
}
