//! Chips of one run copied into another.

ghost use Rattle.std.specs.Prelude.{◌≡◌, ◌≢◌, ◌⊎◌, ℕ, ◌+◌, ◌*◌, ◌<◌, ◌≤◌, ◌^◌, length, slice_index};
ghost use Rattle.cm_model.specs.Processor.{memory_bit};
ghost use Rattle.cm_model.specs.Chip.{IsPlane, processor_at};
ghost use Rattle.cm_model.specs.Array.{chip_at};
ghost use Rattle.cm_element.specs.Laid.{AreLaid, AreLaidRows, AreTurnedRows, IsRowTurned};
ghost use Rattle.cm_element.specs.Runs.{chips_beside};

use super::{FLAGS, PITCH, Run};
use crate::run::rows::put_row;
use cm_bits::Plane;

/// Where the words of some chips begin in each of the rows.
#[derive(Clone, Copy)]
pub(crate) struct Band {
    pub(crate) stride: usize,
    pub(crate) first: usize,
}

impl Run {
    /// Copies so many chips of another run, from `first` on, into the places from `at` on.
    pub fn lay(&mut self, at: u16, from: &Run, first: u16, count: u16)
        requires here { at + count ≤ length self.old }
        requires there { first + count ≤ length from.now }
        ensures value { AreLaid at first count from.now self.old self.new }
    {
        let count = usize::from(count);
        let here = Band {
            stride: self.stride,
            first: usize::from(at),
        };
        let there = Band {
            stride: from.stride,
            first: usize::from(first),
        };
        self.memory.lay(here, &from.memory, there, count);
        lay_rows(&mut self.flags, here, &from.flags, there, FLAGS, count);
    }

    /// Puts the planes of so many chips into the places from `at` on. They lie chip by chip: those of memory `PITCH`
    /// words apart, sixteen of flags.
    pub fn lay_planes(&mut self, at: u16, memory: &[Plane], flags: &[Plane], count: u16)
        requires here { at + count ≤ length self.old }
        requires memory { count * 4128 ≤ length memory.now }
        requires flags { count * 16 ≤ length flags.now }
        requires zero { (c : ℕ) → c < count → slice_index flags.now (c * 16 + 8) ≡ 0 }
        ensures value { AreLaid at 0 count (chips_beside memory.now flags.now count) self.old self.new }
    {
        let some = usize::from(count);
        let here = Band {
            stride: self.stride,
            first: usize::from(at),
        };
        self.memory.turn(here, memory, some);
        turn_flags(&mut self.flags, here, flags, some);
    }

    /// Writes the memory planes of so many chips, from `first` on, chip by chip and `PITCH` words apart.
    pub fn write_planes(&self, first: u16, count: u16, memory: &mut [Plane])
        requires chips { first + count ≤ length self.now }
        requires memory { count * 4128 ≤ length memory.old }
        ensures value { (c a : ℕ) → c < count → a < 4096 → IsPlane (slice_index memory.new (c * 4128 + a))
            (λ p. memory_bit (processor_at (chip_at self.now (first + c)) p) a) }
    {
        let there = Band {
            stride: self.stride,
            first: usize::from(first),
        };
        self.memory.write(there, usize::from(count), memory);
    }

    /// Writes the memory planes of eight chips, from `first` on, at so many times eight addresses, from `at` on: chip
    /// by chip and `FIELD_PITCH` words apart. Of eight rows the words of eight chips are read and turned at once: 56
    /// addresses take about as long as to read records of two processors bit by bit.
    pub fn write_field_planes(&self, first: u16, at: u16, eights: usize, planes: &mut [Plane])
        requires chips { first + 8 ≤ length self.now }
        requires at { at + eights * 8 ≤ 4096 }
        requires eights { eights ≤ 8 }
        requires planes { length planes.old ≡ 512 }
        ensures value { (c k : ℕ) → c < 8 → k < eights * 8 → IsPlane (slice_index planes.new (c * 64 + k))
            (λ p. memory_bit (processor_at (chip_at self.now (first + c)) p) (at + k)) }
    {
        let there = Band {
            stride: self.stride,
            first: usize::from(first),
        };
        self.memory
            .write_squares(usize::from(at), eights, there, planes);
    }
}

/// Copies so many words of each row.
fn lay_rows(to: &mut [Plane], here: Band, from: &[Plane], there: Band, rows: usize, count: usize)
    requires to { length to.old ≡ rows * here.stride }
    requires from { length from.now ≡ rows * there.stride }
    requires here { here.first + count ≤ here.stride }
    requires there { there.first + count ≤ there.stride }
    requires rows { rows ≤ 4096 }
    requires near { here.stride < 2 ^ 20 }
    requires near_there { there.stride < 2 ^ 20 }
    ensures value { AreLaidRows here there rows count from.now to.old to.new }
{
    for row in 0..rows {
        let place = row * there.stride + there.first;
        put_row(
            to,
            row * here.stride + here.first,
            &from[place..place + count],
        );
    }
}

/// Puts the flag planes of so many chips, which lie chip by chip, into rows.
fn turn_flags(rows: &mut [Plane], here: Band, planes: &[Plane], count: usize)
    requires rows { length rows.old ≡ 16 * here.stride }
    requires here { here.first + count ≤ here.stride }
    requires near { here.stride < 2 ^ 20 }
    requires planes { count * 16 ≤ length planes.now }
    ensures value { AreTurnedRows here 16 16 count planes.now rows.old rows.new }
{
    for row in 0..FLAGS {
        turn_row::<FLAGS>(rows, row * here.stride + here.first, planes, row, count);
    }
}

/// Puts one plane of each of so many chips into a list from a place on. They lie a pitch apart, from `source` on.
#[inline(always)]
pub(crate) fn turn_row<const PITCH: usize>(
    rows: &mut [Plane],
    at: usize,
    planes: &[Plane],
    source: usize,
    count: usize,
)
    requires within { at + count ≤ length rows.old }
    requires source { source < PITCH }
    requires planes { count * PITCH ≤ length planes.now }
    ensures value { IsRowTurned at source PITCH count planes.now rows.old rows.new }
{
    for c in 0..count {
        rows[at + c] = planes[c * PITCH + source];
    }
}

/// Writes a word for each of so many chips, from one on. They lie `PITCH` words apart.
pub(crate) fn write_row(planes: &mut [Plane], chip: usize, at: usize, words: &[Plane])
    requires at { at < 4096 }
    requires planes { (chip + length words.now) * 4128 ≤ length planes.old }
    ensures value { (c : ℕ) → c < length words.now
        → slice_index planes.new ((chip + c) * 4128 + at) ≡ slice_index words.now c }
    ensures others { (c i : ℕ) → i < 4096 → (c < chip) ⊎ (i ≢ at)
        → slice_index planes.new (c * 4128 + i) ≡ slice_index planes.old (c * 4128 + i) }
{
    for c in 0..words.len() {
        planes[(chip + c) * PITCH + at] = words[c];
    }
}
