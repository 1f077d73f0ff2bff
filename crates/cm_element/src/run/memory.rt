//! The rows of memory of a run, of which only those that are in use are kept.

ghost use Rattle.std.specs.Prelude.{◌≡◌, ◌≢◌, ◌⊎◌, ℕ, ◌+◌, ◌*◌, ◌<◌, ◌≤◌, ◌^◌, false, List, length};
ghost use Rattle.std.specs.Prelude.{slice_index, slice_set, IfOk, IsTrue, replicate, vec_capacity};
ghost use Rattle.cm_bits.specs.Bit.{bit};
ghost use Rattle.cm_model.specs.Array.{chip_at};
ghost use Rattle.cm_element.specs.Laid.{AreLaidRows, AreTurnedRows, IsRowLaid};
ghost use Rattle.cm_element.specs.Puts.{ArePut};
ghost use Rattle.cm_element.specs.Runs.{chips_of, AreRows};
ghost use Rattle.cm_element.specs.Sparse.{spread, AreMemorySlots};
ghost use Rattle.cm_element.specs.Steps.{ArePlaces, IsStored};
ghost use Rattle.cm_element.specs.Wide.{with_memory_field};
ghost use Rattle.cm_rows.specs.Rows.{IsComputed};

use crate::run::flags::has_ones;
use crate::run::lay::{Band, write_row};
use crate::run::outputs::store_row;
use crate::run::room::{ROOM, WIDTH, fill_room};
use crate::run::rows::put_row;
use crate::run::square::{EIGHT, SQUARE, put_eight, put_square, transpose};
use crate::run::{ADDRESSES, FIELD_PITCH, PITCH};
use crate::word::{SIXTEEN, bit_of, planes_of_bits, with_bit, with_bit_of};
use cm_bits::{Field, NoMemory, Plane, Proc};
use cm_model::Nano;
use cm_rows::{Places, compute, compute_memory};
use std::alloc::Global;
use std::marker::Model;

/// So many addresses are looked at at once for whether one of them has a row.
const SHELF: usize = 64;

/// So many times eight addresses there are.
const GROUPS: usize = ADDRESSES / EIGHT;

/// A row for each address. Room for all is reserved, but a row is made when first one of its words is
/// written: until then its address shares a row of zeros. Room that is never written costs nothing.
///
/// Contracts see all rows one after another, as one list of words.
#[derive(Drop)]
pub(crate) struct MemoryRows {
    words: Vec<Plane>,
    slots: Vec<u16>,
    used: usize,
    stride: usize,
}

impl Model for MemoryRows {
    ghost use Rattle.std.specs.Prelude.{ℕ, List, vec_capacity};
    ghost use Rattle.cm_element.specs.Sparse.{spread, AreMemorySlots};

    ghost Value = { List ℕ };

    ghost view = { λ rows. spread rows.words.items rows.slots.items rows.stride };

    ghost invariant = { λ rows.
        AreMemorySlots rows.words.items (vec_capacity rows.words) rows.slots.items rows.used rows.stride };
}

impl MemoryRows {
    /// Rows of zeros, a stride long. Memory is taken twice.
    pub(crate) fn blank(alloc: Global, stride: usize) -> Result<MemoryRows, NoMemory>
        requires few { stride < 2 ^ 20 }
        ensures value { IfOk result (λ rows. rows ≡ replicate (4096 * stride) 0) }
    {
        let mut words = Vec::with_capacity(alloc, (ADDRESSES + 1) * stride)?;
        words.resize(stride, 0)?;
        let Ok(slots) = vec![in alloc; 0; ADDRESSES] else {
            return Err(NoMemory);
        };
        Ok(MemoryRows {
            words,
            slots,
            used: 1,
            stride,
        })
    }

    /// Second rows, with the words of these: what is in use is copied.
    pub(crate) fn copy(&self, alloc: Global) -> Result<MemoryRows, NoMemory>
        ensures value { IfOk result (λ rows. rows ≡ self.now) }
    {
        let mut words = Vec::with_capacity(alloc, (ADDRESSES + 1) * self.stride)?;
        words.extend_from_slice(&self.words)?;
        let slots = self.slots.to_vec(alloc)?;
        Ok(MemoryRows {
            words,
            slots,
            used: self.used,
            stride: self.stride,
        })
    }

    /// Whether an address has a row of its own. One without reads 0.
    pub(crate) fn is_in_use(&self, at: usize, stride: usize) -> bool
        requires at { at < 4096 }
        requires words { length self.now ≡ 4096 * stride }
        ensures blank { result ≡ false → (c : ℕ) → c < stride → slice_index self.now (at * stride + c) ≡ 0 }
    {
        self.slots[at] != 0
    }

    /// The words of an address, so many from the first on.
    pub(crate) fn row(&self, at: usize, stride: usize, count: usize) -> &[Plane]
        requires at { at < 4096 }
        requires words { length self.now ≡ 4096 * stride }
        requires count { count ≤ stride }
        ensures count { length result.now ≡ count }
        ensures value { (c : ℕ) → c < count → slice_index result.now c ≡ slice_index self.now (at * stride + c) }
    {
        let first = start(&self.words, &self.slots, self.used, self.stride, at);
        &self.words[first..first + count]
    }

    /// One word of an address.
    pub(crate) fn word(&self, at: usize, stride: usize, place: u16) -> Plane
        requires at { at < 4096 }
        requires words { length self.now ≡ 4096 * stride }
        requires place { place < stride }
        ensures value { result ≡ slice_index self.now (at * stride + place) }
    {
        self.words[start(&self.words, &self.slots, self.used, self.stride, at) + usize::from(place)]
    }

    /// Puts one word at an address.
    pub(crate) fn put(&mut self, at: usize, stride: usize, place: u16, word: Plane)
        requires at { at < 4096 }
        requires words { length self.old ≡ 4096 * stride }
        requires place { place < stride }
        ensures value { self.new ≡ slice_set self.old (at * stride + place) word }
    {
        if self.slots[at] == 0 {
            if word != 0 {
                self.put_first(at, stride, place, word);
            }
            return;
        }
        let here = start(&self.words, &self.slots, self.used, self.stride, at) + usize::from(place);
        self.words[here] = word;
    }

    /// The same where the address may have no row yet. It stands apart so that a word of a row in use costs one look.
    #[inline(never)]
    fn put_first(&mut self, at: usize, stride: usize, place: u16, word: Plane)
        requires at { at < 4096 }
        requires words { length self.old ≡ 4096 * stride }
        requires place { place < stride }
        ensures value { self.new ≡ slice_set self.old (at * stride + place) word }
    {
        if word == 0 && self.slots[at] == 0 {
            return;
        }
        self.used = own(&mut self.words, &mut self.slots, self.used, self.stride, at);
        let here = start(&self.words, &self.slots, self.used, self.stride, at) + usize::from(place);
        self.words[here] = word;
    }

    /// Puts the lowest bits of a number into a field of one processor of the chip that has this place in
    /// each row, and says how many: all before the first 1 at an address that has no row yet.
    pub(crate) fn put_field(
        &mut self,
        stride: usize,
        place: u16,
        proc: Proc,
        field: Field,
        value: u64,
    ) -> usize
        requires words { length self.old ≡ 4096 * stride }
        requires place { place < stride }
        ensures value { (flags : List ℕ) → (chips : ℕ) → AreRows self.old flags stride chips → place < chips
            → chips_of self.new flags stride chips ≡ slice_set (chips_of self.old flags stride chips) place
            (with_memory_field (chip_at (chips_of self.old flags stride chips) place) proc field.at result value) }
        ensures within { result ≤ field.len }
        ensures words { length self.new ≡ length self.old }
    {
        let spot = Spot {
            stride: self.stride,
            place,
        };
        put_bits(&mut self.words, &self.slots, spot, proc, field, value)
    }

    /// Both tables of an instruction over the rows of its addresses and flags, at so many words of each.
    pub(crate) fn compute(
        &mut self,
        nano: &Nano,
        stride: usize,
        chained: bool,
        always: bool,
        flags: &mut [Plane],
        at: Places,
        count: usize,
    )
        requires words { length self.old ≡ 4096 * stride }
        requires flags { length flags.old ≡ 16 * stride }
        requires places { ArePlaces nano.now stride at }
        requires count { count ≤ stride }
        ensures memory { IsComputed nano.now.mem_table false always nano.now.sense at at.a 0 count
            self.old flags.old self.old self.new }
        ensures flags { IsComputed nano.now.flag_table chained always nano.now.sense at at.write 0 count
            self.old flags.old flags.old flags.new }
        ensures words { length self.new ≡ length self.old }
    {
        let a = usize::from(nano.a.get());
        let b = usize::from(nano.b.get());
        self.used = own(&mut self.words, &mut self.slots, self.used, self.stride, a);
        let here = Places {
            a: start(&self.words, &self.slots, self.used, self.stride, a),
            b: start(&self.words, &self.slots, self.used, self.stride, b),
            read: at.read,
            write: at.write,
            cond: at.cond,
        };
        compute(
            (nano.mem_table, nano.flag_table),
            chained,
            always,
            nano.sense,
            &mut self.words,
            flags,
            here,
            count,
        );
    }

    /// The table for memory alone.
    pub(crate) fn compute_memory(
        &mut self,
        nano: &Nano,
        stride: usize,
        always: bool,
        flags: &[Plane],
        at: Places,
        count: usize,
    )
        requires words { length self.old ≡ 4096 * stride }
        requires flags { length flags.now ≡ 16 * stride }
        requires places { ArePlaces nano.now stride at }
        requires count { count ≤ stride }
        ensures memory { IsComputed nano.now.mem_table false always nano.now.sense at at.a 0 count
            self.old flags.now self.old self.new }
        ensures words { length self.new ≡ length self.old }
    {
        let a = usize::from(nano.a.get());
        let b = usize::from(nano.b.get());
        self.used = own(&mut self.words, &mut self.slots, self.used, self.stride, a);
        let here = Places {
            a: start(&self.words, &self.slots, self.used, self.stride, a),
            b: start(&self.words, &self.slots, self.used, self.stride, b),
            read: at.read,
            write: at.write,
            cond: at.cond,
        };
        compute_memory(
            nano.mem_table,
            always,
            nano.sense,
            &mut self.words,
            flags,
            here,
            count,
        );
    }

    /// Stores planes at an address where the condition holds.
    pub(crate) fn store(&mut self, at: usize, stride: usize, holds: &[Plane], planes: &[Plane])
        requires at { at < 4096 }
        requires words { length self.old ≡ 4096 * stride }
        requires holds { length holds.now ≡ length planes.now }
        requires count { length planes.now ≤ stride }
        ensures value { IsStored (at * stride) holds.now planes.now self.old self.new }
        ensures words { length self.new ≡ length self.old }
    {
        self.used = own(&mut self.words, &mut self.slots, self.used, self.stride, at);
        let here = start(&self.words, &self.slots, self.used, self.stride, at);
        store_row(&mut self.words, here, holds, planes);
    }

    /// Copies so many words of each row of others. Where no row is in use, zeros need no copy.
    pub(crate) fn lay(&mut self, here: Band, from: &MemoryRows, there: Band, count: usize)
        requires to { length self.old ≡ 4096 * here.stride }
        requires from { length from.now ≡ 4096 * there.stride }
        requires here { here.first + count ≤ here.stride }
        requires there { there.first + count ≤ there.stride }
        ensures value { AreLaidRows here there 4096 count from.now self.old self.new }
        ensures words { length self.new ≡ length self.old }
    {
        if self.used == 1 && from.used == 1 {
            return;
        }
        let mut row = next_in_use(&self.slots, &from.slots, 0);
        while row < ADDRESSES {
            self.lay_row(row, here, from, there, count);
            row = next_in_use(&self.slots, &from.slots, row + 1);
        }
    }

    /// Copies so many words of one row.
    fn lay_row(&mut self, row: usize, here: Band, from: &MemoryRows, there: Band, count: usize)
        requires row { row < 4096 }
        requires to { length self.old ≡ 4096 * here.stride }
        requires from { length from.now ≡ 4096 * there.stride }
        requires here { here.first + count ≤ here.stride }
        requires there { there.first + count ≤ there.stride }
        ensures value { IsRowLaid (row * here.stride + here.first) (row * there.stride + there.first) count
            from.now self.old self.new }
        ensures words { length self.new ≡ length self.old }
    {
        let words = from.row(row, there.stride, there.first + count);
        self.fill(row, here, &words[there.first..]);
    }

    /// Writes the planes of so many chips chip by chip: eight chips at once, and those that remain one by one.
    pub(crate) fn write(&self, there: Band, count: usize, planes: &mut [Plane])
        requires words { length self.now ≡ 4096 * there.stride }
        requires there { there.first + count ≤ there.stride }
        requires planes { count * 4128 ≤ length planes.old }
        ensures value { (i c : ℕ) → i < 4096 → c < count → slice_index planes.new (c * 4128 + i)
            ≡ slice_index self.now (i * there.stride + (there.first + c)) }
    {
        let eights = count / EIGHT;
        self.write_eights(there, eights, planes);
        self.write_rest(there, eights * EIGHT, count, planes);
    }

    /// Writes those of so many times eight chips.
    fn write_eights(&self, there: Band, eights: usize, planes: &mut [Plane])
        requires words { length self.now ≡ 4096 * there.stride }
        requires there { there.first + eights * 8 ≤ there.stride }
        requires planes { eights * 8 * 4128 ≤ length planes.old }
        ensures value { (i c : ℕ) → i < 4096 → c < eights * 8 → slice_index planes.new (c * 4128 + i)
            ≡ slice_index self.now (i * there.stride + (there.first + c)) }
    {
        let from = &self.words[there.first..];
        turn_eights(from, &self.slots, self.stride, eights, planes);
    }

    /// Writes those of the chips that remain when so many are done.
    fn write_rest(&self, there: Band, done: usize, count: usize, planes: &mut [Plane])
        requires words { length self.now ≡ 4096 * there.stride }
        requires there { there.first + count ≤ there.stride }
        requires done { done ≤ count }
        requires planes { count * 4128 ≤ length planes.old }
        ensures value { (i c : ℕ) → i < 4096 → done ≤ c → c < count → slice_index planes.new (c * 4128 + i)
            ≡ slice_index self.now (i * there.stride + (there.first + c)) }
        ensures others { (i c : ℕ) → i < 4096 → c < done
            → slice_index planes.new (c * 4128 + i) ≡ slice_index planes.old (c * 4128 + i) }
    {
        for row in 0..ADDRESSES {
            let words = self.row(row, there.stride, there.first + count);
            write_row(planes, done, row, &words[there.first + done..]);
        }
    }

    /// Writes the planes of eight chips at so many times eight addresses, chip by chip.
    pub(crate) fn write_squares(&self, at: usize, eights: usize, there: Band, planes: &mut [Plane])
        requires at { at + eights * 8 ≤ 4096 }
        requires eights { eights ≤ 8 }
        requires words { length self.now ≡ 4096 * there.stride }
        requires there { there.first + 8 ≤ there.stride }
        requires planes { length planes.old ≡ 512 }
        ensures value { (c k : ℕ) → c < 8 → k < eights * 8 → slice_index planes.new (c * 64 + k)
            ≡ slice_index self.now ((at + k) * there.stride + (there.first + c)) }
    {
        let from = &self.words[there.first..];
        turn_squares(from, &self.slots, self.stride, at, eights, planes);
    }

    /// Puts the planes of so many chips, which lie chip by chip, into the rows, at eight addresses at once.
    pub(crate) fn turn(&mut self, here: Band, planes: &[Plane], count: usize)
        requires to { length self.old ≡ 4096 * here.stride }
        requires here { here.first + count ≤ here.stride }
        requires planes { count * 4128 ≤ length planes.now }
        ensures value { AreTurnedRows here 4096 4128 count planes.now self.old self.new }
        ensures words { length self.new ≡ length self.old }
    {
        let mut room: [Plane; ROOM] = [0; ROOM];
        for g in 0..GROUPS {
            self.turn_rows(g * EIGHT, here, planes, count, &mut room);
        }
    }

    /// Puts those of eight addresses into their rows, by way of a room: of as many chips at once as it has columns.
    fn turn_rows(
        &mut self,
        at: usize,
        here: Band,
        planes: &[Plane],
        count: usize,
        room: &mut [Plane],
    )
        requires at { at + 8 ≤ 4096 }
        requires to { length self.old ≡ 4096 * here.stride }
        requires here { here.first + count ≤ here.stride }
        requires planes { count * 4128 ≤ length planes.now }
        requires room { length room.old ≡ 2048 }
        ensures laid { (k c : ℕ) → k < 8 → c < count
            → slice_index self.new ((at + k) * here.stride + (here.first + c))
            ≡ slice_index planes.now (c * 4128 + (at + k)) }
        ensures others { (i k : ℕ) → k < here.stride
            → ((i < at) ⊎ (at + 8 ≤ i)) ⊎ ((k < here.first) ⊎ (here.first + count ≤ k))
            → slice_index self.new (i * here.stride + k) ≡ slice_index self.old (i * here.stride + k) }
        ensures words { length self.new ≡ length self.old }
    {
        let mut done = 0;
        while done < count {
            let some = WIDTH.min(count - done);
            fill_room(room, planes, done, at, some);
            let part = Band {
                stride: here.stride,
                first: here.first + done,
            };
            self.lay_room(at, part, room, some);
            done += some;
        }
    }

    /// Puts so many words of each row of a room into the row of its address.
    fn lay_room(&mut self, at: usize, here: Band, room: &[Plane], some: usize)
        requires at { at + 8 ≤ 4096 }
        requires to { length self.old ≡ 4096 * here.stride }
        requires here { here.first + some ≤ here.stride }
        requires room { length room.now ≡ 2048 }
        requires some { some ≤ 256 }
        ensures laid { (k c : ℕ) → k < 8 → c < some
            → slice_index self.new ((at + k) * here.stride + (here.first + c)) ≡ slice_index room.now (k * 256 + c) }
        ensures others { (i k : ℕ) → k < here.stride
            → ((i < at) ⊎ (at + 8 ≤ i)) ⊎ ((k < here.first) ⊎ (here.first + some ≤ k))
            → slice_index self.new (i * here.stride + k) ≡ slice_index self.old (i * here.stride + k) }
        ensures words { length self.new ≡ length self.old }
    {
        for k in 0..EIGHT {
            self.fill(at + k, here, &room[k * WIDTH..k * WIDTH + some]);
        }
    }

    /// Puts words into the row of an address.
    fn fill(&mut self, row: usize, here: Band, words: &[Plane])
        requires row { row < 4096 }
        requires to { length self.old ≡ 4096 * here.stride }
        requires here { here.first + length words.now ≤ here.stride }
        ensures value { IsRowLaid (row * here.stride + here.first) 0 (length words.now) words.now self.old self.new }
        ensures words { length self.new ≡ length self.old }
    {
        self.used = own(
            &mut self.words,
            &mut self.slots,
            self.used,
            self.stride,
            row,
        );
        let place = start(&self.words, &self.slots, self.used, self.stride, row) + here.first;
        put_row(&mut self.words, place, words);
    }
}

/// Where the row of an address begins, or that of zeros, which it shares.
fn start(words: &Vec<Plane>, slots: &Vec<u16>, used: usize, stride: usize, at: usize) -> usize
    requires slots { AreMemorySlots words.now.items (vec_capacity words.now) slots.now.items used stride }
    requires at { at < 4096 }
    ensures value { result ≡ slice_index slots.now.items at * stride }
    ensures within { result + stride ≤ length words.now.items }
{
    usize::from(slots[at]) * stride
}

/// Writes the planes of so many times eight chips, chip by chip: at eight addresses at once. The words are those from
/// the first of these chips on. They are given as slices, so that no word that is written can be one that tells
/// where the words lie: nothing is looked up again for each eight.
fn turn_eights(words: &[Plane], slots: &[u16], stride: usize, eights: usize, planes: &mut [Plane])
    requires slots { length slots.now ≡ 4096 }
    requires few { stride < 2 ^ 20 }
    requires rows { (i : ℕ) → i < 4096 → slice_index slots.now i * stride + eights * 8 ≤ length words.now }
    requires planes { eights * 8 * 4128 ≤ length planes.old }
    ensures value { (i c : ℕ) → i < 4096 → c < eights * 8 → slice_index planes.new (c * 4128 + i)
        ≡ slice_index words.now (slice_index slots.now i * stride + c) }
{
    for g in 0..GROUPS {
        turn_chips(words, slots, stride, g * EIGHT, eights, planes);
    }
}

/// Writes those of eight addresses.
fn turn_chips(
    words: &[Plane],
    slots: &[u16],
    stride: usize,
    at: usize,
    eights: usize,
    planes: &mut [Plane],
)
    requires slots { length slots.now ≡ 4096 }
    requires few { stride < 2 ^ 20 }
    requires rows { (i : ℕ) → i < 4096 → slice_index slots.now i * stride + eights * 8 ≤ length words.now }
    requires at { at + 8 ≤ 4096 }
    requires planes { eights * 8 * 4128 ≤ length planes.old }
    ensures value { (c k : ℕ) → c < eights * 8 → k < 8 → slice_index planes.new (c * 4128 + (at + k))
        ≡ slice_index words.now (slice_index slots.now (at + k) * stride + c) }
    ensures others { (c i : ℕ) → i < 4128 → (i < at) ⊎ (at + 8 ≤ i)
        → slice_index planes.new (c * 4128 + i) ≡ slice_index planes.old (c * 4128 + i) }
{
    for q in 0..eights {
        let chips = Band {
            stride,
            first: q * EIGHT,
        };
        turn_square::<PITCH>(words, slots, chips, at, planes, at);
    }
}

/// Writes the planes of eight chips at so many times eight addresses, chip by chip. It is given slices, as
/// `turn_eights` is.
fn turn_squares(
    words: &[Plane],
    slots: &[u16],
    stride: usize,
    at: usize,
    eights: usize,
    planes: &mut [Plane],
)
    requires slots { length slots.now ≡ 4096 }
    requires few { stride < 2 ^ 20 }
    requires rows { (i : ℕ) → i < 4096 → slice_index slots.now i * stride + 8 ≤ length words.now }
    requires at { at + eights * 8 ≤ 4096 }
    requires eights { eights ≤ 8 }
    requires planes { length planes.old ≡ 512 }
    ensures value { (c k : ℕ) → c < 8 → k < eights * 8 → slice_index planes.new (c * 64 + k)
        ≡ slice_index words.now (slice_index slots.now (at + k) * stride + c) }
{
    let chips = Band { stride, first: 0 };
    for g in 0..eights {
        turn_square::<FIELD_PITCH>(words, slots, chips, at + g * EIGHT, planes, g * EIGHT);
    }
}

/// Writes those of eight chips, from one on, at eight addresses, to a place of each chip. The compiler keeps the square
/// in registers.
#[inline(always)]
fn turn_square<const PITCH: usize>(
    words: &[Plane],
    slots: &[u16],
    chips: Band,
    at: usize,
    planes: &mut [Plane],
    to: usize,
)
    requires slots { length slots.now ≡ 4096 }
    requires few { chips.stride < 2 ^ 20 }
    requires rows { (i : ℕ) → i < 4096 → slice_index slots.now i * chips.stride + (chips.first + 8) ≤ length words.now }
    requires at { at + 8 ≤ 4096 }
    requires planes { (chips.first + 8) * PITCH ≤ length planes.old }
    requires to { to + 8 ≤ PITCH }
    ensures value { (c k : ℕ) → c < 8 → k < 8 → slice_index planes.new ((chips.first + c) * PITCH + (to + k))
        ≡ slice_index words.now (slice_index slots.now (at + k) * chips.stride + (chips.first + c)) }
    ensures others { (c i : ℕ) → i < PITCH → ((c < chips.first) ⊎ (chips.first + 8 ≤ c)) ⊎ ((i < to) ⊎ (to + 8 ≤ i))
        → slice_index planes.new (c * PITCH + i) ≡ slice_index planes.old (c * PITCH + i) }
{
    let mut square: [Plane; SQUARE] = [0; SQUARE];
    read_square(words, slots, chips, at, &mut square);
    transpose(&mut square);
    put_square::<PITCH>(planes, chips.first, to, &square);
}

/// Reads the words of eight chips, from one on, at eight addresses, row by row.
fn read_square(words: &[Plane], slots: &[u16], chips: Band, at: usize, square: &mut [Plane])
    requires slots { length slots.now ≡ 4096 }
    requires few { chips.stride < 2 ^ 20 }
    requires rows { (i : ℕ) → i < 4096 → slice_index slots.now i * chips.stride + (chips.first + 8) ≤ length words.now }
    requires at { at + 8 ≤ 4096 }
    requires square { length square.old ≡ 64 }
    ensures value { (k c : ℕ) → k < 8 → c < 8 → slice_index square.new (k * 8 + c)
        ≡ slice_index words.now (slice_index slots.now (at + k) * chips.stride + (chips.first + c)) }
{
    for k in 0..EIGHT {
        let slot = usize::from(slots[at + k]);
        put_eight(square, k * EIGHT, words, slot * chips.stride + chips.first);
    }
}

/// The first address from this one on that has a row of its own here or there; as many as there are, if none has.
fn next_in_use(slots: &[u16], others: &[u16], from: usize) -> usize
    requires slots { length slots.now ≡ 4096 }
    requires others { length others.now ≡ 4096 }
    requires from { from ≤ 4096 }
    ensures none { (i : ℕ) → from ≤ i → i < result → slice_index slots.now i ≡ 0 }
    ensures none_there { (i : ℕ) → from ≤ i → i < result → slice_index others.now i ≡ 0 }
    ensures used { result < 4096 → slice_index slots.now result ≡ 0 → slice_index others.now result ≢ 0 }
    ensures from { from ≤ result }
    ensures most { result ≤ 4096 }
{
    let mut at = from;
    while at < ADDRESSES {
        if slots[at] != 0 || others[at] != 0 {
            return at;
        }
        at += passed(slots, others, at);
    }
    at
}

/// How many addresses, from one on that has no row, surely have none: many at once are looked at where they begin.
fn passed(slots: &[u16], others: &[u16], at: usize) -> usize
    requires slots { length slots.now ≡ 4096 }
    requires others { length others.now ≡ 4096 }
    requires at { at < 4096 }
    requires none { slice_index slots.now at ≡ 0 }
    requires none_there { slice_index others.now at ≡ 0 }
    ensures none { (i : ℕ) → i < result → slice_index slots.now (at + i) ≡ 0 }
    ensures none_there { (i : ℕ) → i < result → slice_index others.now (at + i) ≡ 0 }
    ensures some { 0 < result }
    ensures within { at + result ≤ 4096 }
{
    if at % SHELF != 0 {
        return 1;
    }
    let end = at + SHELF;
    if has_ones(&slots[at..end]) || has_ones(&others[at..end]) {
        return 1;
    }
    SHELF
}

/// Gives an address a row of its own, unless it has one. How many rows are in use then.
fn own(words: &mut Vec<Plane>, slots: &mut Vec<u16>, used: usize, stride: usize, at: usize) -> usize
    requires slots { AreMemorySlots words.old.items (vec_capacity words.old) slots.old.items used stride }
    requires at { at < 4096 }
    ensures slots { AreMemorySlots words.new.items (vec_capacity words.new) slots.new.items result stride }
    ensures own { 0 < slice_index slots.new.items at }
    ensures value { spread words.new.items slots.new.items stride ≡ spread words.old.items slots.old.items stride }
{
    if slots[at] != 0 {
        return used;
    }
    words.resize((used + 1) * stride, 0).unwrap();
    slots[at] = used as u16;
    used + 1
}

/// Where the words of a chip lie: at a place of each row, of which one begins a stride after another.
#[derive(Clone, Copy)]
struct Spot {
    stride: usize,
    place: u16,
}

/// Puts the bits of a field, as far as `put_field` says. It is given slices, so that no word that it writes
/// can be one that tells where the words lie: nothing is looked up again for each bit.
fn put_bits(
    words: &mut [Plane],
    slots: &[u16],
    spot: Spot,
    proc: Proc,
    field: Field,
    value: u64,
) -> usize
    requires slots { length slots.now ≡ 4096 }
    requires few { spot.stride < 2 ^ 20 }
    requires rows { (i : ℕ) → i < 4096 → slice_index slots.now i * spot.stride + spot.stride ≤ length words.old }
    requires place { spot.place < spot.stride }
    ensures value { ArePut words.old slots.now spot.stride spot.place proc field.at result value words.new }
    ensures within { result ≤ field.len }
    ensures words { length words.new ≡ length words.old }
{
    let at = usize::from(field.at());
    let len = usize::from(field.len());
    let put = put_sixteens(words, slots, spot, proc, field, value);
    for i in put..len {
        let bit = bit_of(value, i);
        let slot = usize::from(slots[at + i]);
        let here = slot * spot.stride + usize::from(spot.place);
        let word = with_bit(words[here], proc, bit);
        if slot != 0 {
            words[here] = word;
        } else if bit {
            return i;
        }
    }
    len
}

/// The same sixteen bits at once, as long as their rows are all in use; how many went.
fn put_sixteens(
    words: &mut [Plane],
    slots: &[u16],
    spot: Spot,
    proc: Proc,
    field: Field,
    number: u64,
) -> usize
    requires slots { length slots.now ≡ 4096 }
    requires few { spot.stride < 2 ^ 20 }
    requires rows { (i : ℕ) → i < 4096 → slice_index slots.now i * spot.stride + spot.stride ≤ length words.old }
    requires place { spot.place < spot.stride }
    ensures value { ArePut words.old slots.now spot.stride spot.place proc field.at result number words.new }
    ensures within { result ≤ field.len }
{
    let at = usize::from(field.at());
    let len = usize::from(field.len());
    let mut put = 0;
    let mut rest = number;
    while put + SIXTEEN <= len && are_in_use(slots, at + put) {
        let bits = (rest % 65536) as u16;
        put_sixteen(words, slots, spot, proc, at + put, bits);
        rest /= 65536;
        put += SIXTEEN;
    }
    put
}

/// Whether sixteen addresses, from one on, have rows of their own. All are looked at at once.
fn are_in_use(slots: &[u16], at: usize) -> bool
    requires slots { length slots.now ≡ 4096 }
    requires at { at + 16 ≤ 4096 }
    ensures own { IsTrue result → (i : ℕ) → i < 16 → 0 < slice_index slots.now (at + i) }
{
    let mut lacks = false;
    for i in 0..SIXTEEN {
        lacks |= slots[at + i] == 0;
    }
    !lacks
}

/// Puts sixteen bits into rows that are in use. The compiler knows how many, so that nothing is counted. It adds the
/// chip's place once and for all, since the words are taken from there on.
fn put_sixteen(words: &mut [Plane], slots: &[u16], spot: Spot, proc: Proc, at: usize, bits: u16)
    requires slots { length slots.now ≡ 4096 }
    requires few { spot.stride < 2 ^ 20 }
    requires rows { (i : ℕ) → i < 4096 → slice_index slots.now i * spot.stride + spot.stride ≤ length words.old }
    requires place { spot.place < spot.stride }
    requires at { at + 16 ≤ 4096 }
    requires own { (i : ℕ) → i < 16 → 0 < slice_index slots.now (at + i) }
    ensures value { (first : List ℕ) (from put number : ℕ) → at ≡ from + put
        → ((k : ℕ) → k < 16 → bit bits k ≡ bit number (put + k))
        → ArePut first slots.now spot.stride spot.place proc from put number words.old
        → ArePut first slots.now spot.stride spot.place proc from (put + 16) number words.new }
    ensures words { length words.new ≡ length words.old }
{
    let planes = planes_of_bits(bits, proc);
    for i in 0..SIXTEEN {
        let row = usize::from(slots[at + i]) * spot.stride;
        let column = &mut words[usize::from(spot.place)..];
        column[row] = with_bit_of(column[row], proc, planes[i]);
    }
}
