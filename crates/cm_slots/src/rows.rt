//! Rows of slots: the same slot of 64 chips that stand side by side. A step does the same at each of them,
//! whatever stands there, so that it takes several at once.

ghost use Rattle.std.specs.Prelude.{◌≡◌, ◌≢◌, ◌↔◌, ℕ, ◌+◌, ◌<◌, ◌≤◌, ◌==◌, ◌++◌, IsTrue, List, length, slice_index};
ghost use Rattle.std.specs.Prelude.{if◌then◌else◌, true, false, IsFalse};
ghost use Rattle.cm_slots.specs.Slots.{crosses, comers, slot_in, slot_behind, leaver_in, IsCarried, AreSlots};
ghost use Rattle.cm_slots.specs.Slots.{IsBlank, AreSlotRows, AreTaken, is_arrival, is_taken};
ghost use Rattle.cm_bits.specs.Bit.{bit};

use std::simd::prelude::*;

/// So many chips stand side by side.
pub(crate) const WIDTH: usize = 64;

/// Most tickets of a chip: so many slots has each.
pub(crate) const ROOM: usize = 15;

/// One slot of each of them.
pub(crate) type Row = [u32; WIDTH];

/// So many chips are gone through at once, slot after slot: who is carried at each stays in the processor meanwhile.
const LANES: usize = 16;

/// Who is carried at each of them.
type Lanes = [u32; LANES];

/// Takes out who leaves each chip: of so many slots and one the first that has to cross the dimension, or
/// else the last. The first row holds who leaves then, and in the rest the others close up.
pub(crate) fn leave(first: &mut Row, rest: &mut [Row], count: usize, dim: u8)
    requires dimension { dim < 12 }
    requires count { count ≤ 14 }
    requires shape { AreSlotRows first.old rest.old }
    ensures value { (i : ℕ) → i < 64 → IsCarried (leaver_in dim count (slot_in first.old rest.old i))
        (slot_in first.old rest.old i) (slice_index first.new i) (slot_behind rest.new i) }
    ensures shape { AreSlotRows first.new rest.new }
{
    for b in 0..WIDTH / LANES {
        leave_lanes(first, rest, count, dim, b * LANES);
    }
}

/// The same at the chips from a place on that are gone through at once.
fn leave_lanes(first: &mut Row, rest: &mut [Row], count: usize, dim: u8, at: usize)
    requires dimension { dim < 12 }
    requires count { count ≤ 14 }
    requires at { at + 16 ≤ 64 }
    requires shape { AreSlotRows first.old rest.old }
    ensures value { (j : ℕ) → j < 16 → IsCarried (leaver_in dim count (slot_in first.old rest.old (at + j)))
        (slot_in first.old rest.old (at + j)) (slice_index first.new (at + j)) (slot_behind rest.new (at + j)) }
    ensures before { (i j : ℕ) → i < at → slot_in first.new rest.new i j ≡ slot_in first.old rest.old i j }
    ensures behind { (i j : ℕ) → at + 16 ≤ i → slot_in first.new rest.new i j ≡ slot_in first.old rest.old i j }
    ensures shape { AreSlotRows first.new rest.new }
{
    let mut carried = lanes_from(first, at);
    for k in 0..count {
        pass_on(&mut carried, &mut rest[k], at, dim);
    }
    put_lanes(first, at, &carried);
}

/// Takes in who comes to each chip, which the first row holds: behind all who stand in so many slots.
pub(crate) fn take_in(first: &mut Row, rest: &mut [Row], count: usize)
    requires count { count ≤ 14 }
    requires shape { AreSlotRows first.old rest.old }
    requires taken { AreTaken first.old }
    ensures value { (i : ℕ) (xs : List ℕ) → i < 64 → length xs ≤ count → length xs < 15
        → AreSlots (slot_behind rest.old i) xs
        → AreSlots (slot_in first.new rest.new i) (xs ++ comers (slice_index first.old i)) }
    ensures shape { AreSlotRows first.new rest.new }
{
    for b in 0..WIDTH / LANES {
        take_in_lanes(first, rest, count, b * LANES);
    }
}

/// The same at the chips from a place on that are gone through at once.
fn take_in_lanes(first: &mut Row, rest: &mut [Row], count: usize, at: usize)
    requires count { count ≤ 14 }
    requires at { at + 16 ≤ 64 }
    requires shape { AreSlotRows first.old rest.old }
    requires taken { (j : ℕ) → j < 16 → slice_index first.old (at + j) ≢ 0
        → is_taken (slice_index first.old (at + j)) ≡ true }
    ensures value { (j : ℕ) (xs : List ℕ) → j < 16 → length xs ≤ count → length xs < 15
        → AreSlots (slot_behind rest.old (at + j)) xs
        → AreSlots (slot_in first.new rest.new (at + j)) (xs ++ comers (slice_index first.old (at + j))) }
    ensures before { (i j : ℕ) → i < at → slot_in first.new rest.new i j ≡ slot_in first.old rest.old i j }
    ensures behind { (i j : ℕ) → at + 16 ≤ i → slot_in first.new rest.new i j ≡ slot_in first.old rest.old i j }
    ensures shape { AreSlotRows first.new rest.new }
{
    let mut carried = lanes_from(first, at);
    for k in (0..count).rev() {
        pass_back(&mut carried, &mut rest[k], at);
    }
    put_lanes(first, at, &carried);
}

/// So many lanes of a row, from a place on.
fn lanes_from(row: &Row, at: usize) -> Lanes
    requires at { at + 16 ≤ 64 }
    requires long { length row.now ≡ 64 }
    ensures value { (j : ℕ) → j < 16 → slice_index result j ≡ slice_index row.now (at + j) }
    ensures long { length result ≡ 16 }
{
    let mut lanes = [0; LANES];
    for j in 0..LANES {
        lanes[j] = row[at + j];
    }
    lanes
}

/// Puts them back.
fn put_lanes(row: &mut Row, at: usize, lanes: &Lanes)
    requires at { at + 16 ≤ 64 }
    requires wide { length row.old ≡ 64 }
    requires long { length lanes.now ≡ 16 }
    ensures value { (j : ℕ) → j < 16 → slice_index row.new (at + j) ≡ slice_index lanes.now j }
    ensures before { (i : ℕ) → i < at → slice_index row.new i ≡ slice_index row.old i }
    ensures behind { (i : ℕ) → at + 16 ≤ i → slice_index row.new i ≡ slice_index row.old i }
    ensures wide { length row.new ≡ 64 }
{
    for j in 0..LANES {
        row[at + j] = lanes[j];
    }
}

/// At each chip, who has to cross the dimension is carried on; who has not stays in this row, and what was
/// there is carried on.
fn pass_on(carried: &mut Lanes, row: &mut Row, at: usize, dim: u8)
    requires dimension { dim < 12 }
    requires at { at + 16 ≤ 64 }
    requires long { length carried.old ≡ 16 }
    requires wide { length row.old ≡ 64 }
    ensures carried { (j : ℕ) → j < 16 → slice_index carried.new j ≡ (if crosses dim (slice_index carried.old j)
        then slice_index carried.old j else slice_index row.old (at + j)) }
    ensures row { (j : ℕ) → j < 16 → slice_index row.new (at + j) ≡ (if crosses dim (slice_index carried.old j)
        then slice_index row.old (at + j) else slice_index carried.old j) }
    ensures before { (i : ℕ) → i < at → slice_index row.new i ≡ slice_index row.old i }
    ensures behind { (i : ℕ) → at + 16 ≤ i → slice_index row.new i ≡ slice_index row.old i }
    ensures long { length carried.new ≡ 16 }
    ensures wide { length row.new ≡ 64 }
{
    for j in 0..LANES {
        let here = carried[j];
        let next = row[at + j];
        let goes = has_to_cross(here, dim);
        carried[j] = if goes { here } else { next };
        row[at + j] = if goes { next } else { here };
    }
}

/// At each chip, who is carried stays in this row where somebody stood there, who is carried on.
fn pass_back(carried: &mut Lanes, row: &mut Row, at: usize)
    requires at { at + 16 ≤ 64 }
    requires long { length carried.old ≡ 16 }
    requires wide { length row.old ≡ 64 }
    ensures carried { (j : ℕ) → j < 16 → slice_index carried.new j
        ≡ (if slice_index row.old (at + j) == 0 then slice_index carried.old j else slice_index row.old (at + j)) }
    ensures row { (j : ℕ) → j < 16 → slice_index row.new (at + j)
        ≡ (if slice_index row.old (at + j) == 0 then 0 else slice_index carried.old j) }
    ensures before { (i : ℕ) → i < at → slice_index row.new i ≡ slice_index row.old i }
    ensures behind { (i : ℕ) → at + 16 ≤ i → slice_index row.new i ≡ slice_index row.old i }
    ensures long { length carried.new ≡ 16 }
    ensures wide { length row.new ≡ 64 }
{
    for j in 0..LANES {
        let here = carried[j];
        let next = row[at + j];
        let none = next == 0;
        carried[j] = if none { here } else { next };
        row[at + j] = if none { 0 } else { here };
    }
}

/// Whether all lanes of a row are 0.
pub(crate) fn is_blank(row: &Row) -> bool
    requires long { length row.now ≡ 64 }
    ensures none { IsTrue result ↔ IsBlank row.now }
{
    let mut all = 0;
    for i in 0..WIDTH {
        all |= row[i];
    }
    all == 0
}

/// In which lanes of a row a ticket stands whose message has arrived: bit i is 1 for lane i.
#[inline(never)]
pub(crate) fn arrivals(row: &Row) -> u64
    requires long { length row.now ≡ 64 }
    ensures value { (i : ℕ) → i < 64 → bit result i ≡ is_arrival (slice_index row.now i) }
{
    let slots = u32x64::from_slice(row);
    (slots.simd_ne(u32x64::splat(0)) & slots.simd_lt(u32x64::splat(65536))).to_bitmask()
}

/// Whether the message of a slot's ticket has to cross a dimension.
#[tactic(auto, using(std::proofs::lemmas::Nat::Bits::shr_and_one))]
pub(crate) fn has_to_cross(slot: u32, dim: u8) -> bool
    requires dimension { dim < 12 }
    ensures value { result ≡ crosses dim slot }
{
    slot >> (16 + dim) & 1 == 1
}
