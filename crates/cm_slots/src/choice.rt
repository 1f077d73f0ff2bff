//! Who leaves each chip of a row of tiles' lanes, where lower numbers go first: the places are found row by row, each
//! by a step that does the same at all chips, and then one pass lets out who stands at its chip's place.

ghost use Rattle.std.specs.Prelude.{◌≡◌, ℕ, ◌<◌, ◌≤◌, length, min, slice_index, if◌then◌else◌, nat_lt, nat_le};
ghost use Rattle.cm_slots.specs.Slots.{slot_in, slot_behind, IsCarried, AreSlotRows};
ghost use Rattle.cm_slots.specs.Choice.{slot_key, place_found, IsLeast, IsFound};

use crate::rows::{Row, WIDTH, has_to_cross};

/// More than any key but that of a first slot where nobody stands.
const MOST: u32 = 2_097_151;

/// Keys of those that have to cross are lower than this, and all others are not.
const FAR: u32 = 1_048_576;

/// The place that nobody has: who is carried as far is the last.
const NOBODY: u32 = 15;

/// By chip, of so many slots and one, the place of the lowest number of those that have to cross the dimension, or
/// where none has to and the last slot is taken, that of the highest, or else a place behind all.
pub(crate) fn places(first: &Row, rest: &[Row], count: usize, dim: u8) -> Row
    requires dimension { dim < 12 }
    requires count { count ≤ 14 }
    requires shape { AreSlotRows first.now rest.now }
    ensures value { (i : ℕ) → i < 64
        → IsFound dim count (slot_in first.now rest.now i) (slice_index result i) }
    ensures long { length result ≡ 64 }
{
    let mut least = [MOST; WIDTH];
    lower(&mut least, first, dim, 0);
    for k in 0..count {
        lower(&mut least, &rest[k], dim, k as u32 + 1);
    }
    let last = if count == 0 { first } else { &rest[count - 1] };
    find(&mut least, last);
    least
}

/// At each chip, the lower of what is there and of the key of who stands in this row.
#[inline(never)]
fn lower(least: &mut Row, row: &Row, dim: u8, place: u32)
    requires dimension { dim < 12 }
    requires place { place < 15 }
    requires long { length least.old ≡ 64 }
    requires wide { length row.now ≡ 64 }
    ensures value { (i : ℕ) → i < 64 → slice_index least.new i ≡ min (slot_key dim place (slice_index row.now i))
        (slice_index least.old i) }
    ensures long { length least.new ≡ 64 }
{
    for i in 0..WIDTH {
        let key = key(row[i], dim, place);
        let was = least[i];
        least[i] = if key < was { key } else { was };
    }
}

/// What the tickets of a chip are ordered by: of those that have to cross the lowest number goes first, and before all
/// others; of these the highest; of one number, in the first case who came first, in the second who came last.
fn key(slot: u32, dim: u8, place: u32) -> u32
    requires dimension { dim < 12 }
    requires place { place < 15 }
    ensures value { result ≡ slot_key dim place slot }
{
    let mark = slot % 65536 * 16 + place;
    if has_to_cross(slot, dim) {
        mark
    } else {
        MOST - mark
    }
}

/// Puts the place in the place of the least key, at each chip whose last slot is given.
#[inline(never)]
fn find(least: &mut Row, last: &Row)
    requires long { length least.old ≡ 64 }
    requires wide { length last.now ≡ 64 }
    ensures value { (i : ℕ) → i < 64
        → slice_index least.new i ≡ place_found (slice_index least.old i) (slice_index last.now i) }
    ensures long { length least.new ≡ 64 }
{
    for i in 0..WIDTH {
        let key = least[i];
        let near = key % 16;
        let far = if last[i] == 0 { NOBODY } else { NOBODY - near };
        least[i] = if key < FAR { near } else { far };
    }
}

/// Takes out who leaves each chip: of so many slots and one who stands at the chip's place, or the last where that is
/// further on. The first row holds who leaves then, and in the rest the others close up.
pub(crate) fn leave_from(first: &mut Row, rest: &mut [Row], count: usize, places: &Row)
    requires count { count ≤ 14 }
    requires shape { AreSlotRows first.old rest.old }
    requires places { length places.now ≡ 64 }
    ensures value { (i : ℕ) → i < 64 → IsCarried (min (slice_index places.now i) count)
        (slot_in first.old rest.old i) (slice_index first.new i) (slot_behind rest.new i) }
    ensures shape { AreSlotRows first.new rest.new }
{
    for k in 0..count {
        pass_from(first, &mut rest[k], places, k as u32);
    }
}

/// At each chip, who is carried is carried on from the chip's place on; before it, who is carried stays in this row,
/// and what was there is carried on.
#[inline(never)]
fn pass_from(carried: &mut Row, row: &mut Row, places: &Row, place: u32)
    requires long { length carried.old ≡ 64 }
    requires wide { length row.old ≡ 64 }
    requires places { length places.now ≡ 64 }
    ensures carried { (i : ℕ) → i < 64 → slice_index carried.new i
        ≡ (if nat_le (slice_index places.now i) place then slice_index carried.old i else slice_index row.old i) }
    ensures row { (i : ℕ) → i < 64 → slice_index row.new i
        ≡ (if nat_le (slice_index places.now i) place then slice_index row.old i else slice_index carried.old i) }
    ensures long { length carried.new ≡ 64 }
    ensures wide { length row.new ≡ 64 }
{
    for i in 0..WIDTH {
        let here = carried[i];
        let next = row[i];
        let goes = places[i] <= place;
        carried[i] = if goes { here } else { next };
        row[i] = if goes { next } else { here };
    }
}
