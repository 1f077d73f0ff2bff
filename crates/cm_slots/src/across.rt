//! What crosses a dimension, from a tile to the one across.

ghost use Rattle.std.specs.Prelude.{◌≡◌, ◌≢◌, ℕ, ◌%◌, ◌^◌, ◌<◌, length, slice_index, bit_xor, IfSome, IsFalse, false};
ghost use Rattle.std.specs.Prelude.{None};
ghost use Rattle.cm_slots.specs.Slots.{slot_across, leaver_at, is_arrival};
ghost use Rattle.cm_slots.specs.Runs.{tile_across, place_across};
ghost use Rattle.cm_slots.specs.Moves.{slot_over};

use crate::rows::{Row, WIDTH};

/// The tile across a dimension: the same one, where the chips across stand in the same tile.
pub(crate) fn tile_across(tile: usize, dim: u8) -> usize
    requires dimension { dim < 12 }
    ensures value { result ≡ tile_across dim tile }
{
    tile ^ (1 << dim) / WIDTH
}

/// Puts down who leaves, as they arrive: the bit that is crossed has flipped. A row that lies there is written over.
pub(crate) fn put_leavers(leavers: &mut Option<Row>, row: &Row, dim: u8)
    requires dimension { dim < 12 }
    requires long { length row.now ≡ 64 }
    ensures value { (i : ℕ) → i < 64 → leaver_at leavers.new i ≡ slot_across dim (slice_index row.now i) }
    ensures long { IfSome leavers.new (λ row. length row ≡ 64) }
    ensures some { leavers.new ≢ None }
{
    match leavers {
        Some(going) => flip(going, row, dim),
        None => *leavers = Some(flipped(row, dim)),
    }
}

fn flipped(row: &Row, dim: u8) -> Row
    requires dimension { dim < 12 }
    requires long { length row.now ≡ 64 }
    ensures value { (i : ℕ) → i < 64 → slice_index result i ≡ slot_across dim (slice_index row.now i) }
    ensures long { length result ≡ 64 }
{
    let mut going = [0; WIDTH];
    flip(&mut going, row, dim);
    going
}

#[inline(never)]
fn flip(going: &mut Row, row: &Row, dim: u8)
    requires dimension { dim < 12 }
    requires long { length row.now ≡ 64 }
    ensures value { (i : ℕ) → i < 64 → slice_index going.new i ≡ slot_across dim (slice_index row.now i) }
    ensures long { length going.new ≡ 64 }
{
    for i in 0..WIDTH {
        going[i] = across(row[i], dim);
    }
}

/// What arrives at a slot across a dimension.
fn across(slot: u32, dim: u8) -> u32
    requires dimension { dim < 12 }
    ensures value { result ≡ slot_across dim slot }
{
    if slot == 0 { 0 } else { slot ^ 1 << (16 + dim) }
}

/// Puts down who leaves each of two tiles at the other, as they arrive. The chips across stand at the same places.
#[inline(never)]
pub(crate) fn trade(here: &mut Row, there: &mut Row, dim: u8)
    requires dimension { dim < 12 }
    requires here { length here.old ≡ 64 }
    requires there { length there.old ≡ 64 }
    ensures here { (i : ℕ) → i < 64 → slice_index here.new i ≡ slot_across dim (slice_index there.old i) }
    ensures there { (i : ℕ) → i < 64 → slice_index there.new i ≡ slot_across dim (slice_index here.old i) }
    ensures here_wide { length here.new ≡ 64 }
    ensures there_wide { length there.new ≡ 64 }
{
    for i in 0..WIDTH {
        let going = across(here[i], dim);
        here[i] = across(there[i], dim);
        there[i] = going;
    }
}

/// Puts down who leaves the tile across, as they arrive.
pub(crate) fn put_across(lanes: &mut Row, row: &Row, dim: u8)
    requires dimension { dim < 12 }
    requires long { length row.now ≡ 64 }
    requires wide { length lanes.old ≡ 64 }
    ensures value { (i : ℕ) → i < 64
        → slice_index lanes.new i ≡ slot_across dim (slice_index row.now (place_across dim i)) }
    ensures wide { length lanes.new ≡ 64 }
{
    put_over(lanes, row, 1 << dim);
}

/// Puts down who leaves as they arrive across the dimensions d of which bit d is set.
pub(crate) fn put_over(lanes: &mut Row, row: &Row, dims: u16)
    requires long { length row.now ≡ 64 }
    requires wide { length lanes.old ≡ 64 }
    ensures value { (i : ℕ) → i < 64
        → slice_index lanes.new i ≡ slot_over dims (slice_index row.now (bit_xor i (dims % 64))) }
    ensures wide { length lanes.new ≡ 64 }
{
    match dims % 4 {
        0 => put_fours_over::<0>(lanes, row, dims),
        1 => put_fours_over::<1>(lanes, row, dims),
        2 => put_fours_over::<2>(lanes, row, dims),
        _ => put_fours_over::<3>(lanes, row, dims),
    }
}

/// The same where the lowest two of the bits are known. Four lanes that stand side by side come from four that do, so
/// that they are moved at once.
#[inline(never)]
fn put_fours_over<const LOW: usize>(lanes: &mut Row, row: &Row, dims: u16)
    requires low { dims % 4 ≡ LOW }
    requires long { length row.now ≡ 64 }
    requires wide { length lanes.old ≡ 64 }
    ensures value { (i : ℕ) → i < 64
        → slice_index lanes.new i ≡ slot_over dims (slice_index row.now (bit_xor i (dims % 64))) }
    ensures wide { length lanes.new ≡ 64 }
{
    for k in 0..WIDTH / 4 {
        let from = (k ^ usize::from(dims) % WIDTH / 4) * 4;
        let first = over(row[from + LOW], dims);
        let second = over(row[from + (LOW ^ 1)], dims);
        let third = over(row[from + (LOW ^ 2)], dims);
        let fourth = over(row[from + (LOW ^ 3)], dims);
        lanes[k * 4] = first;
        lanes[k * 4 + 1] = second;
        lanes[k * 4 + 2] = third;
        lanes[k * 4 + 3] = fourth;
    }
}

/// Whether in some lane of a row a ticket stands whose message arrives across these dimensions. All lanes are looked
/// at, many at once.
#[inline(never)]
pub(crate) fn has_arrival_over(row: &Row, dims: u16) -> bool
    requires long { length row.now ≡ 64 }
    ensures none { IsFalse result → (i : ℕ) → i < 64 → is_arrival (slot_over dims (slice_index row.now i)) ≡ false }
{
    let mut seen = false;
    for i in 0..WIDTH {
        let arriving = over(row[i], dims);
        seen |= arriving != 0 && arriving < 65536;
    }
    seen
}

/// What arrives at a slot across these dimensions.
fn over(slot: u32, dims: u16) -> u32
    ensures value { result ≡ slot_over dims slot }
{
    if slot == 0 {
        0
    } else {
        slot ^ u32::from(dims) * 65536
    }
}
