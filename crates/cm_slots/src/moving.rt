//! Tickets of which one at most stands at each chip move over several dimensions at once.

ghost use Rattle.std.specs.Prelude.{◌≡◌, ℕ, ◌/◌, ◌<◌, length, map, bit_xor, IsFalse, false};
ghost use Rattle.std.specs.List.{All, list_any};
ghost use Rattle.cm_slots.specs.Tickets.{has_come};
ghost use Rattle.cm_slots.specs.Tiles.{IsTile};
ghost use Rattle.cm_slots.specs.Runs.{tile_at, leavers_at, tickets_of, AreWithin};
ghost use Rattle.cm_slots.specs.Moves.{ticket_over, AreFirst, HasMoved, AreQueues, AreSettled};

use crate::rows::{Row, WIDTH};
use crate::tile::Tile;

/// Moves all tickets of a run of chips over the dimensions that were noted, and notes none.
pub(crate) fn settle(tiles: &mut Vec<Tile>, leaving: &mut Vec<Option<Row>>, noted: &mut u16)
    requires queues { (chips : ℕ) × AreQueues noted.old chips tiles.old leaving.old }
    ensures value { (chips : ℕ) → AreQueues noted.old chips tiles.old leaving.old
        → AreSettled noted.old chips tiles.old tiles.new leaving.new }
    ensures none { noted.new ≡ 0 }
{
    if *noted != 0 {
        move_over(tiles, leaving, *noted);
        *noted = 0;
    }
}

/// All tickets move over the dimensions d of which bit d is set. Who stands at each tile is put down here meanwhile. It
/// stands apart so that one look tells where no dimension was noted.
#[inline(never)]
fn move_over(tiles: &mut [Tile], firsts: &mut [Option<Row>], dims: u16)
    requires rows { length firsts.old ≡ length tiles.old }
    requires across { (t : ℕ) → t < length tiles.old → bit_xor t (dims / 64) < length tiles.old }
    requires whole { All IsTile tiles.old }
    requires few { AreWithin 1 tiles.old }
    ensures value { (c : ℕ) → c / 64 < length tiles.old
        → tickets_of tiles.new c ≡ map (ticket_over dims) (tickets_of tiles.old (bit_xor c dims)) }
    ensures whole { All IsTile tiles.new }
{
    lift(tiles, firsts);
    put_down(tiles, firsts, dims);
}

/// Writes down who stands at each tile.
fn lift(tiles: &[Tile], firsts: &mut [Option<Row>])
    requires rows { length firsts.old ≡ length tiles.now }
    requires whole { All IsTile tiles.now }
    ensures value { (t : ℕ) → t < length tiles.now → AreFirst (tile_at tiles.now t) (leavers_at firsts.new t) }
{
    for t in 0..tiles.len() {
        tiles[t].lift(&mut firsts[t]);
    }
}

/// Puts down at each tile who stood at the tile across these dimensions.
fn put_down(tiles: &mut [Tile], firsts: &[Option<Row>], dims: u16)
    requires rows { length firsts.now ≡ length tiles.old }
    requires across { (t : ℕ) → t < length tiles.old → bit_xor t (dims / 64) < length tiles.old }
    requires whole { All IsTile tiles.old }
    requires few { AreWithin 1 tiles.old }
    requires firsts { (t : ℕ) → t < length tiles.old → AreFirst (tile_at tiles.old t) (leavers_at firsts.now t) }
    ensures value { (t : ℕ) → t < length tiles.old
        → HasMoved dims (leavers_at firsts.now (bit_xor t (dims / 64))) (tile_at tiles.new t) }
{
    for t in 0..tiles.len() {
        tiles[t].put_down(&firsts[t ^ usize::from(dims) / WIDTH], dims);
    }
}

/// Whether of all tickets, of which one at most stands at each chip, one is that of a message that arrives across these
/// dimensions.
pub(crate) fn have_arrival_over(tiles: &[Tile], dims: u16) -> bool
    requires whole { All IsTile tiles.now }
    requires few { AreWithin 1 tiles.now }
    ensures none { IsFalse result → (c : ℕ) → c / 64 < length tiles.now
        → list_any has_come (map (ticket_over dims) (tickets_of tiles.now c)) ≡ false }
{
    for tile in tiles {
        if tile.has_arrival_over(dims) {
            return true;
        }
    }
    false
}
