//! A dimension over all tiles, of which each crosses it with the tile across before the next ones do: who stands at two
//! tiles is kept near the processor meanwhile.

ghost use Rattle.std.specs.Prelude.{◌≡◌, ◌≢◌, ℕ, ◌/◌, ◌^◌, ◌<◌, ◌≤◌, length, bit_xor};
ghost use Rattle.std.specs.List.{All};
ghost use Rattle.cm_slots.specs.Choice.{exchanged_by};
ghost use Rattle.cm_slots.specs.Tiles.{numbers_standing_at, IsTile};
ghost use Rattle.cm_slots.specs.Runs.{tile_at, tile_across, tickets_of, AreWithin, HasCrossed};

use crate::across::tile_across;
use crate::order::Order;
use crate::shape::Shape;
use crate::tile::Tile;

/// The tickets of all chips cross a dimension.
pub(crate) fn cross(tiles: &mut [Tile], sizes: Shape, dim: u8, order: Order)
    requires dimension { dim < 12 }
    requires across { (t : ℕ) → t < length tiles.old → tile_across dim t < length tiles.old }
    requires whole { All IsTile tiles.old }
    requires within { AreWithin sizes.room tiles.old }
    ensures value { (c : ℕ) → c / 64 < length tiles.old → tickets_of tiles.new c
        ≡ exchanged_by order sizes.room dim (tickets_of tiles.old c) (tickets_of tiles.old (bit_xor c (2 ^ dim))) }
    ensures whole { All IsTile tiles.new }
    ensures within { AreWithin sizes.room tiles.new }
{
    for t in 0..tiles.len() {
        let across = tile_across(t, dim);
        if t == across {
            tiles[t].cross_alone(sizes, dim, order);
        } else if t < across {
            cross_pair(tiles, t, across, sizes, dim, order);
        }
    }
}

/// The tickets of two tiles cross a dimension, across which the chips of each are those of the other.
fn cross_pair(tiles: &mut [Tile], low: usize, high: usize, sizes: Shape, dim: u8, order: Order)
    requires dimension { dim < 12 }
    requires far { 6 ≤ dim }
    requires order { low < high }
    requires inside { high < length tiles.old }
    requires low { IsTile (tile_at tiles.old low) }
    requires low_within { (i : ℕ) → i < 64
        → length (numbers_standing_at (tile_at tiles.old low) i) ≤ sizes.room }
    requires high { IsTile (tile_at tiles.old high) }
    requires high_within { (i : ℕ) → i < 64
        → length (numbers_standing_at (tile_at tiles.old high) i) ≤ sizes.room }
    ensures low { HasCrossed order sizes.room dim
        (tile_at tiles.old low) (tile_at tiles.old high) (tile_at tiles.new low) }
    ensures high { HasCrossed order sizes.room dim
        (tile_at tiles.old high) (tile_at tiles.old low) (tile_at tiles.new high) }
    ensures others { (t : ℕ) → t ≢ low → t ≢ high → tile_at tiles.new t ≡ tile_at tiles.old t }
{
    let (front, back) = tiles.split_at_mut(high);
    front[low].cross_with(&mut back[0], sizes, dim, order);
}
