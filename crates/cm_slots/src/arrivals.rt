//! At which chips of a tile a message has arrived: found for all chips of the tile at once, and then told one by one.

ghost use Rattle.std.specs.Prelude.{◌≡◌, ◌≤◌, ◌<◌, ℕ, Bool, false, Some, None, IfSome, length};
ghost use Rattle.std.specs.List.{All};
ghost use Rattle.cm_bits.specs.Bit.{bit};
ghost use Rattle.cm_slots.specs.Tiles.{IsTile};
ghost use Rattle.cm_slots.specs.Runs.{AreWithin};
ghost use Rattle.cm_slots.specs.Arrivals.{has_come_at, AreArrivals, AreLanesFrom};

use crate::rows::WIDTH;
use crate::shape::Shape;
use crate::tile::Tile;

/// The chips of one tile at which a ticket stands whose message has arrived, once they were looked for (ours). Whoever
/// goes through all chips keeps this from chip to chip.
#[derive(Drop)]
pub struct Arrivals {
    /// The number of the tile, once one was looked at.
    tile: Option<usize>,
    /// Bit i is 1 where such a ticket stands at the chip at place i.
    pub(crate) lanes: u64,
}

impl Arrivals {
    /// No tile was looked at.
    pub fn new() -> Arrivals
        ensures value { (from count : ℕ) (has_arrival : ℕ → Bool) → AreArrivals result from count has_arrival }
    {
        Arrivals {
            tile: None,
            lanes: 0,
        }
    }

    /// Looks at a tile, unless it was looked at last.
    pub(crate) fn look(&mut self, tiles: &[Tile], tile: usize, sizes: Shape)
        requires tile { tile < length tiles.now }
        requires whole { All IsTile tiles.now }
        requires within { AreWithin sizes.room tiles.now }
        ensures tile { self.new.tile ≡ Some tile }
        ensures value { (from count : ℕ) → AreArrivals self.old from count (has_come_at tiles.now)
            → AreArrivals self.new from count (has_come_at tiles.now) }
    {
        if self.tile != Some(tile) {
            self.tile = Some(tile);
            self.lanes = tiles[tile].arrivals(sizes);
        }
    }
}

/// The first of 64 lanes, from one on, whose bit is 1.
pub(crate) fn next_lane(lanes: u64, from: usize) -> Option<usize>
    ensures none { result ≡ None → (i : ℕ) → from ≤ i → i < 64 → bit lanes i ≡ false }
    ensures some { IfSome result (AreLanesFrom lanes from) }
{
    if from >= WIDTH {
        return None;
    }
    let left = lanes >> from;
    if left == 0 {
        return None;
    }
    Some(from + left.trailing_zeros() as usize)
}
