//! The tiles of a run of chips: how they are made and copied, and where in them a ticket has arrived.

ghost use Rattle.std.specs.Prelude.{◌≡◌, ℕ, ◌+◌, ◌*◌, ◌/◌, ◌<◌, ◌≤◌, IfOk, length, true, false, vec_capacity};
ghost use Rattle.std.specs.List.{All, list_any};
ghost use Rattle.cm_slots.specs.Tickets.{has_come};
ghost use Rattle.cm_slots.specs.Arrivals.{has_come_at, AreArrivals};
ghost use Rattle.cm_slots.specs.Tiles.{IsTile};
ghost use Rattle.cm_slots.specs.Runs.{AreEmptyTiles, AreKept, AreWithin, queues_in, tickets_of};

use crate::arrivals::{Arrivals, next_lane};
use crate::rows::{Row, WIDTH};
use crate::shape::Shape;
use crate::tile::Tile;
use cm_bits::NoMemory;
use std::alloc::Global;

/// How many tiles so many chips take.
pub(crate) fn tiles_for(chips: usize) -> usize
    requires few { chips ≤ 4096 }
    ensures value { result ≡ (chips + 63) / 64 }
{
    (chips + 63) / WIDTH
}

/// Makes the tiles of so many chips in the space that is reserved for them, if none are made yet.
pub(crate) fn make_tiles(tiles: &mut Vec<Tile>, leaving: &mut Vec<Option<Row>>, chips: usize)
    requires kept { AreKept chips tiles.old leaving.old }
    ensures kept { AreKept chips tiles.new leaving.new }
    ensures count { length tiles.new.items ≡ (chips + 63) / 64 }
    ensures value { queues_in chips tiles.new.items ≡ queues_in chips tiles.old.items }
{
    if tiles.is_empty() {
        put_all(tiles, leaving, chips);
    }
}

/// The same where none are made. It stands apart because it is done once.
#[inline(never)]
fn put_all(tiles: &mut Vec<Tile>, leaving: &mut Vec<Option<Row>>, chips: usize)
    requires kept { AreKept chips tiles.old leaving.old }
    requires none { length tiles.old.items ≡ 0 }
    ensures kept { AreKept chips tiles.new leaving.new }
    ensures count { length tiles.new.items ≡ (chips + 63) / 64 }
    ensures value { queues_in chips tiles.new.items ≡ queues_in chips tiles.old.items }
{
    let count = tiles_for(chips);
    put_empty(tiles, count);
    put_nobody(leaving, count);
}

/// Puts so many tiles, at which no ticket stands, where none are made.
fn put_empty(tiles: &mut Vec<Tile>, count: usize)
    requires none { length tiles.old.items ≡ 0 }
    requires space { count ≤ vec_capacity tiles.old }
    ensures value { AreEmptyTiles count tiles.new.items }
    ensures capacity { vec_capacity tiles.old ≤ vec_capacity tiles.new }
{
    for _t in 0..count {
        tiles.push_reserved(Tile::new());
    }
}

/// Puts down that nobody leaves these tiles, where no tiles were.
fn put_nobody(leaving: &mut Vec<Option<Row>>, count: usize)
    requires none { length leaving.old.items ≡ 0 }
    requires space { count ≤ vec_capacity leaving.old }
    ensures count { length leaving.new.items ≡ count }
    ensures capacity { vec_capacity leaving.old ≤ vec_capacity leaving.new }
{
    for _t in 0..count {
        leaving.push_reserved(None);
    }
}

/// Puts an empty tile in the place of each.
pub(crate) fn empty_all(tiles: &mut [Tile])
    ensures value { AreEmptyTiles (length tiles.old) tiles.new }
{
    for tile in tiles.iter_mut() {
        *tile = Tile::new();
    }
}

/// The same tiles, with space for so many.
pub(crate) fn copied_tiles(
    alloc: Global,
    tiles: &[Tile],
    space: usize,
) -> Result<Vec<Tile>, NoMemory>
    requires space { length tiles.now ≤ space }
    ensures value { IfOk result (λ copies. copies.items ≡ tiles.now) }
    ensures space { IfOk result (λ copies. space ≤ vec_capacity copies) }
{
    let mut copies = Vec::with_capacity(alloc, space)?;
    for t in 0..tiles.len() {
        copies.push_reserved(tiles[t].copy());
    }
    Ok(copies)
}

/// That nobody leaves so many tiles, with space for more.
pub(crate) fn no_leavers(
    alloc: Global,
    count: usize,
    space: usize,
) -> Result<Vec<Option<Row>>, NoMemory>
    requires space { count ≤ space }
    ensures count { IfOk result (λ leaving. length leaving.items ≡ count) }
    ensures space { IfOk result (λ leaving. space ≤ vec_capacity leaving) }
{
    let mut leaving = Vec::with_capacity(alloc, space)?;
    put_nobody(&mut leaving, count);
    Ok(leaving)
}

/// The first of so many chips, from one on, at which a ticket stands whose message has arrived, or one behind all of
/// them, where there is room for so many tickets at each. Each tile is looked at once.
pub(crate) fn next_arrived(
    tiles: &[Tile],
    chips: usize,
    known: &mut Arrivals,
    from: usize,
    sizes: Shape,
) -> usize
    requires whole { All IsTile tiles.now }
    requires within { AreWithin sizes.room tiles.now }
    requires chips { chips ≤ length tiles.now * 64 }
    requires known { AreArrivals known.old from chips (has_come_at tiles.now) }
    ensures known { AreArrivals known.new from chips (has_come_at tiles.now) }
    ensures none { (c : ℕ) → from ≤ c → c < result → c < chips → list_any has_come (tickets_of tiles.now c) ≡ false }
    ensures from { from ≤ result }
    ensures arrived { result < chips → list_any has_come (tickets_of tiles.now result) ≡ true }
{
    let mut chip = from;
    while chip < chips {
        let tile = chip / WIDTH;
        known.look(tiles, tile, sizes);
        match next_lane(known.lanes, chip % WIDTH) {
            Some(place) => return tile * WIDTH + place,
            None => chip = (tile + 1) * WIDTH,
        }
    }
    chip
}
