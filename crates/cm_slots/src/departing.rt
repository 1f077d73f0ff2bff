//! Half of a dimension by itself: who leaves a run of chips goes elsewhere, and the others close up.

ghost use Rattle.std.specs.Prelude.{◌≡◌, ℕ, ◌-◌, ◌*◌, ◌/◌, ◌<◌, ◌≤◌, length};
ghost use Rattle.std.specs.List.{All};
ghost use Rattle.cm_model.specs.Each.{tabulate};
ghost use Rattle.cm_slots.specs.Queues.{stayers_of};
ghost use Rattle.cm_slots.specs.Tickets.{has_to_go, ticket_going};
ghost use Rattle.cm_slots.specs.Tiles.{IsTile};
ghost use Rattle.cm_slots.specs.Runs.{tickets_of, ticket_leaving_chip, AreWithin, AreLeavers};

use crate::rows::{Row, WIDTH};
use crate::shape::Shape;
use crate::ticket::{Ticket, ticket_in};
use crate::tile::Tile;

/// Takes out of each chip who leaves in a dimension; the others close up.
pub(crate) fn take_out(tiles: &mut [Tile], leaving: &mut [Option<Row>], sizes: Shape, dim: u8)
    requires dimension { dim < 12 }
    requires rows { length leaving.old ≡ length tiles.old }
    requires whole { All IsTile tiles.old }
    requires within { AreWithin sizes.room tiles.old }
    ensures value { (c : ℕ) → c / 64 < length tiles.old
        → tickets_of tiles.new c ≡ stayers_of (has_to_go dim) sizes.room (tickets_of tiles.old c) }
    ensures going { (c : ℕ) → c / 64 < length tiles.old
        → ticket_leaving_chip leaving.new c ≡ ticket_going sizes.room dim (tickets_of tiles.old c) }
    ensures leavers { AreLeavers leaving.new }
    ensures whole { All IsTile tiles.new }
    ensures space { AreWithin (sizes.room - 1) tiles.new }
{
    for t in 0..tiles.len() {
        tiles[t].depart(&mut leaving[t], sizes, dim);
    }
}

/// Writes down by chip who leaves; nobody, where there are no tiles.
pub(crate) fn write_down(leaving: &[Option<Row>], leavers: &mut [Option<Ticket>])
    requires enough { 0 < length leaving.now → length leavers.old ≤ length leaving.now * 64 }
    requires leavers { AreLeavers leaving.now }
    ensures value { leavers.new ≡ tabulate 0 (length leavers.old) (ticket_leaving_chip leaving.now) }
{
    for c in 0..leavers.len() {
        leavers[c] = leaver(leaving, c);
    }
}

/// Who leaves a chip, if anyone does.
fn leaver(leaving: &[Option<Row>], chip: usize) -> Option<Ticket>
    requires chip { 0 < length leaving.now → chip / 64 < length leaving.now }
    requires leavers { AreLeavers leaving.now }
    ensures value { result ≡ ticket_leaving_chip leaving.now chip }
{
    if leaving.is_empty() {
        return None;
    }
    let Some(row) = &leaving[chip / WIDTH] else {
        return None;
    };
    ticket_in(row[chip % WIDTH])
}
