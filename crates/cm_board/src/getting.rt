//! The end of a lane that gets.
ghost use Rattle.std.specs.Prelude.{◌≡◌, ◌≤◌, [], false, length};
ghost use Rattle.std.specs.Arc.{arc_value};
ghost use Rattle.cm_board.specs.Courses.{HasMore, due_now, one_use_more, unused};
ghost use Rattle.cm_board.specs.Rule.{receiver};

use crate::table::{Draw, LaneSeat, LaneTable};
use crate::waiting::await_word;
use crate::waking::put_empty;
use std::alloc::Global;
use std::marker::Model;
use std::sync::{Arc, Wait};

/// The receiver's end, while it does not hold the cell. Contracts see its course.
#[derive(Drop)]
pub struct ToEnd<T: Drop> {
    lane: Arc<LaneTable<T>, Global>,
    seat: LaneSeat<T>,
    uses: u64,
}

impl<T: Drop> Model for ToEnd<T> {
    ghost use Rattle.cm_board.specs.Courses.{Course};

    ghost Value = { Course T };

    ghost view = { λ end. record { due = end.seat.me.0.due; blank = end.seat.me.0.blank; uses = end.uses } };

    ghost use Rattle.std.specs.Prelude.{◌≡◌, ◌≤◌, false, [], length};
    ghost use Rattle.std.specs.Arc.{arc_value};
    ghost use Rattle.cm_board.specs.Rule.{receiver};

    ghost invariant = { λ end. (end.seat.table_id ≡ (arc_value end.lane).shared.table_id)
        × (end.seat.table_id.words ≡ 1) × (end.seat.table_id.slots ≡ 1)
        × (end.uses ≤ length end.seat.me.0.due) × (length end.seat.me.0.due ≤ 4416)
        × (end.seat.me ≡ (receiver end.seat.me.0.due end.seat.me.0.blank end.uses false, [])) };
}

/// The receiver's end, while it holds the cell.
#[derive(Drop)]
pub struct ToHold<T: Drop> {
    lane: Arc<LaneTable<T>, Global>,
    seat: LaneSeat<T>,
    uses: u64,
}

impl<T: Drop> Model for ToHold<T> {
    ghost use Rattle.cm_board.specs.Courses.{Course};

    ghost Value = { Course T };

    ghost view = { λ end. record { due = end.seat.me.0.due; blank = end.seat.me.0.blank; uses = end.uses } };

    ghost use Rattle.std.specs.Prelude.{◌≡◌, ◌<◌, ◌≤◌, true, [], ◌∷◌, length, None};
    ghost use Rattle.std.specs.Arc.{arc_value};
    ghost use Rattle.cm_board.specs.Rule.{receiver};

    ghost invariant = { λ end. (end.seat.table_id ≡ (arc_value end.lane).shared.table_id)
        × (end.seat.table_id.words ≡ 1) × (end.seat.table_id.slots ≡ 1)
        × (end.uses < length end.seat.me.0.due) × (length end.seat.me.0.due ≤ 4416)
        × (end.seat.me ≡ (receiver end.seat.me.0.due end.seat.me.0.blank end.uses true, (0, None) ∷ [])) };
}

/// The receiver's end, and the parcel that came.
#[derive(Drop)]
pub struct Emptying<T: Drop> {
    pub end: ToHold<T>,
    pub parcel: T,
}

impl<T: Drop> ToEnd<T> {
    /// One that has done no use.
    pub(crate) fn new(lane: Arc<LaneTable<T>, Global>, seat: LaneSeat<T>) -> ToEnd<T>
        requires table { seat.table_id ≡ (arc_value lane).shared.table_id }
        requires counts { (seat.table_id.words ≡ 1) × (seat.table_id.slots ≡ 1) }
        requires few { length seat.me.0.due ≤ 4416 }
        requires seat { seat.me ≡ (receiver seat.me.0.due seat.me.0.blank 0 false, []) }
        ensures value { result ≡ unused seat.me.0.due seat.me.0.blank }
    {
        ToEnd {
            lane,
            seat,
            uses: 0,
        }
    }

    /// Waits until the cell is full, and takes its parcel out.
    pub fn draw<R: Wait>(self, rt: &R) -> Emptying<T>
        requires more { HasMore self }
        ensures end { result.end ≡ self }
        ensures parcel { result.parcel ≡ due_now self }
    {
        let ToEnd {
            lane,
            mut seat,
            uses,
        } = self;
        for _try in rt.forever() {
            await_word(rt, &lane, 4 * uses + 2);
            let found = lane
                .shared
                .compare_exchange::<Draw>(&mut seat, 0, 4 * uses + 2, 4 * uses + 3);
            if found == 4 * uses + 2 {
                let parcel = lane.shared.exchange(&mut seat, 0, None).unwrap();
                let end = ToHold { lane, seat, uses };
                return Emptying { end, parcel };
            }
        }
        unreachable!()
    }
}

impl<T: Drop> Emptying<T> {
    /// Hands the parcel back, blank again.
    pub fn clear(self) -> ToEnd<T>
        requires parcel { self.parcel ≡ self.end.blank }
        ensures end { result ≡ one_use_more self.end }
    {
        let Emptying { end, parcel } = self;
        let ToHold {
            lane,
            mut seat,
            uses,
        } = end;
        lane.shared.exchange(&mut seat, 0, Some(parcel));
        put_empty(&lane, &mut seat, uses).wake();
        ToEnd {
            lane,
            seat,
            uses: uses + 1,
        }
    }
}
