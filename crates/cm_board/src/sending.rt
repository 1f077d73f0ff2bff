//! The end of a lane that sends.
ghost use Rattle.std.specs.Prelude.{◌≡◌, ◌≤◌, [], false, length};
ghost use Rattle.std.specs.Arc.{arc_value};
ghost use Rattle.cm_board.specs.Courses.{HasMore, due_now, one_use_more, unused};
ghost use Rattle.cm_board.specs.Rule.{sender};

use crate::table::{Grip, LaneSeat, LaneTable};
use crate::waiting::await_word;
use crate::waking::put_full;
use std::alloc::Global;
use std::marker::Model;
use std::sync::{Arc, Wait};

/// The sender's end, while it does not hold the cell. Contracts see its course.
#[derive(Drop)]
pub struct FromEnd<T: Drop> {
    lane: Arc<LaneTable<T>, Global>,
    seat: LaneSeat<T>,
    uses: u64,
}

impl<T: Drop> Model for FromEnd<T> {
    ghost use Rattle.cm_board.specs.Courses.{Course};

    ghost Value = { Course T };

    ghost view = { λ end. record { due = end.seat.me.0.due; blank = end.seat.me.0.blank; uses = end.uses } };

    ghost use Rattle.std.specs.Prelude.{◌≡◌, ◌≤◌, false, [], length};
    ghost use Rattle.std.specs.Arc.{arc_value};
    ghost use Rattle.cm_board.specs.Rule.{sender};

    ghost invariant = { λ end. (end.seat.table_id ≡ (arc_value end.lane).shared.table_id)
        × (end.seat.table_id.words ≡ 1) × (end.seat.table_id.slots ≡ 1)
        × (end.uses ≤ length end.seat.me.0.due) × (length end.seat.me.0.due ≤ 4416)
        × (end.seat.me ≡ (sender end.seat.me.0.due end.seat.me.0.blank end.uses false, [])) };
}

/// The sender's end, while it holds the cell.
#[derive(Drop)]
pub struct FromHold<T: Drop> {
    lane: Arc<LaneTable<T>, Global>,
    seat: LaneSeat<T>,
    uses: u64,
}

impl<T: Drop> Model for FromHold<T> {
    ghost use Rattle.cm_board.specs.Courses.{Course};

    ghost Value = { Course T };

    ghost view = { λ end. record { due = end.seat.me.0.due; blank = end.seat.me.0.blank; uses = end.uses } };

    ghost use Rattle.std.specs.Prelude.{◌≡◌, ◌<◌, ◌≤◌, true, [], ◌∷◌, length, None};
    ghost use Rattle.std.specs.Arc.{arc_value};
    ghost use Rattle.cm_board.specs.Rule.{sender};

    ghost invariant = { λ end. (end.seat.table_id ≡ (arc_value end.lane).shared.table_id)
        × (end.seat.table_id.words ≡ 1) × (end.seat.table_id.slots ≡ 1)
        × (end.uses < length end.seat.me.0.due) × (length end.seat.me.0.due ≤ 4416)
        × (end.seat.me ≡ (sender end.seat.me.0.due end.seat.me.0.blank end.uses true, (0, None) ∷ [])) };
}

/// The sender's end, and the parcel that it fills.
#[derive(Drop)]
pub struct Filling<T: Drop> {
    pub end: FromHold<T>,
    pub parcel: T,
}

impl<T: Drop> FromEnd<T> {
    /// An end that has sent nothing yet; `Lane::open` makes it.
    pub(crate) fn new(lane: Arc<LaneTable<T>, Global>, seat: LaneSeat<T>) -> FromEnd<T>
        requires table { seat.table_id ≡ (arc_value lane).shared.table_id }
        requires counts { (seat.table_id.words ≡ 1) × (seat.table_id.slots ≡ 1) }
        requires few { length seat.me.0.due ≤ 4416 }
        requires seat { seat.me ≡ (sender seat.me.0.due seat.me.0.blank 0 false, []) }
        ensures value { result ≡ unused seat.me.0.due seat.me.0.blank }
    {
        FromEnd {
            lane,
            seat,
            uses: 0,
        }
    }

    /// Waits until the cell is empty, and takes its parcel out.
    pub fn grip<R: Wait>(self, rt: &R) -> Filling<T>
        requires more { HasMore self }
        ensures end { result.end ≡ self }
        ensures parcel { result.parcel ≡ self.blank }
    {
        let FromEnd {
            lane,
            mut seat,
            uses,
        } = self;
        for _try in rt.forever() {
            await_word(rt, &lane, 4 * uses);
            let found = lane
                .shared
                .compare_exchange::<Grip>(&mut seat, 0, 4 * uses, 4 * uses + 1);
            if found == 4 * uses {
                let parcel = lane.shared.exchange(&mut seat, 0, None).unwrap();
                let end = FromHold { lane, seat, uses };
                return Filling { end, parcel };
            }
        }
        unreachable!()
    }
}

impl<T: Drop> Filling<T> {
    /// Hands the parcel over.
    pub fn file(self) -> FromEnd<T>
        requires parcel { self.parcel ≡ due_now self.end }
        ensures end { result ≡ one_use_more self.end }
    {
        let Filling { end, parcel } = self;
        let FromHold {
            lane,
            mut seat,
            uses,
        } = end;
        lane.shared.exchange(&mut seat, 0, Some(parcel));
        put_full(&lane, &mut seat, uses).wake();
        FromEnd {
            lane,
            seat,
            uses: uses + 1,
        }
    }
}
