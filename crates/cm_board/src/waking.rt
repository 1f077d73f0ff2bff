//! How a lane's word is moved on to the other end, who may wait for it.
ghost use Rattle.std.specs.Prelude.{◌≡◌, ◌<◌, ◌+◌, List, [], ◌∷◌, Some, true, false};
ghost use Rattle.cm_board.specs.Rule.{sender, receiver, due_at};

use crate::table::{Clear, File, LaneSeat, LaneTable};

/// A lane whose word was moved on, and nobody was woken for it yet. It may not be let go: `wake` alone takes it. So no
/// end can forget the other, or wake it before there is anything to see.
pub(crate) struct Unwoken<'a, T: Drop> {
    lane: &'a LaneTable<T>,
    ghost one: { lane.now.shared.table_id.words ≡ 1 },
}

impl<'a, T: Drop> Unwoken<'a, T> {
    /// Wakes who waits for the word.
    pub(crate) fn wake(self) {
        let Unwoken { lane } = self;
        lane.shared.wake_one(0);
    }
}

/// From filling to full, with the parcel at home that is due.
pub(crate) fn put_full<'a, T: Drop>(
    lane: &'a LaneTable<T>,
    seat: &mut LaneSeat<T>,
    uses: u64,
) -> Unwoken<'a, T>
    requires table { seat.old.table_id ≡ lane.now.shared.table_id }
    requires words { seat.old.table_id.words ≡ 1 }
    requires few { uses < 4416 }
    requires filled { (due : List T) × (blank : T)
        × (seat.old.me ≡ (sender due blank uses true, (0, Some (due_at due blank uses)) ∷ [])) }
    ensures table { seat.new.table_id ≡ seat.old.table_id }
    ensures finished { seat.new.me
        ≡ (record seat.old.me.0 { uses = seat.old.me.0.uses + 1; holds = false }, []) }
{
    lane.shared
        .compare_exchange::<File>(seat, 0, 4 * uses + 1, 4 * uses + 2);
    Unwoken { lane }
}

/// From emptying to empty in the next use, with the blank parcel at home.
pub(crate) fn put_empty<'a, T: Drop>(
    lane: &'a LaneTable<T>,
    seat: &mut LaneSeat<T>,
    uses: u64,
) -> Unwoken<'a, T>
    requires table { seat.old.table_id ≡ lane.now.shared.table_id }
    requires words { seat.old.table_id.words ≡ 1 }
    requires few { uses < 4416 }
    requires emptied { (due : List T) × (blank : T)
        × (seat.old.me ≡ (receiver due blank uses true, (0, Some blank) ∷ [])) }
    ensures table { seat.new.table_id ≡ seat.old.table_id }
    ensures finished { seat.new.me
        ≡ (record seat.old.me.0 { uses = seat.old.me.0.uses + 1; holds = false }, []) }
{
    lane.shared
        .compare_exchange::<Clear>(seat, 0, 4 * uses + 3, 4 * uses + 4);
    Unwoken { lane }
}
