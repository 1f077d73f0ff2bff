//! Lanes, and how they are opened.
ghost use Rattle.std.specs.Prelude.{◌≡◌, ◌≤◌, List, [], length, IfOk, false};
ghost use Rattle.cm_board.specs.Courses.{unused};
ghost use Rattle.cm_board.specs.Rule.{sender, receiver};
ghost use Rattle.cm_board.specs.declared.table.Side.TheVariants.{Alone};

use crate::getting::ToEnd;
use crate::sending::FromEnd;
use crate::table::{Deal, Due, LaneSeat, LaneTable};
use atomic_table::{Refused, Table};
use cm_bits::NoMemory;
use std::alloc::Global;
use std::marker::{Brand, PhantomData};
use std::snapshot::Snapshot;
use std::sync::Arc;

/// A value of the caller that names, to contracts alone, the parcels that a lane will carry.
pub trait Plan<T> {
    ghost due: { Self → List T };
}

/// A cell that carries one parcel in each use from one thread to another.
pub struct Lane<T> {
    parcel: PhantomData<T>,
}

impl<T: Drop> Lane<T> {
    /// The two ends of a lane in which this blank parcel lies. Where memory is wanting parcel and plan are dropped.
    pub fn open<P: Plan<T> + Drop>(
        alloc: Global,
        blank: T,
        plan: P,
    ) -> Result<(FromEnd<T>, ToEnd<T>), NoMemory>
        requires few { length (P.due plan) ≤ 4416 }
        ensures from { IfOk result (λ ends. ends.0 ≡ unused (P.due plan) blank) }
        ensures to { IfOk result (λ ends. ends.1 ≡ unused (P.due plan) blank) }
    {
        let (table, mut from) = lay(alloc, blank)?;
        let to = deal::<T, P, Brand>(&table, &mut from, &plan);
        let Ok(lane) = Arc::new(alloc, table) else {
            return Err(NoMemory);
        };
        let Ok(other) = Arc::try_clone(&lane) else {
            return Err(NoMemory);
        };
        Ok((FromEnd::new(lane, from), ToEnd::new(other, to)))
    }
}

/// A table with the blank parcel at home, and its one seat.
fn lay<T: Drop>(alloc: Global, blank: T) -> Result<(LaneTable<T>, LaneSeat<T>), NoMemory>
    ensures table { IfOk result (λ made. made.1.table_id ≡ made.0.shared.table_id) }
    ensures counts { IfOk result (λ made. (made.1.table_id.words ≡ 1) × (made.1.table_id.slots ≡ 1)) }
    ensures seat { IfOk result (λ made. (made.1.me.0.side ≡ Alone) × (made.1.me.0.blank ≡ blank) × (made.1.me.1 ≡ [])) }
{
    let about = Snapshot::of(&blank);
    let mut slots = Vec::with_capacity(alloc, 1)?;
    slots.push_reserved(Some(blank));
    match Table::new(alloc, &[0], slots, &about) {
        Ok(made) => Ok(made),
        Err(Refused { slots: _ }) => Err(NoMemory),
    }
}

/// Makes the one seat the sender's, and answers the receiver's. The caller picks the list `D.due`, so that no type of
/// an end names the plan.
fn deal<T: Drop, P: Plan<T>, D: Due<T>>(
    table: &LaneTable<T>,
    seat: &mut LaneSeat<T>,
    plan: &P,
) -> LaneSeat<T>
    requires plan { D.due ≡ P.due plan.now }
    requires table { (seat.old.table_id ≡ table.now.shared.table_id) × (seat.old.table_id.words ≡ 1) }
    requires alone { (seat.old.me.0.side ≡ Alone) × (seat.old.me.1 ≡ []) }
    ensures table { (seat.new.table_id ≡ seat.old.table_id) × (result.table_id ≡ seat.old.table_id) }
    ensures from { seat.new.me ≡ (sender (P.due plan.now) seat.old.me.0.blank 0 false, []) }
    ensures to { result.me ≡ (receiver (P.due plan.now) seat.old.me.0.blank 0 false, []) }
{
    let _ = plan;
    table.shared.split_seat::<Deal<D>>(seat)
}
