//! The table of a lane: a word, which tells of which use it is and how far that has come, and a slot with the parcel.
ghost use Rattle.std.specs.Prelude.{List, [], false};
ghost use Rattle.cm_board.specs.Rule.{sender, receiver, gripped, drawn, finished};

use atomic_table::{Play, Seat, Split, Table, TableRule};
use std::alloc::Global;
use std::collections::LinkedList;
use std::marker::{Brand, PhantomData};
use std::snapshot::Snapshot;

/// Whose seat it is.
pub enum Side {
    /// That of both ends, before they are dealt.
    Alone,
    Sends,
    Gets,
}

/// What a seat knows. No value of it is made.
pub struct View<T> {
    pub side: Side,
    /// How many uses it has finished: filed or cleared.
    pub uses: u64,
    /// Whether the parcel is out with it.
    pub holds: bool,
    pub due: LinkedList<T>,
    pub blank: T,
}

/// The rule that every step keeps: word, parcel and both views are those of one use at one stage.
pub struct LaneRule;

impl<T> TableRule<Option<T>, View<T>, Snapshot<T>> for LaneRule {
    ghost use Rattle.cm_board.specs.Rule.{Kept, alone};

    ghost holds = { λ _. Kept };

    ghost first = { λ key. alone key.value };
}

pub type LaneTable<T> = Table<Option<T>, View<T>, Snapshot<T>, LaneRule, Global>;

pub type LaneSeat<T> = Seat<Option<T>, View<T>>;

/// Names a due list at the call that deals the two seats.
pub trait Due<T> {
    ghost due: { List T };
}

impl<T> Due<T> for Brand {
    ghost due = { [] };
}

/// The seat that stands alone becomes the sender's, and a new one is the receiver's.
pub struct Deal<D> {
    due: PhantomData<D>,
}

impl<T, D: Due<T>> Split<View<T>> for Deal<D> {
    ghost left = { λ v. sender D.due v.blank 0 false };

    ghost right = { λ v. receiver D.due v.blank 0 false };
}

/// The sender takes the blank parcel out.
pub struct Grip;

impl<T> Play<Option<T>, View<T>> for Grip {
    ghost then = { λ _. gripped };
}

/// The sender gives it home, filled.
pub struct File;

impl<T> Play<Option<T>, View<T>> for File {
    ghost then = { λ _. finished };
}

/// The receiver takes it out.
pub struct Draw;

impl<T> Play<Option<T>, View<T>> for Draw {
    ghost then = { λ _. drawn };
}

/// The receiver gives it home, blank again.
pub struct Clear;

impl<T> Play<Option<T>, View<T>> for Clear {
    ghost then = { λ _. finished };
}
