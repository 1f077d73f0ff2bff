//! The parcel of a cell, lent by the end that holds it.
ghost use Rattle.std.specs.Prelude.{◌≡◌};
ghost use types.Logic.{sem};
ghost use denote.Follow.{follows};
ghost use Rattle.cm_board.specs.contracts.sending.Filling.{the_row as FillingOf};
ghost use Rattle.cm_board.specs.contracts.getting.Emptying.{the_row as EmptyingOf};
ghost use Rattle.cm_board.specs.Lent.{filling_with, emptying_with};

use crate::getting::Emptying;
use crate::sending::Filling;

impl<T: Drop> Filling<T> {
    /// The parcel, to be filled.
    pub fn parcel(&mut self) -> &mut T
        ensures* writes_back { sem 𝓛 (follows (FillingOf T.row) T.row self.entry.ghost_name result.ghost_name
            (filling_with self.old)) }
        ensures value { result.now ≡ self.old.parcel }
    {
        &mut self.parcel
    }
}

impl<T: Drop> Emptying<T> {
    /// The parcel, to be emptied.
    pub fn parcel(&mut self) -> &mut T
        ensures* writes_back { sem 𝓛 (follows (EmptyingOf T.row) T.row self.entry.ghost_name result.ghost_name
            (emptying_with self.old)) }
        ensures value { result.now ≡ self.old.parcel }
    {
        &mut self.parcel
    }
}
