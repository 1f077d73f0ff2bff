//! Words that were found at a lane.
ghost use Rattle.std.specs.Prelude.{◌≡◌};

use crate::table::LaneTable;
use std::sync::Wait;

/// A word that was found at a lane. Only a look makes one, so no thread parks on a word that it hopes for.
#[derive(Drop)]
pub(crate) struct Found {
    word: u64,
}

impl Found {
    pub(crate) fn at<T: Drop>(lane: &LaneTable<T>) -> Found
        requires words { lane.now.shared.table_id.words ≡ 1 }
    {
        Found {
            word: lane.shared.peek(0),
        }
    }

    pub(crate) fn is(&self, word: u64) -> bool {
        self.word == word
    }

    /// Parks until another word is put there. It may also return for no reason.
    pub(crate) fn park<T: Drop, R: Wait>(self, rt: &R, lane: &LaneTable<T>)
        requires words { lane.now.shared.table_id.words ≡ 1 }
    {
        lane.shared.park(rt, 0, (self.word & 0xffff_ffff) as u32);
    }
}
