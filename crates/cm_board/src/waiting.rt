//! How an end waits for the other.
ghost use Rattle.std.specs.Prelude.{◌≡◌};

use crate::found::Found;
use crate::table::LaneTable;
use std::sync::Wait;
use std::thread::yield_now;

/// How often it looks before it parks.
const LOOKS: u32 = 200;

/// Waits for the other end to come to this word: looks a few times, and lets other threads run between two looks, then
/// parks until the word changes. It may also return for no reason.
pub(crate) fn await_word<T: Drop, R: Wait>(rt: &R, lane: &LaneTable<T>, word: u64)
    requires words { lane.now.shared.table_id.words ≡ 1 }
{
    for _look in 0..LOOKS {
        if Found::at(lane).is(word) {
            return;
        }
        yield_now();
    }
    let found = Found::at(lane);
    if !found.is(word) {
        found.park(rt, lane);
    }
}
