//! A lane between two threads, and one whose ends are in the same hand.

use crate::{Lingers, draw_all, file_all, opened, relay};
use cm_bits::NoMemory;
use std::alloc::Global;
use std::sync::Wait;
use std::test::Fail;

/// Whether these are the numbers from 1 on, so many.
fn are_rising(seen: &[u64], count: usize) -> bool {
    let mut wanted: u64 = 0;
    for number in seen {
        wanted = wanted.saturating_add(1);
        if *number != wanted {
            return false;
        }
    }
    seen.len() == count
}

/// What goes over a lane with one use, of which one thread has both ends.
fn alone<R: Wait>(rt: &R, alloc: Global) -> Result<Vec<u64>, NoMemory> {
    let (from, to) = opened(alloc, 1)?;
    let _end = file_all(rt, from, 1, 0);
    draw_all(rt, alloc, to, 1, 0)
}

/// Neither end lingers.
const BRISK: Lingers = Lingers { files: 0, draws: 0 };

/// Either does, so often that the other parks.
const SLOW_TO_FILE: Lingers = Lingers {
    files: 1000,
    draws: 0,
};

const SLOW_TO_DRAW: Lingers = Lingers {
    files: 0,
    draws: 1000,
};

#[test]
fn a_thousand_parcels_come_in_order(rt: HostRuntime) -> Result<(), Fail> {
    let seen = relay(&rt, rt.alloc(), 1000, BRISK)?;
    assert!(rt; are_rising(&seen, 1000));
    Ok(())
}

#[test]
fn as_many_parcels_as_a_lane_carries_come_in_order(rt: HostRuntime) -> Result<(), Fail> {
    let seen = relay(&rt, rt.alloc(), 4416, BRISK)?;
    assert!(rt; are_rising(&seen, 4416));
    Ok(())
}

#[test]
fn an_end_that_parks_is_woken(rt: HostRuntime) -> Result<(), Fail> {
    let filed = relay(&rt, rt.alloc(), 50, SLOW_TO_FILE)?;
    let drawn = relay(&rt, rt.alloc(), 50, SLOW_TO_DRAW)?;
    assert!(rt; are_rising(&filed, 50) && are_rising(&drawn, 50));
    Ok(())
}

#[test]
fn one_thread_has_both_ends_for_one_use(rt: HostRuntime) -> Result<(), Fail> {
    assert!(rt; are_rising(&alone(&rt, rt.alloc())?, 1));
    Ok(())
}

#[test]
fn a_lane_without_uses_is_opened_and_dropped(rt: HostRuntime) -> Result<(), Fail> {
    assert!(rt; are_rising(&relay(&rt, rt.alloc(), 0, BRISK)?, 0));
    Ok(())
}

/// Whether a lane is opened; or else want of memory is told, and it is opened then.
fn is_opened(alloc: Global) -> bool {
    let made = match opened(alloc, 3) {
        Err(NoMemory) => opened(alloc, 3),
        made => made,
    };
    made.is_ok()
}

// `.ci/refusals` refuses each growth in turn.
#[test]
fn a_refused_growth_opens_no_lane(rt: HostRuntime) {
    assert!(rt; is_opened(rt.alloc()));
}
