//! Numbers that go over a lane.
ghost use Rattle.std.specs.Prelude.{◌≡◌, ◌≤◌, IfOk};
ghost use Rattle.cm_board.specs.Courses.{unused};
ghost use Rattle.test_board.specs.Rising.{rising, after};

use cm_bits::NoMemory;
use cm_board::{FromEnd, Lane, Plan, ToEnd};
use std::alloc::Global;
use std::sync::Wait;
use std::thread;
use std::thread::{Threads, yield_now};

/// The plan of a lane that carries so many numbers, from 1 on.
#[derive(Drop)]
pub struct Numbers {
    pub count: u64,
}

impl Plan<u64> for Numbers {
    ghost due = { λ plan. rising 1 plan.count };
}

/// A lane that carries so many numbers.
pub fn opened(alloc: Global, count: u64) -> Result<(FromEnd<u64>, ToEnd<u64>), NoMemory>
    requires few { count ≤ 4416 }
    ensures from { IfOk result (λ ends. ends.0 ≡ unused (rising 1 count) 0) }
    ensures to { IfOk result (λ ends. ends.1 ≡ unused (rising 1 count) 0) }
{
    Lane::open(alloc, 0, Numbers { count })
}

/// Lets other threads run so many times.
fn linger(turns: u32) {
    for _turn in 0..turns {
        yield_now();
    }
}

/// Files all of so many numbers, and lingers before each.
pub fn file_all<R: Wait>(rt: &R, mut end: FromEnd<u64>, count: u64, turns: u32) -> FromEnd<u64>
    requires end { end ≡ unused (rising 1 count) 0 }
    ensures end { result ≡ after count count }
{
    for i in 0..count {
        let mut filling = end.grip(rt);
        *filling.parcel() = i + 1;
        linger(turns);
        end = filling.file();
    }
    end
}

/// Draws all of so many numbers, and gives each cell back with 0 in it, before which it lingers.
pub fn draw_all<R: Wait>(
    rt: &R,
    alloc: Global,
    mut end: ToEnd<u64>,
    count: u64,
    turns: u32,
) -> Result<Vec<u64>, NoMemory>
    requires end { end ≡ unused (rising 1 count) 0 }
    ensures value { IfOk result (λ seen. seen.items ≡ rising 1 count) }
{
    let mut seen = Vec::new(alloc);
    for _i in 0..count {
        let mut emptying = end.draw(rt);
        let parcel = emptying.parcel();
        seen.reserve(1)?;
        seen.push_reserved(*parcel);
        *parcel = 0;
        linger(turns);
        end = emptying.clear();
    }
    Ok(seen)
}

/// How often each end lets other threads run before it hands the cell over: where that is more often than the other
/// looks, the other parks.
#[derive(Clone, Copy, Debug)]
pub struct Lingers {
    pub files: u32,
    pub draws: u32,
}

/// What one thread draws that another files.
pub fn relay<R: Threads + Wait + Sync>(
    rt: &R,
    alloc: Global,
    count: u64,
    lingers: Lingers,
) -> Result<Vec<u64>, NoMemory>
    requires few { count ≤ 4416 }
    ensures value { IfOk result (λ seen. seen.items ≡ rising 1 count) }
{
    let (from, to) = opened(alloc, count)?;
    let (_end, seen) = thread::join(
        rt,
        move || file_all(rt, from, count, lingers.files),
        move || draw_all(rt, alloc, to, count, lingers.draws),
    );
    seen
}
