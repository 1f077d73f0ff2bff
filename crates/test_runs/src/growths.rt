//! Runs in which a growth or the start of a thread is refused: what is told of it.

use crate::files::{files_of, run, with_cycles};
use crate::runs::{Given, bytes_of};
use std::alloc::Global;
use std::sync::Wait;
use std::thread::Threads;
use test_doubles::{Bytes, Room};

/// So many petit cycles are enough for 512 chips to be shared out among threads.
const CYCLES: usize = 64;

/// Which machine two workers share, and whether they start threads for it.
struct Shared {
    n: u8,
    has_threads: bool,
}

/// One thread runs the list of few chips, and two run that of many.
static SHARED: [Shared; 2] = [
    Shared {
        n: 4,
        has_threads: false,
    },
    Shared {
        n: 9,
        has_threads: true,
    },
];

/// The number of the fault that a run by two workers tells, 0 for none.
fn told<R: Threads + Wait + Sync>(rt: &R, alloc: Global, n: u8) -> Option<u8> {
    let image = bytes_of(alloc, Given::Blank(n, 7))?;
    let text = with_cycles(alloc, b"nano 0 0 8 8 8 0 0xf0 0 n\n", CYCLES).ok()?;
    let mut commands = Bytes::new(b"run\n", 4);
    let mut answers = Room::new(alloc, 100, 100).ok()?;
    let files = files_of(alloc, &image, &text, (1, 2));
    Some(run(rt, files, &mut commands, &mut answers)?.number)
}

impl Shared {
    /// Whether nothing is told, or want of memory, or want of a thread if there are threads. None where memory is
    /// wanting beside the run.
    fn is_so<R: Threads + Wait + Sync>(&self, rt: &R, alloc: Global) -> Option<bool> {
        let number = told(rt, alloc, self.n)?;
        Some(match number {
            0 | 8 | 14 | 33 => true,
            9 => self.has_threads,
            _ => false,
        })
    }
}

// `.ci/refusals` refuses each growth and each thread in turn.
#[test]
fn a_refused_growth_is_told_as_want_of_a_thread_only_by_threads(rt: HostRuntime) {
    for shared in &SHARED {
        let so = shared.is_so(&rt, rt.alloc());
        assert!(rt; so != Some(false), "on 2^{} chips", shared.n);
    }
}
