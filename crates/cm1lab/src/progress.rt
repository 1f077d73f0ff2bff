//! What is told on standard error of work that takes longer than a second.

use lab_data::Watch;
use std::rt::Clock;
use std::time::Instant;

/// The clock is looked at once in so many acts. Of the largest machine so many petit cycles take a third of a second,
/// where all processors send.
const ACTS_A_LOOK: usize = 64;

/// Tells how far a program is: a line in each second but the first, and after twenty each time a tenth more has passed.
#[derive(Drop)]
pub struct Progress<'a, R> {
    rt: &'a R,
    began: Option<Instant>,
    /// After how many seconds a line is told next.
    next: u64,
}

impl<'a, R: Clock> Progress<'a, R> {
    /// Of a program that begins now.
    pub fn new(rt: &'a R) -> Progress<'a, R> {
        Progress {
            rt,
            began: Instant::now(rt).ok(),
            next: 1,
        }
    }
}

impl<R: Eprint + Clock> Watch for Progress<'_, R> {
    fn see(&mut self, done: usize, all: usize) {
        if done % ACTS_A_LOOK != 0 {
            return;
        }
        let passed = seconds_since(self.rt, self.began);
        if passed < self.next {
            return;
        }
        self.next = passed.saturating_add((passed / 10).max(1));
        let _ = eprintln!(self.rt; "cm1lab: {done} of {all} acts");
    }
}

/// How many whole seconds have passed; 0 where the clock does not tell.
pub fn seconds_since<R: Clock>(rt: &R, began: Option<Instant>) -> u64 {
    let Some(began) = began else {
        return 0;
    };
    match began.elapsed(rt) {
        Ok(passed) => passed.as_secs(),
        Err(_) => 0,
    }
}
