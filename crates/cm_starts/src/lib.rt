//! Start words: a worker waits at one until it is told to begin, or not to.
#![tactic(auto)]

mod words;

pub use words::{Deal, Look, Place, Released, Sight, StartRule, Starter, Tell, Waiter, start_word};
