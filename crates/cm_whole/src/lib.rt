//! What holds of every session, from the bytes that it is given: one law, whose words are those of the headline.
#![tactic(auto)]

mod laws;

pub use laws::{sessions_are_as_written, sums_are_run_whole};
