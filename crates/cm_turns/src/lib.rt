//! A worker of a team: what it does in a round with its blocks and the ends of their lanes, and in a whole run.
#![tactic(auto)]

mod turn;
mod worker;

pub use worker::{Worker, ends_each};
