//! A team of workers that is made and run by its caller.
#![tactic(auto)]

mod team;
#[cfg(test)]
mod tests;

pub use team::run_by_team;
