//! Lanes between two threads: one files the numbers from 1 on, the other draws them.
#![tactic(auto)]

mod numbers;
#[cfg(test)]
mod tests;

pub use numbers::{Lingers, draw_all, file_all, opened, relay};
