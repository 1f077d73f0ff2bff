//! The global wire: the OR of flag GLOBAL over all processors.
#![tactic(auto)]

mod global;

pub use global::{chip_or, wire};
