//! A petit cycle of the router on nodes, one for each chip.
#![tactic(auto)]

mod nodes;

pub use nodes::{are_nodes, cycle_of_nodes};
