//! Rows of planes: one truth table, or two, over the rows of many chips at once, in place.
#![tactic(auto)]

mod block;
mod kernel;
mod memory_alone;
mod places;
mod tile;

pub use kernel::compute;
pub use memory_alone::compute_memory;
pub use places::Places;
