//! The exchange of a machine's blocks, one step at a time.
#![tactic(auto)]

mod first;
mod kinds;
mod lane;
mod laws;
mod world;

pub use first::{Refused, WorldFault};
pub use laws::{blocks_follow, runs_are_exchanges};
pub use world::{NotNow, World};
