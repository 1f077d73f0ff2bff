//! Messages through a list of acts with petit cycles: they stay in one row, and tickets cross in their
//! place.
#![tactic(auto)]

mod choosing;
mod ranking;
mod routed;
mod router_engine;
mod row;

pub use cm_slots::{Arrivals, Shape};
pub use router_engine::RouterEngine;
