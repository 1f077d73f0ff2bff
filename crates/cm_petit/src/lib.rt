//! One petit cycle of the router, on all chips of a cube at once, and its phases.
#![tactic(auto)]

mod machine;
mod phases;
mod ready;

pub use machine::cycle;
pub use phases::{cross_all, deliver, inject};
pub use ready::{are_routers, has_log_room, has_space, is_at_rest};
