//! The route of one message while a program runs, and why the message waits.
#![tactic(auto)]

mod route_laws;
mod route_lines;
mod routes;
mod waits;
mod whereabouts;

pub use route_laws::{ways_are_told_so, who_need_not_wait_crosses};
pub use routes::{Excerpt, RouteFault, route};
pub use waits::Wait;
