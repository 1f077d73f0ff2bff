//! Images of blank machines of any room, with wires cut and by either rule; and wires that are drawn.
#![tactic(auto)]

mod blanks;
mod draws;
mod fresh_laws;
mod wires;

pub use blanks::{FreshFault, WireEnd, fresh, routing_with, rule_of, stray};
pub use draws::draw;
pub use fresh_laws::{draws_are_published_ones, wires_are_drawn_so};
pub use wires::cut_wires;
