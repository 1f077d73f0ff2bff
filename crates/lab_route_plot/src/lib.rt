//! Pictures of routes: the way of one message over chips and petit cycles, as SVG. Of all else lab_plot makes the
//! picture.
#![tactic(auto)]

mod drawing;
mod laws;
mod legs;
mod rows;

pub use drawing::plot;
pub use laws::routes_are_drawn_so;
pub use legs::Cycles;
