//! The NEWS grid: sixteen processors a chip, and all chips of a cube, on one torus.
#![tactic(auto)]

mod grid;
mod laws;
mod row;

pub use grid::Grid;
pub use laws::{inside_and_edge_are_all, steps_are_the_torus};
pub use row::{incoming_band, incoming_row};
