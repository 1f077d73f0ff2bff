//! The calls of the laboratory that make texts of texts, under their own contracts. Must-fail edits turn their answers
//! here, where no proof of those crates is tried again for them.
#![tactic(auto)]

mod figures;
mod routes;
mod sources;
mod tables;

pub use figures::{read_numbers, read_picture, write_picture, write_png};
pub use routes::plot_route;
pub use sources::expand;
pub use tables::plot;
