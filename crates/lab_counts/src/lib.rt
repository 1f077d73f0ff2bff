//! What petit cycles do in each dimension of the cube and at each chip, counted beside the cycle itself, and lines of
//! tables that tell it.
#![tactic(auto)]

mod chips;
mod counts;
mod crossing_laws;
mod crossings;
mod laws;
mod tables;

pub use chips::{ChipCrossings, blank_chips, chip_table};
pub use counts::{Counts, watched_cycle};
pub use crossing_laws::crossings_are_told_so;
pub use crossings::{Crossings, in_all};
pub use laws::{chips_add_up, counts_are_told_so};
pub use tables::{push_counted_lines, push_hundredths, push_last_digit, push_last_two};
