//! Pictures of the laboratory's tables: lines over petit cycles, over loads, over how long messages took, as SVG; and
//! the pieces that they have, of which other pictures are made.
#![tactic(auto)]

mod axes;
mod bins;
mod cells;
mod fault;
mod laws;
mod lines;
mod panels;
mod pictures;
mod pieces;
mod points;
mod rows;
mod ticks;

pub use axes::{Axis, along, axis_of};
pub use cells::{behind, cell, has_words, place, trim};
pub use fault::PlotFault;
pub use laws::{
    axes_have_round_ticks, axes_have_twelve_ticks, axes_join_their_numbers,
    first_lines_tell_tables, names_are_shown_so, petit_cycles_have_their_numbers,
    points_stand_on_their_panels, rows_have_faults, rows_tell_points,
};
pub use lines::{colour, push_circle, push_line_open, push_name};
pub use panels::{push_place, push_sides};
pub use pictures::{plot, push_head};
pub use ticks::{push_cycle_ticks, push_up};
