//! The command line of the program: which subcommand the words ask for.
#![tactic(auto)]

mod app;
mod fault;
mod laws;
mod line;

pub use fault::LineFault;
pub use laws::lines_and_bad_lines;
pub use line::{Line, command};
