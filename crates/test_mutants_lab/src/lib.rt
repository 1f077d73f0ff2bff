//! The calls of the laboratory that make machines, or read for what, under their own contracts. Must-fail edits turn
//! their answers here, where no proof of those crates is tried again for them.
#![tactic(auto)]

mod blanks;
mod fronts;
mod loads;
mod studies;
mod tasks;
mod words;

pub use blanks::{cut_wires, fresh};
pub use fronts::{front, tell};
pub use loads::{fault, figures, table};
pub use studies::{route, study};
pub use tasks::perform;
pub use words::read_words;
