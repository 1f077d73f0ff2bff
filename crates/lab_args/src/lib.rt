//! The command line of the laboratory: what its words ask for, or why they ask for nothing.
#![tactic(auto)]

mod blanks;
mod fault;
mod help;
mod laws;
mod loads;
mod operands;
mod rates;
mod reading;
mod tasks;

pub use blanks::Blank;
pub use fault::CommandFault;
pub use help::{HELP, VERSION};
pub use laws::{lines_are_refused, lines_ask_for};
pub use loads::Loads;
pub use operands::Operand;
pub use reading::{Asked, Command, Given, read_words};
