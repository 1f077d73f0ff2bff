//! Debugger sessions over any runner, any source of commands and any sink of answers.
#![tactic(auto)]

mod answers;
mod buffered_output;
mod commands;
mod console;
mod debugger;
mod out_of;
mod reader;
mod reader_operands;
mod running;
mod sessions;
mod stretch;

pub use answers::{push_bit, push_number, push_word};
pub use buffered_output::{BufferedOutput, CutOff};
pub use cm_session::SessionFault;
pub use debugger::Debugger;
pub use out_of::OutOf;
pub use reader::read_command;
pub use sessions::session;
