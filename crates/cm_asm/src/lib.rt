//! The assembler: program texts to programs, and programs to their listings.
#![tactic(auto)]

mod assembler;
mod fields;
mod listings;
mod operands;
mod program;
mod reader;
mod single_pass;
mod statements;

pub use assembler::assemble;
pub use cm_language::{AsmFault, AsmKind};
pub use listings::push_act_line;
pub use operands::{read_direction, read_nano};
pub use program::Program;
pub use reader::{Reader, is_name};
pub use statements::verb_of;
