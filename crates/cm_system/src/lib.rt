//! What a program does outside: files that it reads and writes, standard output, and the faults that it ends with.
#![tactic(auto)]

mod fault;
mod input_files;
mod output_files;
mod program_fault;
mod read_all;
mod reports;
mod system;
mod written;

pub use cm_args::LineFault;
pub use cm_language::{AsmFault, AsmKind};
pub use fault::ChipFault;
pub use input_files::{PROGRAM_LIMIT, Taken, take_both};
pub use output_files::{abort_files, finish_files, flush_out, make_ready, put_file};
pub use program_fault::ProgramFault;
pub use read_all::{TakeFault, take};
pub use reports::report;
pub use system::{PutFault, System};
pub use written::{Image, Written};
