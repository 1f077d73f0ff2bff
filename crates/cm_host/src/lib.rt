//! What lies outside of a program, by its runtime: the words of its command line, files, and the way on which standard
//! output goes out. No other crate opens a file.
#![tactic(auto)]

mod host;
mod pending;

pub use host::{Host, open};
pub use pending::{PendingFile, make_ready, put_file};
