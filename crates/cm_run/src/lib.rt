//! `cm1 run`: a session over files, whoever runs it.
#![tactic(auto)]

mod files;
mod session_runner;
mod sharing;

pub use files::{RunLine, run_files};
pub use session_runner::{Alone, SessionRunner};
pub use sharing::Sharing;
