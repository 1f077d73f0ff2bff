//! What the program does that wants no thread: sessions of one chip, listings, blank images, exchanges of blocks.
#![tactic(auto)]

mod blanks;
mod laws;
mod listed;
mod one_chip;
mod program;
mod session;
mod texts;
mod tools;
mod weaves;

pub use blanks::fresh;
pub use laws::{chip_faults_are_faults, chip_texts_are_programs};
pub use listed::list;
pub use session::chip_session;
pub use tools::{chip_line, fresh_line, list_line};
pub use weaves::{WeaveLine, weave_files};
