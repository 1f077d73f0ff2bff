//! Ends of bytes in memory that fail when told to: for the crates of tests alone.
#![tactic(auto)]

mod bytes;
mod room;

pub use bytes::Bytes;
pub use room::Room;
