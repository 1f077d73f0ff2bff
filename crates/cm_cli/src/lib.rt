//! The library behind the program: what is done for each command line, and several workers for a session.
#![tactic(auto)]

mod performing;
mod several;

pub use performing::perform;
pub use several::Several;
