//! The plain programs beside the definitions: machines kept bit by bit, which compute what the
//! definitions say, one place after another. They are slow, and are there to be run beside a fast one.
#![tactic(auto)]

mod buffer;
mod leaving;
mod letters;
mod machine;
mod router;

pub use machine::PlainMachine;
pub use router::PlainRouter;
