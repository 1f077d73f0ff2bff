//! The exchange of a machine's blocks, stepped by the lines of a text or by itself.
#![tactic(auto)]

mod alone;
mod fault;
mod hearing;
mod outgoing;
mod reader;
mod sessions;

pub use alone::weave_self;
pub use fault::WeaveFault;
pub use reader::read_step;
pub use sessions::{give_up, weave_session};
