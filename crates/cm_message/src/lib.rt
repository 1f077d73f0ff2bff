//! Messages of the router, their tags, their bytes, and the events of a log.
#![tactic(auto)]

mod form;
mod laws;

pub use cm_model::{Event, Message, Rule, Tag};
pub use form::{
    birth_in, bytes, of_bytes, origin_chip_in, origin_proc_in, payload_in, proc_in, rel_in,
};
pub use laws::{messages_are_read, only_their_bytes_are_read};
