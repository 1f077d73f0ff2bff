//! What an image is: the bytes of a machine, and the earliest fault of all other bytes; with its laws.
#![tactic(auto)]

mod fault;
mod laws;

pub use fault::ImageFault;
pub use laws::{
    only_texts_are_read, texts_are_apart, texts_are_read, texts_have_no_fault, texts_leave_out_logs,
};
