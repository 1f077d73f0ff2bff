//! The one list of refusals: their names and causes by number, and the numbers of what is wrong with texts and images.
#![tactic(auto)]

mod names;
mod numbers;

pub use names::fault_name;
pub use numbers::{image_number, kind_number};
