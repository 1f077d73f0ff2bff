//! Images of machines: writing their bytes.
#![tactic(auto)]

mod blank;
mod counts;
mod dense;
mod dumps;
mod laws;
mod sending;

pub use blank::blank_image;
pub use dumps::dump;
pub use laws::texts_are_short;
pub use sending::{DumpFault, DumpRoom, dump_into};
