//! A machine cut into blocks, and the rounds of a run at which these exchange.
#![tactic(auto)]

mod block;
mod copying;
mod exchange;
mod few;
mod laws;
mod local;
mod parcel;
mod round;

pub use block::{Block, SplitFault, join, join_and_keep, split, split_in};
pub use copying::copy_by_blocks;
pub use few::rounds_are_few;
pub use laws::{blocks_are_joined, cuts_are_spared, logs_have_room, rounds_are_followed};
pub use parcel::Parcel;
pub use round::{Kind, Round, rounds};
