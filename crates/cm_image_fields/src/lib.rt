//! Fields of an image: its header, its cut wires, and the planes of one chip.
#![tactic(auto)]

mod cuts;
mod eights;
mod header;
mod numbers;
mod passing;
mod planes;

pub use cuts::{cuts_len, push_cuts, take_routing, version_of};
pub use eights::{AT_ONCE, EIGHT_LEN, eight_at, eight_from, put_eight};
pub use header::{Header, push_head, shape, take_header};
pub use numbers::{
    push, push_u8, push_u16, push_u64, push_zeros, take_chip_number, take_u8, take_u16, take_u32,
    take_u64,
};
pub use passing::behind_memory;
pub use planes::{BLANK_CHIP_LEN, LISTING_LEN, take_flags, take_memory};
