//! What tests draw, and how they look at machines: for the crates of tests alone.
#![tactic(auto)]

mod building;
mod drawing;
mod four_messages;
mod growths;
mod looking;
mod numbers;
mod routes;
mod running;

pub use building::{
    ask, ask_again, asking_machine, poke_field, poke_plane, put_flags, put_messages, put_planes,
    put_routing,
};
pub use drawing::Draws;
pub use four_messages::{cut_in_two_places, four_messages_each, has_one_of_four, one_of_four};
pub use growths::{Call, first_not_so};
pub use looking::{
    are_same, copied, has_full_buffer, have_same_bits, have_same_events, have_same_messages,
    have_same_routing, route_alike, tells,
};
pub use numbers::{address, flag, processor};
pub use routes::{
    OF_FOUR_CHIPS, OF_TWO_CHIPS, OF_TWO_CHIPS_WITH_ROOM_FOR_SEVEN, OF_TWO_CHIPS_WITH_ROOM_FOR_TWO,
    Route, first_wrong,
};
pub use running::{run_beside_plain, sends_or_stays};
