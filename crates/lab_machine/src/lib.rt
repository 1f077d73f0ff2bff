//! A machine of the laboratory: its sizes are values, so its routers may have any room.
#![tactic(auto)]

mod copying;
mod log_room;
mod machine;

pub use cm_array::LAST_CLOCK;
pub use machine::{LabMachine, RoomFault};
