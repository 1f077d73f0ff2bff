//! Workers that run on: each has its blocks and the ends of their lanes, and none is joined before the end of a run.
#![tactic(auto)]

mod admission;
mod chooser;
mod gathering;
mod held;
mod lanes;
mod laws;
mod resident;
mod running;
mod shared_list;
mod short_lists;
mod teams;
mod together;
mod worker_parts;

pub use chooser::Chooser;
pub use cm_turns::Worker;
pub use gathering::in_order;
pub use laws::{lanes_are_of_the_exchange, teams_leave_their_machine};
pub use resident::Resident;
pub use teams::team;
