//! Lanes: cells that carry one parcel in each use from one thread to another.
#![tactic(auto)]

mod found;
mod getting;
mod lane;
mod lends;
mod sending;
mod table;
mod waiting;
mod waking;

pub use getting::{Emptying, ToEnd, ToHold};
pub use lane::{Lane, Plan};
pub use sending::{Filling, FromEnd, FromHold};
