//! One chip's node of the router.
#![tactic(auto)]

mod cuts;
mod delivery;
mod leaving;
mod letters;
mod node;
mod records;
mod routing;
mod senders;

pub use cm_message::{Event, Message, Rule, Tag};
pub use cuts::Cuts;
pub use delivery::{Deliveries, Delivery, pass_over, receives, who_has_not_arrived_is_kept};
pub use leaving::is_older;
pub use letters::{
    acknowledge, asking, chip_asks, chip_is_acknowledged, is_idle, may_ask, message_sent,
    take_none, tell_injected,
};
pub use node::Node;
pub use records::{ChipRecords, Records};
pub use routing::Routing;
pub use senders::{MOST_INJECTED, Senders, with_one};
