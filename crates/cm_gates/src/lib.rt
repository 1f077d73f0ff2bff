//! What all runners with workers share: gates, how a machine is shared out, what is dealt out and handed over, and what
//! may be lacking.
#![tactic(auto)]

mod dealing;
mod exchange;
mod forks;
mod gate;
mod laws;
mod out_of;

pub use dealing::{collect, deal};
pub use exchange::hand_over;
pub use forks::{ForkFault, Share, fault_of, share_of, told};
pub use gate::{Gate, Passage};
pub use laws::rounds_are_told_by_number;
pub use out_of::{NoThread, OutOf};
