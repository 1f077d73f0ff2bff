//! Workers: threads that go through the blocks of a machine, and meet at the rounds of a run.
#![tactic(auto)]

mod forked;
mod post;
mod running;
mod shift;
mod turn;

pub use cm_gates::{ForkFault, Gate, NoThread, OutOf, Passage, rounds_are_told_by_number};
pub use forked::Forked;
pub use post::Post;
pub use running::{CutSizes, Run, run_blocks};
pub use turn::Crew;
