//! The exchange of blocks, one step at a time: which steps there are and when they can be taken, as definitions
//! with laws over them, and the type of a step.
#![tactic(auto)]

mod laws;
mod stand;
mod step;

pub use laws::{
    lanes_have_two_ends, lanes_hold_what_is_due, orders_come_to_an_end, rounds_are_due_in_order,
    steps_are_counted, words_tell_steps, worlds_are_never_stuck,
};
pub use stand::Stand;
pub use step::Step;
