//! Blocks and rounds, as definitions with laws over them: a machine is cut into bands that go through a run
//! alone, but for the rounds, at which each takes in what another sends. It is definitions and proofs.
#![tactic(auto)]

mod laws;

pub use laws::{
    blocks_are_the_whole, blocks_begin, blocks_go_on, blocks_step_alone, leaving_makes_room,
    leaving_then_taking_in, local_steps_need_no_parcel, rounds_end_the_run,
};
