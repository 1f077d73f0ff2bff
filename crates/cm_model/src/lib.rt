//! The definitions of the Connection Machine that every contract of this workspace cites, with laws
//! over them: processors, chips and the whole array, one instruction, a run of acts. The records of
//! instructions and messages stand here too, so that contracts name their fields.
#![tactic(auto)]

mod act;
mod delivery_laws;
mod found;
mod grid;
mod laws;
mod letters;
mod message;
mod rule;
mod run_laws;

pub use act::{Act, Nano};
pub use delivery_laws::{
    deliveries_are_of_messages, messages_are_in_one_place, messages_stand_or_were_delivered,
};
pub use found::Found;
pub use grid::{PlainGrid, opposite};
pub use laws::{
    account_is_conserved, blank_is_machine, crossings_keep_room, cuts_are_few,
    deliveries_are_apart, injected_stand_in_the_account, instructions_keep_the_account,
    leavers_are_unique, leavers_have_their_since, leavers_stand_at_their_place, logs_only_grow,
    machines_are_kept, messages_are_found, neighbours_lead_back, nobody_crosses_a_cut_wire,
    nobody_is_passed_over, payloads_are_received, room_is_kept, routings_are_told_by_wires,
    runs_are_told_by_buffers, runs_can_be_cut, runs_keep_machines, runs_keep_room,
    senders_are_acknowledged, steps_are_told_by_buffers, tags_stay_apart, targets_are_kept,
};
pub use letters::{RECEIVED_PAYLOAD, SENT_PAYLOAD, SENT_PROC, SENT_REL};
pub use message::{Event, Message, Tag};
pub use rule::Rule;
pub use run_laws::{
    delivered_are_received, machines_are_sound, runs_are_told_by_phases, sinces_stay_apart,
    steps_keep_soundness,
};
