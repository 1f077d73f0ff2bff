//! Debugger sessions: what each command does and what is answered to it, one act after another, as
//! definitions with laws over them. It is definitions, the small types that they speak of, and proofs;
//! what reads commands and answers them stands in another crate.
#![tactic(auto)]

mod command;
mod fault;
mod laws;
mod whole_laws;

pub use command::{CLOCK, Command, Refusal};
pub use fault::SessionFault;
pub use laws::{
    lines_can_be_parted, sessions_conserve_the_account, sessions_never_go_back,
    stretches_are_answered_alike, texts_can_be_parted,
};
pub use whole_laws::{
    lines_run_their_acts, sessions_deliver, sessions_do_macros, sessions_keep_machines,
    sessions_keep_messages,
};
