//! A front end: each line is a line of a program, whose acts are run at once, or a question, which is answered at once;
//! over any machine, runner, source of lines and sink of answers.
#![tactic(auto)]

mod for_all;
mod front_end;
mod hearing;
mod images;
mod laws;
mod questions;
mod reading;
mod talk;
mod telling;

pub use cm_image_format::ImageFault;
pub use cm_session::SessionFault;
pub use front_end::FrontEnd;
pub use images::{FrontFault, front_image};
pub use laws::{fronts_answer_as_sessions, fronts_read_back, fronts_run_their_programs};
pub use talk::front;
