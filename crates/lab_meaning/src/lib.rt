//! What a source says as a program, and that its expansion is read as that program: definitions and laws.
#![tactic(auto)]

mod laws;

pub use laws::{
    expansions_are_programs, expansions_do_phrases, faults_are_of_programs, lines_say_phrases,
    phrases_stand_in_their_program, plain_sources_are_programs, sources_macros_stand,
};
