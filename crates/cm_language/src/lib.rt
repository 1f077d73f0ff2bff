//! The language in which programs are written: macros over memory fields and what they do in whole
//! numbers, program texts line by line, and listings, with laws over them. It is definitions, the
//! small types that they speak of, and proofs; what reads and writes texts stands in other crates.
#![tactic(auto)]

mod fault;
mod laws;
mod macros;
mod statement;

pub use fault::{AsmFault, AsmKind, MacroFault};
pub use laws::{
    listings_are_their_own, listings_read_back, macros_are_right, macros_leave_the_rest,
    macros_stand_in_their_program, numbers_read_back, programs_are_listed, programs_are_whole,
};
pub use macros::{Context, Macro};
pub use statement::{Statement, Verb};
