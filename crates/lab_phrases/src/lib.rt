//! Phrases: what a source can ask for beside macros, and what they do in each processor. A field comes from a
//! neighbour, or fields are taken bit by bit, or a number is added, or a flag tells whether a field is 0, and a field
//! keeps a flag. It is definitions, a small type and proofs; what expands them stands in lab_source.
#![tactic(auto)]

mod laws;
mod phrase;

pub use laws::{phrases_are_right, phrases_leave_the_rest};
pub use phrase::Phrase;
