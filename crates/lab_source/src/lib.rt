//! Sources: programs with constants, lines that are repeated, and phrases. `expand` turns one into a text of
//! the program language.
#![tactic(auto)]

mod acts;
mod constants;
mod expanding;
mod expansion;
mod fault;
mod fits;
mod layout;
mod plain;
mod says;
mod verb;

pub use acts::acts_of;
pub use cm_language::AsmKind;
pub use expansion::expand;
pub use fault::{SourceFault, SourceKind};
pub use fits::fault_of;
pub use says::{phrase_of, verb_of};
pub use verb::PhraseVerb;
