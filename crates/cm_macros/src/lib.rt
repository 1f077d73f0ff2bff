//! Macros as acts: `expand` puts the acts of a macro behind those of a list.
#![tactic(auto)]

mod acts;
mod expansion;
mod fits;
mod product;
mod pushes;

pub use acts::{Tables, address, carry, clear_flag, nano, zero};
pub use cm_language::{Context, Macro, MacroFault};
pub use expansion::{count_acts, expand};
