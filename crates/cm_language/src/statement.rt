//! What a line of a program text says, other than a definition.

use crate::macros::{Context, Macro};
use cm_model::Act;

/// What the first word of a line asks for.
#[derive(Clone, Copy)]
pub enum Verb {
    Nano,
    Add,
    Sub,
    Less,
    Equal,
    Move,
    Select,
    Const,
    Shift,
    Mul,
    Set,
    Clear,
    If,
    Unless,
    Always,
    Cycle,
    Sense,
}

/// What a line says.
#[derive(Clone, Copy)]
pub enum Statement {
    /// The macros that follow stand under this context.
    Context(Context),
    /// The acts of this macro come next.
    Macro(Macro),
    /// This act comes next.
    Act(Act),
}
