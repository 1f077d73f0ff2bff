//! What a line that says a phrase asks for.

/// What the first word of a line asks for, where it is a phrase's.
#[derive(Clone, Copy, Debug, PartialEq, Eq)]
pub enum PhraseVerb {
    News,
    Chain,
    And,
    Or,
    Xor,
    Not,
    AddNumber,
    Test,
    Keep,
}
