//! Why a macro, or a line of a program text, is refused.

ghost use Rattle.std.specs.Prelude.{◌≡◌};
ghost use Rattle.cm_language.specs.Faults.{kind_of_macro_fault};

use thiserror::Error;

/// Why a macro is not expanded, the first cause of these in this order.
#[derive(Clone, Copy, Debug, PartialEq, Eq, Error)]
pub enum MacroFault {
    #[error("fields meet in part, or the product's field meets a factor's")]
    Overlap,
    #[error("fields have different lengths, or the number does not fit")]
    Lengths,
    #[error("a flag that the macro writes is the context's, or cannot be set")]
    Scratch,
    #[error("a product stands under a condition")]
    Context,
    #[error("a growth of memory was refused")]
    Memory,
}

/// What is wrong with a line of a program text.
#[derive(Clone, Copy, Debug, PartialEq, Eq, Error)]
pub enum AsmKind {
    #[error("a field has 1 to 64 bits")]
    Width,
    #[error("a field ends below bit 4096")]
    Range,
    #[error("fields meet in part, or the product's field meets a factor's")]
    Overlap,
    #[error("fields have different lengths, or the number does not fit")]
    Lengths,
    #[error("a flag that the macro writes is the context's, or cannot be set")]
    Scratch,
    #[error("a product stands under a condition")]
    Context,
    #[error("a growth of memory was refused")]
    Memory,
    #[error("unknown first word")]
    Word,
    #[error("wrong number of operands, or a word that is none of those listed")]
    Operands,
    #[error("not a number, or out of its range")]
    Number,
    #[error("not a name, or not defined")]
    Name,
    #[error("the name was defined before")]
    Twice,
    #[error("more than 65535 acts")]
    TooLong,
}

impl MacroFault {
    /// The same cause as the kind of a faulty line.
    pub fn kind(self) -> AsmKind
        ensures value { result ≡ kind_of_macro_fault self }
    {
        match self {
            MacroFault::Overlap => AsmKind::Overlap,
            MacroFault::Lengths => AsmKind::Lengths,
            MacroFault::Scratch => AsmKind::Scratch,
            MacroFault::Context => AsmKind::Context,
            MacroFault::Memory => AsmKind::Memory,
        }
    }
}

/// The first faulty line of a program text, counted from 1, blank ones too.
#[derive(Clone, Copy, Debug, PartialEq, Eq, Error)]
#[error("line {line}: {kind}")]
pub struct AsmFault {
    pub line: u64,
    pub kind: AsmKind,
}
