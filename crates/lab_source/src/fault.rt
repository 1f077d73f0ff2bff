//! Why a source is refused.

use cm_bits::NoMemory;
use cm_language::AsmKind;
use std::alloc::AllocError;
use thiserror::Error;

/// What is wrong with a line of a source.
#[derive(Clone, Copy, Debug, PartialEq, Eq, Error)]
pub enum SourceKind {
    /// What the program language refuses too.
    #[error("{0}")]
    Asm(AsmKind),
    #[error("`end` without `repeat`")]
    NoRepeat,
    #[error("`repeat` without `end`")]
    NoEnd,
    #[error("more than 65535 lines are to be carried out")]
    TooMany,
    #[error("more than 16777216 bytes come out")]
    TooLarge,
}

/// The first faulty line of a source, counted from 1, blank ones too.
#[derive(Clone, Copy, Debug, PartialEq, Eq, Error)]
#[error("line {line}: {kind}")]
pub struct SourceFault {
    pub line: u64,
    pub kind: SourceKind,
}

impl From<AsmKind> for SourceKind {
    ghost use Rattle.std.specs.Prelude.{◌≡◌};
    ghost use Rattle.lab_source.specs.declared.fault.SourceKind.TheVariants.{Asm};

    ghost from_gives = { λ kind fault. fault ≡ Asm kind };

    fn from(kind: AsmKind) -> SourceKind {
        SourceKind::Asm(kind)
    }
}

impl From<NoMemory> for SourceKind {
    ghost use Rattle.std.specs.Prelude.{◌≡◌};
    ghost use Rattle.cm_language.specs.declared.fault.AsmKind.TheVariants.{Memory};
    ghost use Rattle.lab_source.specs.declared.fault.SourceKind.TheVariants.{Asm};

    ghost from_gives = { λ _ fault. fault ≡ Asm Memory };

    fn from(_: NoMemory) -> SourceKind {
        SourceKind::Asm(AsmKind::Memory)
    }
}

impl From<AllocError> for SourceKind {
    ghost use Rattle.std.specs.Prelude.{◌≡◌};
    ghost use Rattle.cm_language.specs.declared.fault.AsmKind.TheVariants.{Memory};
    ghost use Rattle.lab_source.specs.declared.fault.SourceKind.TheVariants.{Asm};

    ghost from_gives = { λ _ fault. fault ≡ Asm Memory };

    fn from(_: AllocError) -> SourceKind {
        SourceKind::Asm(AsmKind::Memory)
    }
}
