//! Memory fields, and how two of them meet.

ghost use Rattle.std.specs.Prelude.{◌≡◌, ◌+◌, ◌≤◌, ◌↔◌, ℕ, IfOk};
ghost use Rattle.std.specs.Result.{result_err};
ghost use Rattle.cm_bits.specs.Field.{IsIn, field_fault, meeting};

use std::marker::Model;
use thiserror::Error;

/// Why no field has an address and a length.
#[derive(Clone, Copy, Debug, PartialEq, Eq, Error)]
pub enum FieldFault {
    #[error("a field has 1 to 64 bits")]
    Width,
    #[error("a field ends below bit 4096")]
    Range,
}

/// A memory field: `len` memory bits of each processor, from address `at` up. Bit 0 of its value
/// lies at `at`.
#[derive(Clone, Copy, Debug, PartialEq, Eq)]
pub struct Field {
    first: u16,
    bits: u16,
}

impl Model for Field {
    ghost use Rattle.cm_bits.specs.Span.{Span, IsField};

    ghost Value = { Span };

    ghost view = { λ field. record { at = field.first; len = field.bits } };

    ghost invariant = { λ field. IsField (record { at = field.first; len = field.bits }) };

    ghost inverse = { λ span. record { first = span.at; bits = span.len } };
}

impl Field {
    /// The field of `len` bits from address `at` on. Other than 1 to 64 bits, or a bit above address 4095, is a fault.
    pub fn new(at: u16, len: u16) -> Result<Field, FieldFault>
        ensures ok { IfOk result (λ field. (field.at ≡ at) × (field.len ≡ len)) }
        ensures fault { result_err result ≡ field_fault at len }
    {
        if len == 0 || len > 64 {
            Err(FieldFault::Width)
        } else if at as u32 + len as u32 > 4096 {
            Err(FieldFault::Range)
        } else {
            Ok(Field {
                first: at,
                bits: len,
            })
        }
    }

    /// The address of bit 0, which is the lowest.
    pub fn at(self) -> u16
        ensures value { result ≡ self.at }
        ensures within { result + self.len ≤ 4096 }
    {
        self.first
    }

    /// How many bits the field has, 1 to 64.
    pub fn len(self) -> u16
        ensures value { result ≡ self.len }
        ensures some { 1 ≤ result }
        ensures narrow { result ≤ 64 }
    {
        self.bits
    }

    /// How two fields meet: they are equal, have no bit in common, or have some.
    pub fn meets(&self, other: &Field) -> Meets
        ensures value { result ≡ meeting self.now other.now }
        ensures same { (result ≡ Meets.Same) ↔ (self.now ≡ other.now) }
        ensures apart { (result ≡ Meets.Apart)
            ↔ ((address : ℕ) → IsIn self.now address → ¬ (IsIn other.now address)) }
    {
        if self.at() + self.len() <= other.at() || other.at() + other.len() <= self.at() {
            Meets::Apart
        } else if self == other {
            Meets::Same
        } else {
            Meets::Partly
        }
    }
}

/// How two fields meet.
#[derive(Clone, Copy)]
pub enum Meets {
    /// They are equal.
    Same,
    /// They have no bit in common.
    Apart,
    /// They have bits in common and are not equal.
    Partly,
}
