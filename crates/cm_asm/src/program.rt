//! An assembled program.

ghost use Rattle.std.specs.Prelude.{◌≡◌, IfOk};
ghost use Rattle.cm_language.specs.Program.{ProgramText};
ghost use Rattle.cm_language.specs.Names.{NamedField};
ghost use Rattle.cm_language.specs.Listing.{listing};

use crate::fields::Fields;
use crate::listings::{push_acts, push_fields};
use cm_bits::NoMemory;
use cm_model::Act;
use std::alloc::Global;
use std::marker::Model;

/// The fields of a text in order of definition, and its acts.
#[derive(Drop)]
pub struct Program {
    fields: Fields,
    acts: Vec<Act>,
}

impl Model for Program {
    ghost use Rattle.cm_language.specs.Program.{ProgramText};

    ghost Value = { ProgramText };

    ghost view = { λ program. record { fields = program.fields; acts = program.acts.items } };
}

impl Program {
    pub(crate) fn new(fields: Fields, acts: Vec<Act>) -> Program
        ensures { result ≡ record { fields = fields; acts = acts.items } }
    {
        Program { fields, acts }
    }

    /// The acts of the program, in order.
    pub fn acts(&self) -> &[Act]
        ensures value { result.now ≡ self.now.acts }
    {
        self.acts.as_slice()
    }

    /// The fields and the acts as a text, which is itself a program text.
    pub fn listing(&self, alloc: Global) -> Result<Vec<u8>, NoMemory>
        ensures value { IfOk result (λ text. text.items ≡ listing self.now) }
    {
        let mut text = Vec::new(alloc);
        push_fields(&mut text, &self.fields)?;
        push_acts(&mut text, self.acts.as_slice())?;
        Ok(text)
    }
}
