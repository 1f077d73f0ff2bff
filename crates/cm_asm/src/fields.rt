//! The fields that a text has defined so far.

ghost use Rattle.std.specs.Prelude.{◌≡◌, ◌++◌, ◌∷◌, [], None, OnOk, OnErr, length, slice_get};
ghost use Rattle.std.specs.Option.{option_map};
ghost use Rattle.cm_language.specs.Names.{named, field_named};

use cm_bits::{Field, NoMemory};
use indexmap::IndexMap;
use std::alloc::Global;
use std::marker::Model;

/// Fields by their names, in order of definition.
#[derive(Drop)]
pub struct Fields {
    by_name: IndexMap<Vec<u8>, Field>,
}

impl Model for Fields {
    ghost use Rattle.std.specs.Prelude.{List, map};
    ghost use Rattle.cm_language.specs.Names.{NamedField, named};

    ghost Value = { List NamedField };

    ghost view = { λ fields. map (λ e. named e.0.items e.1) fields.by_name.entries };
}

impl Fields {
    /// No field yet.
    pub fn new(alloc: Global) -> Fields
        ensures { result ≡ [] }
    {
        Fields {
            by_name: IndexMap::new(alloc),
        }
    }

    /// The field of a name.
    pub fn find(&self, name: &[u8]) -> Option<Field>
        ensures { result ≡ field_named self.now name.now }
    {
        self.by_name.get(name).copied()
    }

    /// A field under a name that is not taken. Where memory is wanting nothing has changed.
    pub fn define(&mut self, alloc: Global, name: &[u8], field: Field) -> Result<(), NoMemory>
        requires { field_named self.old name.now ≡ None }
        ensures ok { OnOk result (self.new ≡ self.old ++ named name.now field ∷ []) }
        ensures err { OnErr result (self.new ≡ self.old) }
    {
        let owned = Vec::from_slice(alloc, name)?;
        if self.by_name.insert(owned, field).is_err() {
            return Err(NoMemory);
        }
        Ok(())
    }

    /// How many fields are defined.
    pub fn len(&self) -> usize
        ensures { result ≡ length self.now }
    {
        self.by_name.len()
    }

    /// A name and its field, by their place in order of definition.
    pub fn get(&self, index: usize) -> Option<(&[u8], Field)>
        ensures { option_map (λ p. named p.0.now p.1) result ≡ slice_get self.now index }
    {
        match self.by_name.get_index(index) {
            Some((name, field)) => Some((name.as_slice(), *field)),
            None => None,
        }
    }
}
