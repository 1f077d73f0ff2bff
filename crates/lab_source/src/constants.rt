//! The constants that a source has defined.

ghost use Rattle.std.specs.Prelude.{◌≡◌, ◌++◌, ◌∷◌, [], None, OnOk, OnErr};
ghost use Rattle.lab_source.specs.Layout.{numbered, number_named, number_said};

use cm_bits::{NoMemory, read_number};
use indexmap::IndexMap;
use std::alloc::Global;
use std::marker::Model;

/// Numbers by their names, in order of definition.
#[derive(Drop)]
pub struct Constants {
    by_name: IndexMap<Vec<u8>, u64>,
}

impl Model for Constants {
    ghost use Rattle.std.specs.Prelude.{List, map};
    ghost use Rattle.lab_source.specs.Layout.{NamedNumber, numbered};

    ghost Value = { List NamedNumber };

    ghost view = { λ constants. map (λ e. numbered e.0.items e.1) constants.by_name.entries };
}

impl Constants {
    /// Where no line has defined any.
    pub fn new(alloc: Global) -> Constants
        ensures { result ≡ [] }
    {
        Constants {
            by_name: IndexMap::new(alloc),
        }
    }

    /// The number of a name.
    pub fn find(&self, name: &[u8]) -> Option<u64>
        ensures { result ≡ number_named self.now name.now }
    {
        self.by_name.get(name).copied()
    }

    /// The number that a word says: a constant's, or its own.
    pub fn number(&self, word: &[u8]) -> Option<u64>
        ensures { result ≡ number_said self.now word.now }
    {
        match self.find(word) {
            Some(number) => Some(number),
            None => read_number(word),
        }
    }

    /// A number under a name that is not taken. Where memory is wanting nothing has changed.
    pub fn define(&mut self, alloc: Global, name: &[u8], number: u64) -> Result<(), NoMemory>
        requires { number_named self.old name.now ≡ None }
        ensures ok { OnOk result (self.new ≡ self.old ++ numbered name.now number ∷ []) }
        ensures err { OnErr result (self.new ≡ self.old) }
    {
        let owned = Vec::from_slice(alloc, name)?;
        if self.by_name.insert(owned, number).is_err() {
            return Err(NoMemory);
        }
        Ok(())
    }
}
