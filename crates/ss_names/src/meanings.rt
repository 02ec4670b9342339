//! What names mean.

ghost use Rattle.std.specs.Prelude.{◌≡◌, ◌<◌, [], length, slice_get, Some, OnOk};
ghost use Rattle.std.specs.Map.{keys_of, values_of};
ghost use Rattle.ss_names_declarations.specs.NameTable.{place_in, value_for, with_first};

use crate::meaning::Meaning;
use ss_base::Spelling;
use ss_names_declarations::{Seed, Table, insert_spelled};
use std::alloc::{AllocError, Global};
use std::marker::Model;

/// Global and derived names, each with what it means. A contract sees the list of the pairs.
#[derive(Drop)]
pub struct Meanings {
    map: Table<Spelling, Meaning>,
}

impl Model for Meanings {
    ghost use Rattle.std.specs.Prelude.{◌≡◌, true, List};
    ghost use Rattle.std.specs.Map.{keys_of};
    ghost use Rattle.ss_tree.specs.Names.{NameBytes};
    ghost use Rattle.ss_names.specs.declared.meaning.Meaning.{Meaning};
    ghost use Rattle.ss_base.specs.Spellings.{are_short};

    ghost Value = { List (NameBytes × Meaning) };

    ghost view = { λ m. m.map };

    ghost invariant = { λ m. are_short (keys_of m.map) ≡ true };
}

impl Meanings {
    /// No name.
    pub fn new(alloc: Global, seed: Seed) -> Meanings
        ensures { result ≡ [] }
    {
        Meanings {
            map: Table::new(alloc, seed),
        }
    }

    /// Adds what a name means, unless it means something already.
    ///
    /// # Errors
    /// `AllocError` where memory is refused.
    pub fn insert(&mut self, name: Spelling, meaning: Meaning) -> Result<(), AllocError>
        ensures { OnOk result (self.new ≡ with_first self.old (name, meaning)) }
    {
        // no spelling is longer than SPELLING_LIMIT
        let _ = name.bytes();
        insert_spelled(&mut self.map, name, meaning)
    }

    /// The place of the name of this spelling.
    pub fn place(&self, spelling: &[u8]) -> Option<usize>
        ensures { result ≡ place_in self.now spelling.now }
    {
        let map = &self.map;
        match Spelling::of(spelling) {
            Some(spelling) => map.place(&spelling),
            None => None,
        }
    }

    /// What a name means.
    pub fn meaning(&self, name: &Spelling) -> Option<Meaning>
        ensures { result ≡ value_for self.now name.now }
    {
        self.map.get(name).copied()
    }

    /// The spelling of the name at this place.
    pub fn spelling(&self, place: usize) -> &[u8]
        requires { place < length self.now }
        ensures { slice_get (keys_of self.now) place ≡ Some result.now }
    {
        match self.map.keys().get(place) {
            Some(name) => name.bytes(),
            None => &[],
        }
    }

    /// What the names mean, in the order of the text.
    pub fn values(&self) -> &[Meaning]
        ensures { result.now ≡ values_of self.now }
    {
        self.map.values()
    }

    /// How many names there are.
    pub fn len(&self) -> usize
        ensures { result ≡ length self.now }
    {
        self.map.len()
    }
}
