//! Keys in the order in which they came.

ghost use Rattle.std.specs.Prelude.{◌≡◌, ◌++◌, ◌∷◌, [], if◌then◌else◌, OnOk, OnErr};
ghost use Rattle.std.specs.List.{position, list_any};

use crate::seed::Seed;
use crate::table::Table;
use std::alloc::{AllocError, Global};
use std::hash::Hash;
use std::marker::Model;

/// Keys in the order in which they came, each once. The place of a key is found without a walk. A contract sees the list.
// A set of indexmap would be loaded with all its methods by each crate above.
#[derive(Drop)]
pub struct Keys<K: Copy + Eq + Hash> {
    table: Table<K, ()>,
}

impl<K: Copy + Eq + Hash> Model for Keys<K> {
    ghost use Rattle.std.specs.Prelude.{List};
    ghost use Rattle.std.specs.Map.{keys_of};

    ghost Value = { List K };

    ghost view = { λ s. keys_of s.table };
}

impl<K: Copy + Eq + Hash> Keys<K> {
    /// No key. The seed is made from all keys that will come.
    pub fn new(alloc: Global, seed: Seed) -> Keys<K>
        ensures { result ≡ [] }
    {
        Keys {
            table: Table::new(alloc, seed),
        }
    }

    /// The keys.
    pub fn as_slice(&self) -> &[K]
        ensures { result.now ≡ self.now }
    {
        self.table.keys()
    }

    /// The place of a key, if it is there.
    pub fn place(&self, key: &K) -> Option<usize>
        ensures { result ≡ position (K.eq key.now) self.now }
    {
        self.table.place(key)
    }

    /// Whether a key is there.
    pub fn contains(&self, key: &K) -> bool
        ensures { result ≡ list_any (K.eq key.now) self.now }
    {
        self.table.get(key).is_some()
    }

    /// Puts a key after the others, unless it is there.
    ///
    /// # Errors
    /// `AllocError` where memory is refused; then all stays as it was.
    pub fn insert_new(&mut self, key: K) -> Result<(), AllocError>
        ensures ok { OnOk result (self.new ≡ (if list_any (K.eq key) self.old then self.old else self.old ++ key ∷ [])) }
        ensures err { OnErr result (self.new ≡ self.old) }
    {
        self.table.insert_new(key, ())?;
        Ok(())
    }
}
