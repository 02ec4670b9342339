//! Entries in the order in which they came.

ghost use Rattle.std.specs.Prelude.{◌≡◌, ◌++◌, ◌∷◌, [], ◌==◌, length, is_some, if◌then◌else◌, OnOk, OnErr};
ghost use Rattle.std.specs.List.{position};
ghost use Rattle.std.specs.Map.{keys_of, values_of, lookup};
ghost use Rattle.std.specs.Option.{option_copied};

use crate::seed::Seed;
use indexmap::IndexMap;
use std::alloc::{AllocError, Global};
use std::hash::Hash;
use std::marker::Model;

/// Entries in the order in which they came, each with a key of its own. An entry is found by its key without a walk.
/// A contract sees the list of the pairs.
#[derive(Drop)]
pub struct Table<K: Copy + Eq + Hash, V: Copy> {
    map: IndexMap<K, V, Seed>,
}

impl<K: Copy + Eq + Hash, V: Copy> Model for Table<K, V> {
    ghost use Rattle.std.specs.Prelude.{List};

    ghost Value = { List (K × V) };

    ghost view = { λ t. t.map.entries };
}

impl<K: Copy + Eq + Hash, V: Copy> Table<K, V> {
    /// No entry. The seed is made from all keys that will come.
    pub fn new(alloc: Global, seed: Seed) -> Table<K, V>
        ensures { result ≡ [] }
    {
        Table {
            map: IndexMap::with_hasher(alloc, seed),
        }
    }

    /// The seed with which it was made.
    pub fn seed(&self) -> Seed {
        *self.map.hasher()
    }

    /// How many entries there are.
    pub fn len(&self) -> usize
        ensures { result ≡ length self.now }
    {
        self.map.len()
    }

    /// Whether there is none.
    pub fn is_empty(&self) -> bool
        ensures { result ≡ (length self.now == 0) }
    {
        self.len() == 0
    }

    /// The keys, in the order of the entries.
    pub fn keys(&self) -> &[K]
        ensures { result.now ≡ keys_of self.now }
    {
        self.map.keys().as_slice()
    }

    /// The values, in the order of the entries.
    pub fn values(&self) -> &[V]
        ensures { result.now ≡ values_of self.now }
    {
        self.map.values().as_slice()
    }

    /// The place of the entry of a key, if there is one.
    pub fn place(&self, key: &K) -> Option<usize>
        ensures { result ≡ position (K.eq key.now) (keys_of self.now) }
    {
        self.map.get_index_of(key)
    }

    /// The value of a key, if it has an entry.
    pub fn get(&self, key: &K) -> Option<&V>
        ensures { option_copied result ≡ lookup (K.eq key.now) self.now }
    {
        self.map.get(key)
    }

    /// Puts an entry after the others, unless its key has one.
    ///
    /// # Errors
    /// `AllocError` where memory is refused; then all stays as it was.
    pub fn insert_new(&mut self, key: K, value: V) -> Result<(), AllocError>
        ensures ok { OnOk result (self.new ≡ (if is_some (lookup (K.eq key) self.old) then self.old else self.old ++ (key, value) ∷ [])) }
        ensures err { OnErr result (self.new ≡ self.old) }
    {
        if self.map.contains_key(&key) {
            return Ok(());
        }
        self.map.insert(key, value)?;
        Ok(())
    }
}
