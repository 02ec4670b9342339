//! What the hashes of a table begin with.

use std::hash::{BuildHasher, DefaultHasher, Hasher};

/// The start of the hash of each key of a table. It is made from all keys that the table will hold. So nobody who writes
/// a text can choose its names by their hashes: one other name changes the hashes of all of them.
#[derive(Clone, Copy)]
pub struct Seed {
    start: DefaultHasher,
}

impl Seed {
    /// The seed that follows from a hash of all keys.
    pub fn of(keys: &DefaultHasher) -> Seed {
        let mut other = *keys;
        other.write_u8(0xff);
        let mut start = DefaultHasher::new();
        start.write_u64(keys.finish());
        start.write_u64(other.finish());
        Seed { start }
    }
}

impl BuildHasher for Seed {
    type Hasher = DefaultHasher;

    ghost build_hasher = { λ s. s.start };

    fn build_hasher(&self) -> DefaultHasher {
        self.start
    }
}
