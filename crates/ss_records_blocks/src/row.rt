// The permanent entities of a class.
ghost use Rattle.std.specs.Prelude.{◌≡◌, replicate, is_some, Some, None, MatchResult, ⊤};
ghost use Rattle.ss_records_blocks.specs.Places.{row_in};

use crate::store::BlockPlace;
use std::alloc::{AllocError, Global};
use std::marker::Model;

/// Where the permanent entities of a class lie, by index. A contract sees the list of their places, none until
/// they are made.
#[derive(Drop)]
pub struct Row {
    places: Vec<BlockPlace>,
    made: bool,
}

impl Model for Row {
    ghost use Rattle.std.specs.Prelude.{◌≡◌, List, [], Option, Some, None, cond, false};
    ghost use Rattle.ss_records_blocks.specs.declared.store.BlockPlace.{BlockPlace};

    ghost Value = { Option (List BlockPlace) };

    ghost view = { λ r. cond r.made (Some r.places.items) None };

    ghost invariant = { λ r. r.made ≡ false → r.places.items ≡ [] };
}

impl Row {
    /// The row of a class whose entities are not made.
    pub fn not_made(alloc: Global) -> Row
        ensures { result ≡ None }
    {
        Row {
            places: Vec::new(alloc),
            made: false,
        }
    }

    /// The row of the entities at these places.
    pub fn of(places: Vec<BlockPlace>) -> Row
        ensures { result ≡ Some places.items }
    {
        Row { places, made: true }
    }

    /// Whether the entities are made.
    pub fn is_made(&self) -> bool
        ensures { result ≡ is_some self.now }
    {
        self.made
    }

    /// The places of the entities.
    pub fn places(&self) -> &[BlockPlace]
        ensures { result.now ≡ row_in (Some self.now) }
    {
        &self.places
    }
}

/// The rows of so many classes whose entities are not made. The error comes where memory was refused.
pub fn not_made(alloc: Global, count: usize) -> Result<Vec<Row>, AllocError>
    ensures { MatchResult result (λ rows. rows.items ≡ replicate count None) (λ _. ⊤) }
{
    let mut rows = Vec::new(alloc);
    for _ in 0..count {
        rows.push(Row::not_made(alloc))?;
    }
    Ok(rows)
}
