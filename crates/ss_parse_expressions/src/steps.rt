//! Steps of a reading, one after the other.

ghost use Rattle.std.specs.Prelude.{◌≡◌, IfOk, [], ◌∷◌};
ghost use Rattle.ss_parse_expressions.specs.Steps.{AreJoined, ArePaired};

use crate::failure::ParseFailure;
use std::alloc::{AllocError, Global};

/// What was read first together with what was read next, unless that failed.
pub fn beside<A: Drop, B>(first: A, next: Result<B, ParseFailure>) -> Result<(A, B), ParseFailure>
    ensures { ArePaired first next result }
{
    match next {
        Ok(next) => Ok((first, next)),
        Err(e) => Err(e),
    }
}

/// What was read before with what was read next at its end, and what follows that, unless it failed.
pub fn joined<T: Drop, R: Drop>(
    mut before: Vec<T>,
    next: Result<(T, R), ParseFailure>,
) -> Result<(Vec<T>, R), ParseFailure>
    ensures { AreJoined before next result }
{
    let (item, rest) = next?;
    before.push(item)?;
    Ok((before, rest))
}

/// A list with this one element.
pub fn alone<T: Drop>(alloc: Global, only: T) -> Result<Vec<T>, AllocError>
    ensures { IfOk result (λ list. list.items ≡ only ∷ []) }
{
    let mut list = Vec::new(alloc);
    list.push(only)?;
    Ok(list)
}
