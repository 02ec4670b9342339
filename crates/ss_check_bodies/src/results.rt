//! Steps that may fail, one after the other.

ghost use Rattle.std.specs.Prelude.{◌≡◌};
ghost use Rattle.ss_names_meaning.specs.declared.error.ResolveError.TheVariants.{Unresolved};
ghost use Rattle.ss_names_meaning.specs.Answers.{HasGiven, where_holds};
ghost use Rattle.ss_check_bodies.specs.Results.{IsMadeAfter, IsMadeBeside, IsMadeOfBoth};

use ss_names_meaning::ResolveError;

/// What was made first, beside what was made next, unless that failed.
pub(crate) fn beside<A: Drop, B>(
    first: A,
    next: Result<B, ResolveError>,
) -> Result<(A, B), ResolveError>
    ensures { IsMadeBeside first next result }
{
    match next {
        Ok(next) => Ok((first, next)),
        Err(e) => Err(e),
    }
}

/// What was made first, beside what was made next, unless one of them failed.
pub(crate) fn both<A: Drop, B: Drop>(
    first: Result<A, ResolveError>,
    next: Result<B, ResolveError>,
) -> Result<(A, B), ResolveError>
    ensures { IsMadeOfBoth first next result }
{
    beside(first?, next)
}

/// What was made first, and then what was made next, unless that failed.
pub(crate) fn followed<T: Drop>(
    mut made: Vec<T>,
    next: Result<T, ResolveError>,
) -> Result<Vec<T>, ResolveError>
    ensures { IsMadeAfter made next result }
{
    made.push(next?)?;
    Ok(made)
}

/// A value, where a test holds.
pub(crate) fn where_holds<T: Drop>(holds: bool, value: T) -> Result<T, ResolveError>
    ensures { HasGiven (λ x. x) result (where_holds holds value) }
{
    if holds {
        Ok(value)
    } else {
        Err(ResolveError::Unresolved)
    }
}

/// The error that there is no resolved form. It drops what was made before.
pub(crate) fn unresolved<T: Drop>(_made: T) -> ResolveError
    ensures { result ≡ Unresolved }
{
    ResolveError::Unresolved
}
