//! Why a name or a statement couldn't be resolved.

ghost use Rattle.std.specs.Prelude.{◌≡◌};
ghost use Rattle.ss_names_meaning.specs.declared.error.ResolveError.TheVariants.{Memory};

use std::alloc::{AllocError, AllocFailed};

/// Why a name or a statement couldn't be resolved.
#[derive(Clone, Copy)]
pub enum ResolveError {
    /// Memory was refused.
    Memory,
    /// There is no resolved form.
    Unresolved,
}

impl From<AllocError> for ResolveError {
    ghost from_gives = { λ _ e. e ≡ Memory };

    fn from(_e: AllocError) -> ResolveError {
        ResolveError::Memory
    }
}

impl<T: Drop> From<AllocFailed<T>> for ResolveError {
    ghost from_gives = { λ _ e. e ≡ Memory };

    fn from(_e: AllocFailed<T>) -> ResolveError {
        ResolveError::Memory
    }
}
