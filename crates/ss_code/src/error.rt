//! Why there is no code.

ghost use Rattle.ss_code.specs.declared.error.CodeError.TheVariants.{Memory};
ghost use Rattle.std.specs.Prelude.{◌≡◌};

use std::alloc::AllocError;

/// Why a program has no code.
#[derive(Clone, Copy, Debug, PartialEq, Eq, thiserror::Error)]
pub enum CodeError {
    /// The code has more instructions than the limit allows: refusal 81, which has no line.
    #[error("the program is too long")]
    CodeTooLong,
    /// Memory was refused.
    #[error("out of memory")]
    Memory,
}

impl From<AllocError> for CodeError {
    ghost from_gives = { λ _ error. error ≡ Memory };

    fn from(_error: AllocError) -> CodeError {
        CodeError::Memory
    }
}
