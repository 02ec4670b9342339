//! How long code may be.

ghost use Rattle.std.specs.Prelude.{◌≡◌};

/// How many instructions the code of a program may have.
pub fn instruction_limit() -> usize
    ensures { result ≡ 1048576 }
{
    1_048_576
}
