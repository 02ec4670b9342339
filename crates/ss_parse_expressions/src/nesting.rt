//! How deep a program may be nested.

ghost use Rattle.std.specs.Prelude.{◌≡◌};
ghost use Rattle.ss_parse_expressions.specs.Openers.{nesting_limit};

/// How many levels of nesting may be open at a place.
pub fn levels() -> u8
    ensures { result ≡ nesting_limit }
{
    64
}
