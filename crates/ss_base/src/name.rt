//! Names.

use crate::spelling::Spelling;
use std::fmt;
use std::marker::Model;

/// The most characters of a name.
pub const NAME_LIMIT: usize = 32;

/// A name in capitals, of 1 to `NAME_LIMIT` bytes.
///
/// A contract sees it as the list of its bytes.
#[derive(Clone, Copy, PartialEq, Eq, Hash)]
pub struct Name {
    spelling: Spelling,
}

impl Model for Name {
    ghost use Rattle.std.specs.Prelude.{List, ℕ};
    ghost use Rattle.ss_base.specs.Names.{IsName};

    ghost Value = { List ℕ };

    ghost view = { λ n. n.spelling };

    ghost invariant = { λ n. IsName n.spelling };

    ghost inverse = { λ bytes. record { spelling = bytes } };

    ghost inverse_ok = { λ n h i. record { spelling = n.spelling } };
}

impl Name {
    ghost use Rattle.std.specs.Prelude.{◌≡◌};
    ghost use Rattle.ss_base.specs.Names.{IsName, name_of};

    /// The name that these bytes are, in capitals. None where there are none, or more than `NAME_LIMIT`.
    pub fn of(bytes: &[u8]) -> Option<Name>
        ensures { result ≡ name_of bytes.now }
    {
        let len = bytes.len();
        if len == 0 || len > NAME_LIMIT {
            return None;
        }
        Some(Name {
            spelling: Spelling::in_capitals(bytes),
        })
    }

    /// How it is spelled.
    pub fn spelling(&self) -> Spelling
        ensures { result ≡ self.now }
    {
        self.spelling
    }

    /// The bytes of the name.
    pub fn bytes(&self) -> &[u8]
        ensures value { result.now ≡ self.now }
        ensures name { IsName self.now }
    {
        self.spelling.bytes()
    }
}

/// Prints the name in quotes.
impl fmt::Debug for Name {
    fn fmt<W: fmt::Write>(&self, f: &mut fmt::Formatter<W>) -> fmt::Result {
        write!(f, "\"{}\"", self.bytes().escape_ascii())
    }
}
