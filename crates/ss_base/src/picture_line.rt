//! The line that a picture is.

use std::alloc::{AllocError, Global};
use std::marker::Model;

/// The bytes of a line that is a picture, without its end.
#[derive(Debug, Drop)]
pub struct PictureLine {
    bytes: Vec<u8>,
}

impl Model for PictureLine {
    ghost use Rattle.std.specs.Prelude.{List, ℕ};

    ghost Value = { List ℕ };

    ghost view = { λ p. p.bytes.items };
}

impl PictureLine {
    ghost use Rattle.std.specs.Prelude.{◌≡◌, IfOk};

    /// A copy of these bytes.
    pub fn of(alloc: Global, bytes: &[u8]) -> Result<PictureLine, AllocError>
        ensures { IfOk result (λ p. p ≡ bytes.now) }
    {
        Ok(PictureLine {
            bytes: Vec::from_slice(alloc, bytes)?,
        })
    }

    /// The bytes.
    pub fn bytes(&self) -> &[u8]
        ensures { result.now ≡ self.now }
    {
        self.bytes.as_slice()
    }
}

impl PartialEq for PictureLine {
    ghost use Rattle.std.specs.Prelude.{nat_eq};
    ghost use Rattle.std.specs.Cmp.{partial_equiv_from_equiv};
    ghost use Rattle.std.specs.Cmp.Lexicographic.{pointwise, nat_list_eq_equiv};

    ghost eq = { pointwise nat_eq };

    ghost laws = { partial_equiv_from_equiv nat_list_eq_equiv };

    fn eq(&self, other: &PictureLine) -> bool {
        self.bytes() == other.bytes()
    }
}

impl Eq for PictureLine {
    ghost use Rattle.std.specs.Cmp.Lexicographic.{nat_list_eq_equiv};

    ghost laws = { nat_list_eq_equiv };
}
