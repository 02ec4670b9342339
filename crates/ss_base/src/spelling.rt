//! Spellings of names. A derived one may be longer than a name of a text.

ghost use Rattle.std.specs.Prelude.{nat_eq};
ghost use Rattle.std.proofs.Common.{rules};
ghost use Rattle.std.specs.Hash as fed;
ghost use Rattle.std.specs.Cmp.{partial_equiv_from_equiv};
ghost use Rattle.std.specs.Cmp.Rules.{hashing};
ghost use Rattle.std.specs.Cmp.Lexicographic.{pointwise, nat_list_eq_equiv};

use crate::name::Name;
use std::hash::{Hash, Hasher};
use std::marker::Model;

/// The most characters of a spelling: two more than those of a name.
pub const SPELLING_LIMIT: usize = 34;

/// How a name is spelled, in capitals.
///
/// A contract sees it as the list of its bytes.
#[derive(Clone, Copy)]
pub struct Spelling {
    room: [u8; SPELLING_LIMIT],
    len: usize,
}

impl Model for Spelling {
    ghost use Rattle.std.specs.Prelude.{List, ℕ, length, take};
    ghost use Rattle.ss_base.specs.Spellings.{padded_spelling, IsSpellingRoom};

    ghost Value = { List ℕ };

    ghost view = { λ s. take s.len s.room };

    ghost invariant = { λ s. IsSpellingRoom s.room s.len };

    ghost inverse = { λ bytes. record { room = padded_spelling bytes; len = length bytes } };

    ghost inverse_ok = { λ s h i. record { room = h.zeros i; len = h.counted i } };
}

impl Spelling {
    ghost use Rattle.std.specs.Prelude.{◌≡◌, ◌≤◌, ◌∷◌, length};
    ghost use Rattle.ss_base.specs.Names.{in_capitals};
    ghost use Rattle.ss_base.specs.Spellings.{spelling_limit, spelling_of};

    /// The spelling of these bytes. None where they are more than `SPELLING_LIMIT`.
    pub fn of(bytes: &[u8]) -> Option<Spelling>
        ensures { result ≡ spelling_of bytes.now }
    {
        let len = bytes.len();
        if len > SPELLING_LIMIT {
            return None;
        }
        let mut room = [0; SPELLING_LIMIT];
        room[..len].copy_from_slice(bytes);
        Some(Spelling { room, len })
    }

    /// The spelling of these bytes in capitals.
    pub(crate) fn in_capitals(bytes: &[u8]) -> Spelling
        requires { length bytes.now ≤ spelling_limit }
        ensures { result ≡ in_capitals bytes.now }
    {
        let mut room = [0; SPELLING_LIMIT];
        'capitals: for (i, b) in bytes.iter().enumerate() {
            room[i] = b.to_ascii_uppercase();
        }
        Spelling {
            room,
            len: bytes.len(),
        }
    }

    /// The spelling of a name.
    pub fn of_name(name: &Name) -> Spelling
        ensures { result ≡ name.now }
    {
        name.spelling()
    }

    /// The spelling of a derived name: a letter, a period and a name.
    pub fn derived(letter: u8, name: &Name) -> Spelling
        ensures { result ≡ letter ∷ 46 ∷ name.now }
    {
        let bytes = name.bytes();
        let len = bytes.len() + 2;
        let mut room = [0; SPELLING_LIMIT];
        room[0] = letter;
        room[1] = b'.';
        room[2..len].copy_from_slice(bytes);
        Spelling { room, len }
    }

    /// Its bytes.
    pub fn bytes(&self) -> &[u8]
        ensures value { result.now ≡ self.now }
        ensures short { length self.now ≤ spelling_limit }
    {
        &self.room[..self.len]
    }
}

impl PartialEq for Spelling {
    ghost eq = { pointwise nat_eq };

    ghost laws = { partial_equiv_from_equiv nat_list_eq_equiv };

    fn eq(&self, other: &Spelling) -> bool {
        self.bytes() == other.bytes()
    }
}

impl Eq for Spelling {
    ghost laws = { nat_list_eq_equiv };
}

impl Hash for Spelling {
    ghost hash_input = { λ spelling. fed.slice fed.u8 spelling };

    ghost respects_eq = { Prim.search (hashing, rules) };

    fn hash<H: Hasher>(&self, state: &mut H) {
        self.bytes().hash(state);
    }
}
