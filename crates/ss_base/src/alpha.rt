ghost use Rattle.std.specs.Prelude.{◌≡◌, ◌≤◌, [], Some, length, take, nat_eq, refl};
ghost use Rattle.std.specs.Ordering.{nat_cmp};
ghost use Rattle.std.specs.Cmp.{partial_equiv_from_equiv};
ghost use Rattle.std.specs.Cmp.Lexicographic.{pointwise, slice_cmp, nat_list_eq_equiv, nat_list_cmp_total, texts_po, texts_ties};
ghost use Rattle.std.specs.List.{list_all};
ghost use Rattle.ss_base.specs.Values.{text_of, is_text_byte, without_end_blanks, IsText};
ghost use Rattle.ss_base.specs.Room.{before_zero};

use std::cmp::Ordering;
use std::fmt;
use std::marker::Model;

/// The most characters of a text.
pub const TEXT_LIMIT: usize = 16;

/// A text: at most `TEXT_LIMIT` bytes from 32 to 126, the last of which is no blank.
///
/// A contract sees it as the list of its bytes.
#[derive(Clone, Copy)]
pub struct Alpha {
    room: [u8; TEXT_LIMIT],
    // Places the bytes where those of a number begin, so that a value, which has 24 bytes, is copied in three words.
    aligned: [u64; 0],
}

impl Model for Alpha {
    ghost use Rattle.std.specs.Prelude.{ℕ, List, [], ◌≡◌};
    ghost use Rattle.ss_base.specs.Room.{before_zero, padded_text, IsTextRoom};

    ghost Value = { List ℕ };

    ghost view = { λ a. before_zero a.room };

    ghost invariant = { λ a. IsTextRoom a.room × ([] ≡ a.aligned) };

    ghost inverse = { λ bytes. record { room = padded_text bytes; aligned = [] } };

    ghost inverse_ok = { λ a h i. record { room = h.0.zeros i; aligned = h.1 i } };
}

impl Alpha {
    /// The text of no byte.
    pub fn empty() -> Alpha
        ensures { result ≡ [] }
    {
        Alpha {
            room: [0; TEXT_LIMIT],
            aligned: [],
        }
    }

    /// The text of these bytes without the blanks at their end. None where a byte is no printable
    /// character, or where more than `TEXT_LIMIT` bytes are left.
    pub fn of(bytes: &[u8]) -> Option<Alpha>
        ensures { result ≡ text_of bytes.now }
    {
        if !are_printable(bytes) {
            return None;
        }
        let text = trimmed(bytes);
        if text.len() > TEXT_LIMIT {
            return None;
        }
        let mut room = [0; TEXT_LIMIT];
        room[..text.len()].copy_from_slice(text);
        Some(Alpha { room, aligned: [] })
    }

    /// The bytes of the text.
    pub fn bytes(&self) -> &[u8]
        ensures value { result.now ≡ self.now }
        ensures text { IsText self.now }
    {
        &self.room[..used(&self.room)]
    }
}

// Whether a text may hold each of the bytes.
fn are_printable(bytes: &[u8]) -> bool
    ensures { result ≡ list_all is_text_byte bytes.now }
{
    bytes.iter().all(|b| 32 <= *b && *b <= 126)
}

// The bytes without the blanks at their end.
fn trimmed(bytes: &[u8]) -> &[u8]
    ensures { result.now ≡ without_end_blanks bytes.now }
{
    let mut end = 0;
    for (i, b) in bytes.iter().enumerate() {
        if *b != b' ' {
            end = i + 1;
        }
    }
    &bytes[..end]
}

// How many bytes are before the first zero.
fn used(room: &[u8]) -> usize
    ensures within { result ≤ length room.now }
    ensures value { take result room.now ≡ before_zero room.now }
{
    for (i, b) in room.iter().enumerate() {
        if *b == 0 {
            return i;
        }
    }
    room.len()
}

/// Prints the text in quotes.
impl fmt::Debug for Alpha {
    fn fmt<W: fmt::Write>(&self, f: &mut fmt::Formatter<W>) -> fmt::Result {
        write!(f, "\"{}\"", self.bytes().escape_ascii())
    }
}

impl PartialEq for Alpha {
    ghost eq = { pointwise nat_eq };

    ghost laws = { partial_equiv_from_equiv nat_list_eq_equiv };

    fn eq(&self, other: &Alpha) -> bool {
        self.bytes() == other.bytes()
    }
}

impl Eq for Alpha {
    ghost laws = { nat_list_eq_equiv };
}

impl PartialOrd for Alpha {
    ghost partial_cmp = { λ x y. Some (slice_cmp nat_cmp x y) };

    ghost laws = { texts_po };

    fn partial_cmp(&self, other: &Alpha) -> Option<Ordering> {
        Some(self.cmp(other))
    }
}

impl Ord for Alpha {
    ghost cmp = { slice_cmp nat_cmp };

    ghost total = { nat_list_cmp_total };

    ghost matches_partial_cmp = { λ x y. refl };

    ghost matches_eq = { texts_ties };

    fn cmp(&self, other: &Alpha) -> Ordering {
        self.bytes().cmp(other.bytes())
    }
}
