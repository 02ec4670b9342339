//! Where values lie.

ghost use Rattle.std.specs.Prelude.{◌≡◌};

/// Where a value lies in its row: whole numbers lie in one row, texts in another, and both are numbered alike. The global
/// variables come first, then the constants, then the frames of open calls. In a frame lie the local variables, and above them
/// the cells of its stack.
///
/// The number of a global variable or a constant is its place in the row. That of a local variable or a cell is counted from
/// where the frame begins: then the mask is all ones, and else it is 0. So a place is found without asking which it is:
/// `(frame & mask) + number`.
#[derive(Clone, Copy, Debug, PartialEq, Eq)]
pub struct Address {
    pub number: usize,
    pub mask: usize,
}

impl Address {
    /// A global variable or a constant, by its place in the row.
    pub fn fixed(number: u32) -> Address
        ensures { result ≡ record { number = number; mask = 0 } }
    {
        Address {
            number: number as usize,
            mask: 0,
        }
    }

    /// A local variable or a cell, counted from where the frame begins.
    pub fn in_frame(number: u32) -> Address
        ensures { result ≡ record { number = number; mask = 18446744073709551615 } }
    {
        Address {
            number: number as usize,
            mask: usize::MAX,
        }
    }
}
