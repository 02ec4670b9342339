//! Code that is made from its end to its beginning.

ghost use Rattle.std.specs.Prelude.{◌≡◌, ◌++◌, ◌<◌, ◌^◌, length, OnOk};
ghost use Rattle.ss_code_pieces.specs.Lined.{no_code};

use crate::piece::Piece;
use std::alloc::{AllocError, Global};
use std::marker::Model;

/// Instructions, of which the last are made first.
///
/// A contract sees them in their order.
#[derive(Drop)]
pub struct Backward {
    // The last first.
    piece: Piece,
}

impl Model for Backward {
    ghost use Rattle.std.specs.Prelude.{reverse};
    ghost use Rattle.ss_code_pieces.specs.Lined.{Lined};

    ghost Value = { Lined };

    ghost view = { λ b. reverse b.piece };
}

impl Backward {
    /// No instruction.
    pub fn new(alloc: Global) -> Backward
        ensures { result ≡ no_code }
    {
        Backward {
            piece: Piece::new(alloc),
        }
    }

    /// The instructions of a piece, which others will come before.
    pub fn of(mut piece: Piece) -> Backward
        ensures { result ≡ piece }
    {
        piece.reverse();
        Backward { piece }
    }

    /// How many instructions there are.
    pub fn len(&self) -> usize
        ensures value { result ≡ length self.now }
        ensures small { result < 2 ^ 63 }
    {
        self.piece.len()
    }

    /// What comes before the instructions that were made so far.
    pub fn put_before(&mut self, mut piece: Piece) -> Result<(), AllocError>
        ensures { OnOk result (self.new ≡ piece ++ self.old) }
    {
        piece.reverse();
        self.piece.append(piece)
    }

    /// All of them, the first first.
    pub fn into_piece(self) -> Piece
        ensures { result ≡ self }
    {
        let mut whole = self.piece;
        whole.reverse();
        whole
    }
}
