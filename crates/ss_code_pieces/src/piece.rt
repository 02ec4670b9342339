//! Pieces of code.

ghost use Rattle.std.specs.Prelude.{◌≡◌, [], ◌∷◌, ◌++◌, ◌<◌, ◌^◌, length, reverse, IfOk, OnOk};
ghost use Rattle.ss_code_pieces.specs.Lined.{no_code, on_line};

use ss_base::Line;
use ss_code_instructions::instruction::Instruction;
use std::alloc::{AllocError, Global};
use std::marker::Model;

/// An instruction with the line of its statement.
#[derive(Clone, Copy)]
pub struct LinedInstruction {
    pub line: Line,
    pub instruction: Instruction,
}

/// Instructions one after another, each with its line.
///
/// A contract sees it as a list of these.
#[derive(Drop)]
pub struct Piece {
    items: Vec<LinedInstruction>,
}

impl Model for Piece {
    ghost use Rattle.ss_code_pieces.specs.Lined.{Lined};

    ghost Value = { Lined };

    ghost view = { λ p. p.items.items };
}

impl Piece {
    /// No instruction.
    pub fn new(alloc: Global) -> Piece
        ensures { result ≡ no_code }
    {
        Piece {
            items: Vec::new(alloc),
        }
    }

    /// How many instructions there are. They lie in memory, so that more can be counted.
    pub fn len(&self) -> usize
        ensures value { result ≡ length self.now }
        ensures small { result < 2 ^ 63 }
    {
        self.items.len()
    }

    /// The instructions with their lines.
    pub fn items(&self) -> &[LinedInstruction]
        ensures { result.now ≡ self.now }
    {
        &self.items
    }

    /// One instruction more.
    pub fn put(&mut self, line: Line, instruction: Instruction) -> Result<(), AllocError>
        ensures { OnOk result (self.new ≡ self.old ++ on_line line instruction ∷ []) }
    {
        self.items.push(LinedInstruction { line, instruction })?;
        Ok(())
    }

    /// Those of another piece after these, which is kept.
    pub fn append_copy(&mut self, following: &Piece) -> Result<(), AllocError>
        ensures { OnOk result (self.new ≡ self.old ++ following.now) }
    {
        self.items.extend_from_slice(&following.items)?;
        Ok(())
    }

    /// Those of another piece after these.
    pub fn append(&mut self, following: Piece) -> Result<(), AllocError>
        ensures { OnOk result (self.new ≡ self.old ++ following) }
    {
        self.append_copy(&following)
    }

    /// Turns the order of the instructions round.
    pub fn reverse(&mut self)
        ensures { self.new ≡ reverse self.old }
    {
        self.items.reverse();
    }
}

/// A number as instructions hold it.
///
/// It fails from 2^32 on, as where memory is refused. No text makes so many variables, constants, cells or instructions.
pub fn as_index(number: usize) -> Result<u32, AllocError>
    ensures { IfOk result (λ index. index ≡ number) }
{
    match u32::try_from(number) {
        Ok(index) => Ok(index),
        Err(_) => Err(AllocError),
    }
}
