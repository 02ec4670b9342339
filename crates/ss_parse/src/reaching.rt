//! How far tokens are read.

ghost use Rattle.std.specs.Prelude.{IfOk, length};
ghost use Rattle.ss_parse_expressions.specs.Openers.{nesting_limit};
ghost use Rattle.ss_parse.specs.ReadPrograms.{program_of};
ghost use Rattle.ss_parse.specs.Reaches.{IsReach};

use crate::reading::programs::program;
use ss_lex::Token;
use ss_parse_expressions::failure::{ParseFailure, ParseFault};
use ss_tree::release::release_tree;
use std::alloc::{AllocError, Global};

/// How far tokens are read from left to right.
#[derive(Clone, Copy, Debug, PartialEq, Eq)]
pub enum Reach {
    /// They spell a program.
    Whole,
    /// They spell none. Reading stopped at the token with this index; it is the number of tokens where it stopped after the last.
    Stopped(usize),
    /// The same, where more levels of nesting would be open than may be.
    TooDeep(usize),
}

/// How far these tokens are read: the place to which `parse` gives a line. The tree is not kept.
///
/// # Errors
/// `AllocError` where memory is refused.
pub fn reach_of(alloc: Global, tokens: &[Token]) -> Result<Reach, AllocError>
    ensures { IfOk result (λ reach. IsReach (length tokens.now) (program_of nesting_limit tokens.now) reach) }
{
    match program(alloc, tokens) {
        Ok(program) => {
            release_tree(program);
            Ok(Reach::Whole)
        }
        Err(ParseFailure::Memory) => Err(AllocError),
        Err(ParseFailure::Refused(fault, left)) => {
            let index = tokens.len().saturating_sub(left);
            match fault {
                ParseFault::Syntax => Ok(Reach::Stopped(index)),
                ParseFault::TooDeep => Ok(Reach::TooDeep(index)),
            }
        }
    }
}
