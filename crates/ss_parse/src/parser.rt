//! From tokens to a program.

ghost use Rattle.std.specs.Prelude.{◌<◌, IfOk, IfErr, length};
ghost use Rattle.ss_tree.specs.View.{view_program_tree};
ghost use Rattle.ss_parse_expressions.specs.Openers.{nesting_limit};
ghost use Rattle.ss_parse.specs.SpelledPrograms.{Is_spelling};
ghost use Rattle.ss_parse.specs.Promise.{Is_refused, Has_line, Is_line_of_one, One_tree};

use crate::error::ParseError;
use crate::reading::programs::program;
use ss_base::Line;
use ss_lex::{Token, Tokens};
use ss_parse_expressions::failure::{ParseFailure, ParseFault};
use ss_tree::program::Program;
use std::alloc::Global;

/// The line of the token with this index, or of the last one.
fn line_of(tokens: &[Token], index: usize) -> Line
    requires { 0 < length tokens.now }
    ensures { Is_line_of_one tokens.now result }
{
    let last = tokens.len() - 1;
    tokens[index.min(last)].line
}

/// The program that the tokens spell, with at most 64 levels of nesting.
///
/// `ParseError::Syntax` where they spell none, of whatever depth. `ParseError::TooDeep` where they spell none of at
/// most 64 levels, and more than 64 of them open a level; so it is the refusal wherever they spell one that is
/// deeper. The line of both is that of the token at which reading stopped. `ParseError::Memory` where memory is
/// refused.
pub fn parse(alloc: Global, tokens: &Tokens) -> Result<Program, ParseError>
    ensures found { IfOk result (λ p. Is_spelling tokens.now.list nesting_limit (view_program_tree p)) }
    ensures refused { IfErr result (λ e. Is_refused tokens.now.list e) }
    ensures line { IfErr result (λ e. Has_line tokens.now.list e) }
{
    let list = tokens.list();
    match program(alloc, list) {
        Ok(program) => Ok(program),
        Err(ParseFailure::Memory) => Err(ParseError::Memory),
        Err(ParseFailure::Refused(fault, left)) => {
            let line = line_of(list, list.len().saturating_sub(left));
            match fault {
                ParseFault::Syntax => Err(ParseError::Syntax(line)),
                ParseFault::TooDeep => Err(ParseError::TooDeep(line)),
            }
        }
    }
}

/// No tokens spell two trees.
pub fn one_tree()
    ensures { One_tree }
{}
