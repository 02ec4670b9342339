//! From a text to a model.

ghost use Rattle.std.specs.Prelude.{◌≡◌, IfOk, IfErr};
ghost use Rattle.ss_engine.specs.Refusals.{coded, table_refusal, lexed, parsed, used};
ghost use Rattle.ss_tree.specs.View.{view_program_tree};
ghost use Rattle.ss_engine.specs.Accepting.{IsCompiledTo, IsRefusedWith, IsTreeCompiledTo, IsTreeRefusedWith};

use crate::refusal::Refusal;
use ss_check::{CheckError, check_tree};
use ss_code::error::CodeError;
use ss_code::generate;
use ss_code::model::Model;
use ss_code_instructions::laws::laws_of_code;
use ss_lex::{LexError, tokens};
use ss_parse::{ParseError, parse};
use ss_program::release::release_checked;
use ss_tables_rules::TableError;
use ss_tree::program::Program;
use std::alloc::Global;

impl From<LexError> for Refusal {
    ghost from_gives = { λ error refusal. refusal ≡ lexed error };

    fn from(error: LexError) -> Refusal {
        match error {
            LexError::Memory => Refusal::Memory,
            _ => Refusal::Lexed(error),
        }
    }
}

impl From<ParseError> for Refusal {
    ghost from_gives = { λ error refusal. refusal ≡ parsed error };

    fn from(error: ParseError) -> Refusal {
        match error {
            ParseError::Memory => Refusal::Memory,
            _ => Refusal::Parsed(error),
        }
    }
}

impl From<TableError> for Refusal {
    ghost from_gives = { λ error refusal. refusal ≡ table_refusal error };

    fn from(error: TableError) -> Refusal {
        match error {
            TableError::Memory => Refusal::Memory,
            _ => Refusal::Declared(error),
        }
    }
}

impl From<CheckError> for Refusal {
    ghost from_gives = { λ error refusal. refusal ≡ used error };

    fn from(error: CheckError) -> Refusal {
        match error {
            CheckError::Memory => Refusal::Memory,
            _ => Refusal::Used(error),
        }
    }
}

impl From<CodeError> for Refusal {
    ghost from_gives = { λ error refusal. refusal ≡ coded error };

    fn from(error: CodeError) -> Refusal {
        match error {
            CodeError::CodeTooLong => Refusal::CodeTooLong,
            CodeError::Memory => Refusal::Memory,
        }
    }
}

/// The program of a tree, ready to run. The tree is given back.
///
/// # Errors
/// Those of `compile` for a text with this tree.
pub fn compile_tree(alloc: Global, program: Program) -> Result<Model, Refusal>
    ensures accepted { IfOk result (λ model. IsTreeCompiledTo (view_program_tree program) model) }
    ensures refused { IfErr result (λ refusal. IsTreeRefusedWith (view_program_tree program) refusal) }
{
    laws_of_code();
    let outcome = check_tree(alloc, program)?;
    let resolved = outcome?;
    let made = generate(alloc, &resolved);
    release_checked(resolved);
    let code = made?;
    Ok(Model::new(code))
}

/// The program of a text, ready to run.
///
/// # Errors
/// In this order, each by the number of [`Refusal::number`]: for its tokens (31 to 37), for the place
/// that is first; `Syntax` or `TooDeep` where the tokens spell no program; for what it declares
/// (51 to 60) and for what it does with its names (71 to 79), the first rule broken in the line of the
/// first place; `CodeTooLong` where its tree has more than 16,384 nodes and its code more than
/// 1,048,576 instructions. `Memory` may come before any of them, and says nothing of the text.
pub fn compile(alloc: Global, text: &[u8]) -> Result<Model, Refusal>
    ensures accepted { IfOk result (λ model. IsCompiledTo text.now model) }
    ensures refused { IfErr result (λ refusal. IsRefusedWith text.now refusal) }
{
    let tokens = tokens(alloc, text)?;
    let program = parse(alloc, &tokens)?;
    compile_tree(alloc, program)
}
