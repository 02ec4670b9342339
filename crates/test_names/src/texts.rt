//! From a text to its report, layer by layer.

use crate::outcomes::ANSWER;
use crate::records::is_layout;
use ss_base::Line;
use ss_check::{CheckError, Checked, check};
use ss_code::{Code, CodeError, generate};
use ss_lex::{LexError, Span, Token, TokenKind, Tokens, Word, tokens};
use ss_parse::{ParseError, Program, parse};
use ss_program::release::release_checked;
use ss_tables::{NameId, TableError, Tables};
use ss_tree::release::release_tree;
use std::alloc::Global;
use std::test::Fail;

// Why a text is refused by one of the layers.
#[derive(Clone, Copy, Debug, PartialEq, Eq)]
pub(crate) enum Refused {
    Lexer(LexError),
    Parser(ParseError),
    Tables(TableError),
    Checker(CheckError),
    Generator(CodeError),
}

// The tree of a text.
fn tree_of(alloc: Global, text: &[u8]) -> Result<Program, Refused> {
    let tokens = tokens(alloc, text).map_err(Refused::Lexer)?;
    parse(alloc, &tokens).map_err(Refused::Parser)
}

// A tree with its tables, resolved.
fn checked_of(alloc: Global, program: Program) -> Result<Checked, Refused> {
    match Tables::of(alloc, &program) {
        Ok(tables) => check(alloc, program, tables).map_err(Refused::Checker),
        Err(error) => {
            release_tree(program);
            Err(Refused::Tables(error))
        }
    }
}

// The code of a text, by each layer in turn.
pub(crate) fn code_of(alloc: Global, text: &[u8]) -> Result<Code, Refused> {
    let program = tree_of(alloc, text)?;
    let checked = checked_of(alloc, program)?;
    let code = generate(alloc, &checked).map_err(Refused::Generator);
    release_checked(checked);
    code
}

// Why a text is refused.
fn refusal_of(alloc: Global, text: &[u8]) -> Option<Refused> {
    match code_of(alloc, text) {
        Ok(code) => {
            code.release();
            None
        }
        Err(refused) => Some(refused),
    }
}

#[test]
fn a_layer_refuses(rt: HostRuntime) {
    let number = b"PREAMBLE NORMALLY, MODE IS INTEGER END\nMAIN\nLET X = 1.5\nEND";
    let rows: [(&[u8], Refused); 4] = [
        (number, Refused::Lexer(LexError::BadNumber(Line(3)))),
        (b"MAIN", Refused::Parser(ParseError::Syntax(Line(1)))),
        (
            b"MAIN LET X = 1 END",
            Refused::Tables(TableError::RealMode(Line(1))),
        ),
        (
            b"MAIN\nPRINT 1 LINE WITH 1, 2 THUS\n*\nEND",
            Refused::Checker(CheckError::Fields(Line(2))),
        ),
    ];
    for (text, wanted) in rows {
        assert_eq!(rt; refusal_of(rt.alloc(), text), Some(wanted));
    }
}

#[test]
fn a_token_has_its_place(rt: HostRuntime) -> Result<(), Fail> {
    let tokens: Tokens = tokens(rt.alloc(), b"\n MAIN")?;
    let main = Token {
        kind: TokenKind::Word(Word::Main),
        span: Span {
            start: 2,
            length: 4,
        },
        line: Line(2),
    };
    assert_eq!(rt; tokens.list(), [main].as_slice());
    Ok(())
}

// A model with the classes and the set of `records.rt`.
static JOBS: &[u8] = b"PREAMBLE NORMALLY, MODE IS INTEGER\n\
TEMPORARY ENTITIES EVERY JOB HAS A RANK AND MAY BELONG TO A POOL\n\
EVENT NOTICES INCLUDE BELL\n\
PERMANENT ENTITIES EVERY MACHINE\n\
THE SYSTEM OWNS A POOL\n\
END\n\
MAIN\n\
END\n\
EVENT BELL\n\
END";

// Whether a name is found, and is spelled so.
fn is_found(tables: &Tables, spelling: &[u8]) -> bool {
    let found: Option<NameId> = tables.find(spelling);
    match found {
        Some(name) if name.0 < tables.len() => tables.name(name) == spelling,
        _ => false,
    }
}

// Whether tables have the layout of `records.rt`.
fn have_layout(alloc: Global, tables: &Tables) -> bool {
    match tables.layout(alloc) {
        Ok(layout) => is_layout(alloc, &layout),
        Err(_) => false,
    }
}

// Whether tables have that layout, and find N.POOL and no TOOL.
fn are_right(alloc: Global, tables: &Tables) -> bool {
    is_found(tables, b"N.POOL") && tables.find(b"TOOL").is_none() && have_layout(alloc, tables)
}

// Whether the tables of a tree are right. What they own goes with what is checked.
fn has_right_tables(alloc: Global, program: Program) -> bool {
    match Tables::of(alloc, &program) {
        Ok(tables) => {
            let are_right = are_right(alloc, &tables);
            if let Ok(checked) = check(alloc, program, tables) {
                release_checked(checked);
            }
            are_right
        }
        Err(_) => {
            release_tree(program);
            false
        }
    }
}

// Whether the tables of a text are right.
fn declares_jobs(alloc: Global, text: &[u8]) -> bool {
    match tree_of(alloc, text) {
        Ok(program) => has_right_tables(alloc, program),
        Err(_) => false,
    }
}

#[test]
fn a_declared_name_is_found(rt: HostRuntime) {
    assert!(rt; declares_jobs(rt.alloc(), JOBS));
}

// How many lines there are.
fn lines(text: &[u8]) -> usize {
    text.iter().filter(|byte| **byte == b'\n').count()
}

// How many instructions a code has, and how many lines its listing.
fn sizes(alloc: Global, code: &Code) -> Option<(usize, usize)> {
    match code.listing(alloc) {
        Ok(listing) => Some((code.len(), lines(&listing))),
        Err(_) => None,
    }
}

// How many instructions the code of a text has, and how many lines its listing.
fn sizes_of(alloc: Global, text: &[u8]) -> Option<(usize, usize)> {
    match code_of(alloc, text) {
        Ok(code) => {
            let sizes = sizes(alloc, &code);
            code.release();
            sizes
        }
        Err(_) => None,
    }
}

// A multiply, a print and a leave.
#[test]
fn code_has_a_line_for_each_instruction(rt: HostRuntime) {
    assert_eq!(rt; sizes_of(rt.alloc(), ANSWER), Some((3, 3)));
}
