//! The tokens of a text with small letters, comments and periods.

use ss_base::Line;
use ss_lex::{Token, TokenKind, Word, tokens};
use std::alloc::Global;

// What a token is to be.
enum Kind {
    Word(Word),
    Name(&'static [u8]),
}

// A token: its start, its line, and what it is.
type Row = (usize, u32, Kind);

fn is_kind(kind: &TokenKind, wanted: &Kind) -> bool {
    match (kind, wanted) {
        (TokenKind::Word(word), Kind::Word(wanted)) => *word == *wanted,
        (TokenKind::Name(name), Kind::Name(spelling)) => name.bytes() == *spelling,
        _ => false,
    }
}

fn is_token(token: &Token, row: &Row) -> bool {
    let (start, line, kind) = row;
    token.span.start == *start && token.line == Line(*line) && is_kind(&token.kind, kind)
}

// Whether these are the tokens.
fn are_tokens(tokens: &[Token], rows: &[Row]) -> bool {
    for (token, row) in tokens.iter().zip(rows.iter()) {
        if !is_token(token, row) {
            return false;
        }
    }
    tokens.len() == rows.len()
}

// Whether a text has these tokens.
fn has_tokens(alloc: Global, text: &[u8], rows: &[Row]) -> bool {
    match tokens(alloc, text) {
        Ok(found) => are_tokens(found.list(), rows),
        Err(_) => false,
    }
}

static NOTED: &[u8] = b"main ''NOTE'' X. ... 12.A ''REST\nEND";

static NOTED_TOKENS: [Row; 4] = [
    (0, 1, Kind::Word(Word::Main)),
    (14, 1, Kind::Name(b"X")),
    (21, 1, Kind::Name(b"12.A")),
    (33, 2, Kind::Word(Word::End)),
];

#[test]
fn words_comments_and_periods(rt: HostRuntime) {
    assert!(rt; has_tokens(rt.alloc(), NOTED, &NOTED_TOKENS));
}
