//! What may come at a place of a text, each tried there.

use crate::forms::{WORDS, begins_statement, is_among, is_value_word};
use explain_pages::Made;
use ss_base::PictureLine;
use ss_lex::{Symbol, Token, TokenKind, Word, tokens};
use ss_parse::{Reach, reach_of};
use std::alloc::{AllocError, Global};

/// What may come at a place.
#[derive(Clone, Copy, Debug, PartialEq, Eq)]
pub enum Candidate {
    Word(Word),
    Name,
    Number,
    Text,
    Symbol(Symbol),
    /// A comma or AND, and a name after it.
    Separator,
    Picture,
    /// The end of the text.
    End,
}

/// The most tokens before a place at which candidates are tried.
const TRIED_AFTER: usize = 1500;

/// The most words that can fit at a place.
const MOST_WORDS: usize = 100;

/// What is tried beside the reserved words: a name, a number, a text, the signs, and a comma with a name after it.
const OTHERS: &str = "A.NAME 1 \"X\" ( ) + - * = ,A.NAME";

// A copy of what a token is.
fn copied_kind(alloc: Global, kind: &TokenKind) -> Made<TokenKind> {
    match kind {
        TokenKind::Word(word) => Ok(TokenKind::Word(*word)),
        TokenKind::Name(name) => Ok(TokenKind::Name(*name)),
        TokenKind::Number(number) => Ok(TokenKind::Number(*number)),
        TokenKind::Text(text) => Ok(TokenKind::Text(*text)),
        TokenKind::Symbol(symbol) => Ok(TokenKind::Symbol(*symbol)),
        TokenKind::Picture(line) => {
            let copy = PictureLine::of(alloc, line.bytes())?;
            Ok(TokenKind::Picture(copy))
        }
    }
}

// Adds copies of tokens to those that are tried.
fn add_copies(alloc: Global, tried: &mut Vec<Token>, more: &[Token]) -> Made<()> {
    for token in more {
        let kind = copied_kind(alloc, &token.kind)?;
        tried.push(Token {
            kind,
            span: token.span,
            line: token.line,
        })?;
    }
    Ok(())
}

// What a token is among candidates.
fn candidate_of(token: &Token) -> Candidate {
    match &token.kind {
        TokenKind::Word(word) => Candidate::Word(*word),
        TokenKind::Name(_) => Candidate::Name,
        TokenKind::Number(_) => Candidate::Number,
        TokenKind::Text(_) => Candidate::Text,
        TokenKind::Symbol(symbol) => Candidate::Symbol(*symbol),
        TokenKind::Picture(_) => Candidate::Picture,
    }
}

// What tokens are as one candidate: several are a separator, with a name.
fn candidate_of_all(tokens: &[Token]) -> Candidate {
    match tokens {
        [] => Candidate::End,
        [token] => candidate_of(token),
        _ => Candidate::Separator,
    }
}

// Whether tokens are read to their end at least.
fn are_read(alloc: Global, tokens: &[Token]) -> Made<bool> {
    match reach_of(alloc, tokens)? {
        Reach::Whole => Ok(true),
        Reach::Stopped(index) | Reach::TooDeep(index) => Ok(index >= tokens.len()),
    }
}

// Adds what tokens are, after so many of them, to the candidates that were found, if those after may come after the tokens that are
// tried. These are left as they were.
fn find_tokens(
    alloc: Global,
    found: &mut Vec<Candidate>,
    tried: &mut Vec<Token>,
    all: &[Token],
    skipped: usize,
) -> Made<()> {
    let Some(more) = all.get(skipped..) else {
        return Ok(());
    };
    let before = tried.len();
    add_copies(alloc, tried, more)?;
    let is_found = are_read(alloc, tried.as_slice())?;
    tried.truncate(before);
    if is_found {
        found.push(candidate_of_all(more))?;
    }
    Ok(())
}

// As `find_tokens`, with the tokens of a text.
fn find(
    alloc: Global,
    found: &mut Vec<Candidate>,
    tried: &mut Vec<Token>,
    text: &[u8],
    skipped: usize,
) -> Made<()> {
    let Ok(all) = tokens(alloc, text) else {
        return Err(AllocError);
    };
    find_tokens(alloc, found, tried, all.list(), skipped)
}

// As `find`, with each of these words in turn.
fn find_words(
    alloc: Global,
    found: &mut Vec<Candidate>,
    tried: &mut Vec<Token>,
    words: &str,
) -> Made<()> {
    for word in words.as_bytes().split(|byte| *byte == b' ') {
        find(alloc, found, tried, word, 0)?;
    }
    Ok(())
}

// Whether a candidate fits, where a value is due or else the one statement of a loop.
fn fits(candidate: &Candidate, is_value: bool) -> bool {
    match candidate {
        Candidate::Word(word) if is_value => is_value_word(*word),
        Candidate::Word(word) => {
            begins_statement(*word) || is_among(*word, "DO FIND WITH WHEN UNLESS AND OR BY")
        }
        _ => true,
    }
}

// Where a value is due, or the one statement of a loop, the reading stops after a word that is none, so each word seems to fit. Leaves those that do.
fn leave_fitting(found: &mut Vec<Candidate>) {
    if found.len() > MOST_WORDS {
        let is_value = found.as_slice().contains(&Candidate::Number);
        found.retain(|candidate| fits(candidate, is_value));
    }
}

// What may come after the tokens that are tried, which are left as they were.
fn candidates_with(alloc: Global, tried: &mut Vec<Token>) -> Made<Vec<Candidate>> {
    let mut found = Vec::new(alloc);
    find_words(alloc, &mut found, tried, WORDS)?;
    find_words(alloc, &mut found, tried, OTHERS)?;
    find(alloc, &mut found, tried, b"PRINT 1 LINE THUS\n*", 4)?;
    leave_fitting(&mut found);
    if reach_of(alloc, tried.as_slice())? == Reach::Whole {
        found.push(Candidate::End)?;
    }
    Ok(found)
}

/// What may come after these tokens, each tried by reading them with it: with a candidate of the list the tokens are read
/// further. Nothing is tried where the tokens are too many.
pub fn candidates_after(alloc: Global, before: &[Token]) -> Made<Vec<Candidate>> {
    if before.len() > TRIED_AFTER {
        return Ok(Vec::new(alloc));
    }
    let mut tried = Vec::new(alloc);
    add_copies(alloc, &mut tried, before)?;
    candidates_with(alloc, &mut tried)
}

/// Whether a token is among the candidates.
pub fn has_token(candidates: &[Candidate], token: &Token) -> bool {
    candidates.contains(&candidate_of(token))
}

/// Whether a word is among the candidates.
pub fn has_word(candidates: &[Candidate], word: Word) -> bool {
    candidates.contains(&Candidate::Word(word))
}
