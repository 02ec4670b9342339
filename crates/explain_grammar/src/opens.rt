//! Constructs that are open at a place of a text: sections, IFs and loops that begin before it and end after it.

use crate::forms::begins_statement;
use explain_pages::{Made, is_first_of_line, word_at};
use ss_lex::{Token, Word};
use std::alloc::Global;

/// What can be open.
#[derive(Clone, Copy, Debug, PartialEq, Eq)]
pub enum Construct {
    Preamble,
    Main,
    Routine,
    Event,
    If,
    Loop,
}

/// An open construct, with the index of the token with which it begins.
#[derive(Clone, Copy, Debug, PartialEq, Eq)]
pub struct Open {
    pub construct: Construct,
    pub token: usize,
}

impl Construct {
    /// The word with which it begins.
    pub fn word(self) -> &'static str {
        match self {
            Construct::Preamble => "PREAMBLE",
            Construct::Main => "MAIN",
            Construct::Routine => "ROUTINE",
            Construct::Event => "EVENT",
            Construct::If => "IF",
            Construct::Loop => "loop",
        }
    }

    /// The word that closes it.
    pub fn closer(self) -> &'static str {
        match self {
            Construct::If => "ALWAYS",
            Construct::Loop => "LOOP",
            _ => "END",
        }
    }
}

/// The reserved word that the token before is.
pub fn word_before(tokens: &[Token], index: usize) -> Option<Word> {
    let before = index.checked_sub(1)?;
    word_at(tokens, before)
}

/// What a section that begins with this token is; None where none does.
pub fn head_at(tokens: &[Token], index: usize) -> Option<Construct> {
    let after_end = word_before(tokens, index) == Some(Word::End);
    if !is_first_of_line(tokens, index) && !after_end {
        return None;
    }
    match word_at(tokens, index)? {
        Word::Main => Some(Construct::Main),
        Word::Routine => Some(Construct::Routine),
        Word::Event => match word_at(tokens, index.saturating_add(1)) {
            Some(Word::Notices | Word::Notice) => None,
            _ => Some(Construct::Event),
        },
        _ => None,
    }
}

// As `head_at`, where the token may be in a preamble: there EVENT begins no section.
fn section_at(tokens: &[Token], index: usize, in_preamble: bool) -> Option<Construct> {
    let head = head_at(tokens, index)?;
    if in_preamble && head == Construct::Event {
        return None;
    }
    Some(head)
}

/// The index of the token with which the section begins that a place is in; 0 in a preamble.
pub fn section_before(tokens: &[Token], at: usize) -> usize {
    let mut found = 0;
    let mut in_preamble = word_at(tokens, 0) == Some(Word::Preamble);
    for index in 0..at.min(tokens.len()) {
        in_preamble = in_preamble && word_at(tokens, index) != Some(Word::End);
        if section_at(tokens, index, in_preamble).is_some() {
            in_preamble = false;
            found = index;
        }
    }
    found
}

// Whether what was opened last is such a construct.
fn is_last(opens: &[Open], construct: Construct) -> bool {
    match opens.last() {
        Some(last) => last.construct == construct,
        None => false,
    }
}

// Closes what was opened last, if it is such a construct.
fn close(opens: &mut Vec<Open>, construct: Construct) {
    if is_last(opens.as_slice(), construct) {
        let _ = opens.pop();
    }
}

// What begins with a token that is a reserved word: a section, an IF, or a loop, which begins with the first token of its head.
fn begun_at(
    opens: &[Open],
    head: Option<usize>,
    tokens: &[Token],
    index: usize,
    word: Word,
) -> Option<Open> {
    let in_preamble = is_last(opens, Construct::Preamble);
    if let Some(construct) = section_at(tokens, index, in_preamble) {
        return Some(Open {
            construct,
            token: index,
        });
    }
    let (construct, token) = match word {
        Word::Preamble => (Construct::Preamble, index),
        Word::If => (Construct::If, index),
        Word::Do => (Construct::Loop, head.unwrap_or(index)),
        _ => return None,
    };
    Some(Open { construct, token })
}

// Goes past a token that is a reserved word: takes off what it closes, and adds what begins with it.
fn pass(
    opens: &mut Vec<Open>,
    head: Option<usize>,
    tokens: &[Token],
    index: usize,
    word: Word,
) -> Made<()> {
    let begun = begun_at(opens.as_slice(), head, tokens, index, word);
    match word {
        Word::Always => close(opens, Construct::If),
        Word::Loop => close(opens, Construct::Loop),
        Word::End => opens.clear(),
        Word::Main | Word::Routine | Word::Event if begun.is_some() => opens.clear(),
        _ => {}
    }
    if let Some(begun) = begun {
        opens.push(begun)?;
    }
    Ok(())
}

// The first token of the head of a loop whose DO has not come, after a token that is a reserved word.
fn head_after(head: Option<usize>, index: usize, word: Word) -> Option<usize> {
    match word {
        Word::For => Some(index),
        Word::While | Word::Until => head.or(Some(index)),
        Word::Do => None,
        _ if begins_statement(word) => None,
        _ => head,
    }
}

/// The constructs that are open before a token, the outermost first, where the walk begins at another one.
pub fn opens_at(alloc: Global, tokens: &[Token], from: usize, at: usize) -> Made<Vec<Open>> {
    let mut opens = Vec::new(alloc);
    let mut head = None;
    for index in from..at.min(tokens.len()) {
        if let Some(word) = word_at(tokens, index) {
            pass(&mut opens, head, tokens, index, word)?;
            head = head_after(head, index, word);
        }
    }
    Ok(opens)
}

/// Whether a word of the statements' frame is there: one that ends, divides or begins a construct.
pub fn is_frame_word(tokens: &[Token], index: usize) -> bool {
    match word_at(tokens, index) {
        Some(Word::End | Word::Loop | Word::Else | Word::Always) => true,
        Some(_) => head_at(tokens, index).is_some(),
        None => index >= tokens.len(),
    }
}
