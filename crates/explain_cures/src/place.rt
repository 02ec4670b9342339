//! The place at which a text is not read further, and what is known of it.

use crate::fixes::Window;
use explain_grammar::{Candidate, Open, has_word};
use explain_pages::Part::{Capitals, Words};
use explain_pages::{
    Part, Stretch, bytes_of, is_first_of_line, is_long, kind_at, line_from, line_of, spelled,
    stretch_of, word_at,
};
use ss_lex::{Symbol, Token, TokenKind, Word};

/// The place at which a text is not read further, and what is known of it.
#[derive(Clone, Copy)]
pub struct Place<'a> {
    pub text: &'a [u8],
    /// Where each of its lines begins.
    pub starts: &'a [usize],
    pub tokens: &'a [Token],
    /// The index of the token that does not fit; the number of tokens at the end of the text.
    pub at: usize,
    /// The index of the token with which its section begins.
    pub section: usize,
    /// What may come there.
    pub candidates: &'a [Candidate],
    /// What is open there, the outermost first.
    pub opens: &'a [Open],
}

impl<'a> Place<'a> {
    /// What a token is.
    pub fn kind(&self, index: usize) -> Option<&'a TokenKind> {
        kind_at(self.tokens, index)
    }

    /// The index before the place; 0 where there is none.
    pub fn before(&self) -> usize {
        self.at.saturating_sub(1)
    }

    /// The place after the tokens of the section that come before it.
    pub fn end(&self) -> usize {
        self.at.min(self.tokens.len())
    }

    /// How a token is spelled; empty at the end of the text.
    pub fn spelling(&self, index: usize) -> &'a [u8] {
        self.bytes(self.stretch(index))
    }

    /// What a token is called: its spelling in capitals, or words for the end of the text.
    pub fn called(&self, index: usize) -> Part<'a> {
        match self.tokens.get(index) {
            Some(token) => Capitals(spelled(self.text, token)),
            None => Words("the end of the text"),
        }
    }

    /// The stretch of a token.
    pub fn stretch(&self, index: usize) -> Stretch {
        match self.tokens.get(index) {
            Some(token) => stretch_of(token),
            None => Stretch {
                start: self.text.len(),
                end: self.text.len(),
            },
        }
    }

    /// The stretch from one token to another.
    pub fn between(&self, first: usize, last: usize) -> Stretch {
        Stretch {
            start: self.stretch(first).start,
            end: self.stretch(last).end,
        }
    }

    /// The bytes of a stretch.
    pub fn bytes(&self, stretch: Stretch) -> &'a [u8] {
        bytes_of(self.text, stretch)
    }

    /// The line of the place.
    pub fn line(&self) -> u32 {
        self.line_of(self.at)
    }

    /// The line of a token.
    pub fn line_of(&self, index: usize) -> u32 {
        line_of(self.tokens, index)
    }

    /// The reserved word that a token is.
    pub fn word(&self, index: usize) -> Option<Word> {
        word_at(self.tokens, index)
    }

    /// Whether a token is this symbol.
    pub fn is_symbol(&self, index: usize, wanted: Symbol) -> bool {
        match self.kind(index) {
            Some(TokenKind::Symbol(symbol)) => *symbol == wanted,
            _ => false,
        }
    }

    /// Whether the token before the place is in another line.
    pub fn begins_line(&self) -> bool {
        is_first_of_line(self.tokens, self.at)
    }

    /// Whether a word may come at the place.
    pub fn may_be(&self, word: Word) -> bool {
        has_word(self.candidates, word)
    }

    /// The last token of a line, by its index, from this token on.
    pub fn last_of_line(&self, index: usize) -> usize {
        let line = self.line_of(index);
        let end = self.tokens.len().min(index.saturating_add(2000));
        let mut last = index;
        for next in index.saturating_add(1)..end {
            if self.line_of(next) != line {
                break;
            }
            last = next;
        }
        last
    }

    /// The part of the text in which changes are tried: from the section on, and so many bytes past the place, to the end of a
    /// line if that is near. None where the place is too far from where the section begins.
    pub fn window(&self) -> Option<Window<'a>> {
        let most: usize = if is_long(self.text) { 2_000 } else { 20_000 };
        let start = match self.section {
            0 => 0,
            section => self.stretch(section).start,
        };
        let place = self.stretch(self.at).start;
        let least = place.saturating_add(most);
        let mut further = self.text.iter().skip(least).take(most);
        let count = further.position(|byte| *byte == b'\n').unwrap_or(most);
        let end = least.saturating_add(count).min(self.text.len());
        if place.saturating_sub(start) > most {
            return None;
        }
        Some(Window {
            bytes: self.bytes(Stretch { start, end }),
            start,
        })
    }

    /// The stretch of a line of the text, without its line feed.
    pub fn line_stretch(&self, line: u32) -> Stretch {
        line_from(self.text, self.starts, line)
    }

    /// The bytes of a line of the text.
    pub fn line_bytes(&self, line: u32) -> &'a [u8] {
        self.bytes(self.line_stretch(line))
    }
}
