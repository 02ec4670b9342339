//! Places in a text: its lines, and its tokens.

use crate::page::{Made, Page};
use ss_lex::{Token, TokenKind, Word};
use std::alloc::Global;

/// A part of a text, from one byte up to another.
#[derive(Clone, Copy, Debug, PartialEq, Eq)]
pub struct Stretch {
    pub start: usize,
    pub end: usize,
}

/// Whether a text is so long, more than 100,000 bytes, that what is looked for in it is bounded more closely.
pub fn is_long(text: &[u8]) -> bool {
    text.len() > 100_000
}

/// The bytes of a stretch, as far as the text has them.
pub fn bytes_of(text: &[u8], stretch: Stretch) -> &[u8] {
    let end = stretch.end.min(text.len());
    let start = stretch.start.min(end);
    &text[start..end]
}

/// The stretch of a line, without its end. Lines count from 1; an empty one at the end of the text where there are fewer.
pub fn line_at(text: &[u8], line: u32) -> Stretch {
    let before = (line as usize).saturating_sub(1);
    let mut start: usize = 0;
    for one in text.split(|byte| *byte == b'\n').take(before) {
        start = start.saturating_add(one.len()).saturating_add(1);
    }
    let start = start.min(text.len());
    let length = text.iter().skip(start).position(|byte| *byte == b'\n');
    Stretch {
        start,
        end: length.map_or(text.len(), |length| start.saturating_add(length)),
    }
}

/// Where each line begins.
pub fn line_starts(alloc: Global, text: &[u8]) -> Made<Vec<usize>> {
    let mut starts = Vec::new(alloc);
    starts.push(0)?;
    for (at, byte) in text.iter().enumerate() {
        if *byte == b'\n' {
            starts.push(at + 1)?;
        }
    }
    Ok(starts)
}

/// The stretch of a line, by where the lines begin.
pub fn line_from(text: &[u8], starts: &[usize], line: u32) -> Stretch {
    let place = (line as usize).saturating_sub(1);
    let start = starts.get(place).copied().unwrap_or(text.len());
    let end = match starts.get(place.saturating_add(1)) {
        Some(next) => next.saturating_sub(1),
        None => text.len(),
    };
    Stretch {
        start,
        end: end.max(start),
    }
}

/// The bytes of a line, without its end and without a carriage return there.
pub fn line_bytes(text: &[u8], line: u32) -> &[u8] {
    match bytes_of(text, line_at(text, line)) {
        [before @ .., b'\r'] => before,
        bytes => bytes,
    }
}

/// How many blanks and tabs a line begins with.
pub fn indentation(line: &[u8]) -> usize {
    line.iter()
        .take_while(|byte| **byte == b' ' || **byte == b'\t')
        .count()
}

/// A line without the blanks and tabs with which it begins.
pub fn unindented(line: &[u8]) -> &[u8] {
    &line[indentation(line).min(line.len())..]
}

/// Whether a line has nothing but blanks, or nothing but a comment.
pub fn is_blank(line: &[u8]) -> bool {
    matches!(unindented(line), [] | [b'\r'] | [b'\'', b'\'', ..])
}

/// Whether two asterisks are side by side, as in a field of a picture.
pub fn has_field(line: &[u8]) -> bool {
    line.windows(2).any(|two| two == b"**".as_slice())
}

/// The stretch of a token's spelling.
pub fn stretch_of(token: &Token) -> Stretch {
    Stretch {
        start: token.span.start,
        end: token.span.start.saturating_add(token.span.length),
    }
}

/// How a token is spelled in the text.
pub fn spelled<'a>(text: &'a [u8], token: &Token) -> &'a [u8] {
    bytes_of(text, stretch_of(token))
}

/// The most columns of a line that are shown, and how many of them come before what is marked.
const SHOWN: usize = 150;

const BEFORE: usize = 60;

impl Page<'_> {
    // Adds a part of a line under its number, with tabs as blanks.
    fn show_part(&mut self, line: u32, from: usize) -> Made<()> {
        self.padded(u64::from(line), 5)?;
        self.repeat(b' ', 2)?;
        let bytes = line_bytes(self.about, line);
        for byte in bytes.iter().skip(from).take(SHOWN) {
            self.text.push(match *byte {
                32..=126 => *byte,
                _ => b' ',
            })?;
        }
        self.line("", &[])
    }

    /// Adds a line of the text under its number, with tabs as blanks.
    pub fn show(&mut self, line: u32) -> Made<()> {
        self.show_part(line, 0)
    }

    /// Adds a line of the text, as `show`, and below it a row of marks under a stretch of it. Of a long line the part round the
    /// stretch is shown.
    pub fn show_marked(&mut self, line: u32, mark: Stretch) -> Made<()> {
        let place = line_at(self.about, line);
        if mark.start < place.start || mark.start > place.end {
            return self.show(line);
        }
        let before = mark.start - place.start;
        let is_long = line_bytes(self.about, line).len() > SHOWN;
        let from = if is_long {
            before.saturating_sub(BEFORE)
        } else {
            0
        };
        self.show_part(line, from)?;
        self.repeat(b' ', before.saturating_sub(from).saturating_add(7))?;
        let length = mark.end.min(place.end).saturating_sub(mark.start);
        self.repeat(b'^', length.min(SHOWN - BEFORE).max(1))?;
        self.line("", &[])
    }
}

/// What a token is.
pub fn kind_at(tokens: &[Token], index: usize) -> Option<&TokenKind> {
    Some(&tokens.get(index)?.kind)
}

/// The reserved word that a token is.
pub fn word_at(tokens: &[Token], index: usize) -> Option<Word> {
    match kind_at(tokens, index)? {
        TokenKind::Word(word) => Some(*word),
        _ => None,
    }
}

/// Whether a token is this name.
pub fn is_named(token: &Token, wanted: &[u8]) -> bool {
    match &token.kind {
        TokenKind::Name(name) => name.bytes() == wanted,
        _ => false,
    }
}

/// The line of a token, or of the last one where there are not so many; 0 where there is none.
pub fn line_of(tokens: &[Token], index: usize) -> u32 {
    let token = tokens.get(index).or(tokens.last());
    token.map_or(0, |token| token.line.0)
}

/// Whether a token is the first of its line.
pub fn is_first_of_line(tokens: &[Token], index: usize) -> bool {
    index == 0
        || index >= tokens.len()
        || line_of(tokens, index.saturating_sub(1)) != line_of(tokens, index)
}
