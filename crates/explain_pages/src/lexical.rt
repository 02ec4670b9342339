//! Texts that have no tokens: refusals 31 to 37.

use crate::page::Part::{Bytes, Line, Words};
use crate::page::{Made, Page};
use crate::places::{Stretch, bytes_of, line_at, line_bytes, word_at};
use ss_lex::{LexError, Word, tokens};
use std::alloc::Global;

// A comment, which begins here: to its next two apostrophes, or to the end.
fn comment_length(bytes: &[u8]) -> usize {
    let mut pairs = bytes.windows(2).skip(2);
    match pairs.position(|two| two == b"''".as_slice()) {
        Some(count) => count.saturating_add(4),
        None => bytes.len(),
    }
}

// The length of the piece that begins a line: a comment, a text with its quotes, a word, or a sign or a blank.
fn piece_length(rest: &[u8]) -> usize {
    match rest {
        [b'\'', b'\'', ..] => comment_length(rest),
        [b'"', after @ ..] => match after.iter().position(|byte| *byte == b'"') {
            Some(count) => count.saturating_add(2),
            None => rest.len(),
        },
        _ => {
            let word = rest
                .iter()
                .take_while(|byte| byte.is_ascii_alphanumeric() || **byte == b'.');
            word.count().max(1)
        }
    }
}

// Whether a piece is refused by itself as the text is, or is the word that calls for pictures.
fn is_wrong(alloc: Global, error: &LexError, piece: &[u8]) -> bool {
    match tokens(alloc, piece) {
        Err(found) => words_of(&found).1 == words_of(error).1,
        Ok(all) => {
            let word = word_at(all.list(), 0);
            matches!(error, LexError::PictureCut(_))
                && matches!(word, Some(Word::Thus | Word::Follows | Word::This))
        }
    }
}

// The first piece of a line that the refusal is of.
fn wrong_piece(alloc: Global, error: &LexError, line: &[u8]) -> Option<Stretch> {
    let mut start: usize = 0;
    for _ in 0..line.len() {
        let Some(rest) = line.get(start..) else {
            break;
        };
        let end = start.saturating_add(piece_length(rest));
        let piece = Stretch { start, end };
        if is_wrong(alloc, error, bytes_of(line, piece)) {
            return Some(piece);
        }
        start = end;
    }
    None
}

// The first byte of a line that is no character of a text, with those of its kind after it.
fn foreign_piece(line: &[u8]) -> Option<Stretch> {
    let start = line
        .iter()
        .position(|byte| (*byte < 32 && *byte != b'\t') || *byte > 126)?;
    let after = line.iter().skip(start);
    let length = after.take_while(|byte| **byte > 126).count().max(1);
    let end = start.saturating_add(length);
    Some(Stretch { start, end })
}

// What a character is called that no text may have.
fn foreign_words(bytes: &[u8]) -> &'static str {
    match bytes {
        [0xE2, 0x80, 0x9C..=0x9F, ..] => "a quotation mark of a word processor, which is not ASCII",
        [0xE2, 0x80, 0x98..=0x9B, ..] => "an apostrophe of a word processor, which is not ASCII",
        [0xE2, 0x80, 0x90..=0x95, ..] => "a dash of a word processor, which is not ASCII",
        [0xC2, 0xA0, ..] => "a blank of a word processor, which is not ASCII",
        [first, ..] if *first < 32 => "a control character",
        _ => "a character that is not ASCII",
    }
}

// The line of a refusal; 0 where it has none.
fn refusal_line(error: &LexError) -> u32 {
    match error {
        LexError::TooLong(line)
        | LexError::NotAscii(line)
        | LexError::BadNumber(line)
        | LexError::OpenText(line)
        | LexError::AlphaTooLong(line)
        | LexError::PictureCut(line)
        | LexError::NameTooLong(line) => line.0,
        LexError::Memory => 0,
    }
}

// What is wrong with the piece, after its bytes, and what helps: each refusal has a cure of its own.
fn words_of(error: &LexError) -> (&'static str, &'static str) {
    match error {
        LexError::TooLong(_) => ("", "Put data into a file for READ, and leave comments out."),
        LexError::NotAscii(_) => (
            "",
            "Write it in plain letters and signs: e for an accented e, ' and \" for curly quotes, - for a dash.",
        ),
        LexError::BadNumber(_) => (
            ": no whole number",
            "There are no decimals. Count in smaller units, as 15 tenths for 1.5, and divide by DIV.F.",
        ),
        LexError::OpenText(_) => (
            ": the text has no second quote",
            "Write a second quote where the text ends, on the same line.",
        ),
        LexError::AlphaTooLong(_) => (
            ": a text of more than 16 characters",
            "Make it 16 characters or fewer, or print the words by a picture.",
        ),
        LexError::PictureCut(_) => (
            ": too few lines are below it",
            "Write the lines of picture below it, or a smaller number after PRINT.",
        ),
        LexError::NameTooLong(_) => (
            ": a name of more than 32 characters",
            "Use a shorter name, in every line.",
        ),
        LexError::Memory => ("", ""),
    }
}

impl Page<'_> {
    // Says what is wrong in a line, and shows it with the wrong piece marked.
    fn wrong_line(&mut self, error: &LexError, number: u32) -> Made<()> {
        let line = line_bytes(self.about, number);
        let is_foreign = matches!(error, LexError::NotAscii(_));
        let piece = if is_foreign {
            foreign_piece(line)
        } else {
            wrong_piece(self.alloc(), error, line)
        };
        self.say("line {}, ", &[Line(number)])?;
        let Some(piece) = piece else {
            self.line("it doesn't fit here", &[])?;
            return self.show(number);
        };
        let bytes = bytes_of(line, piece);
        if is_foreign {
            self.line(foreign_words(bytes), &[])?;
        } else {
            let shown = Bytes(&bytes[..bytes.len().min(80)]);
            self.line("{}{}", &[shown, Words(words_of(error).0)])?;
        }
        let first = line_at(self.about, number).start;
        let mark = Stretch {
            start: first.saturating_add(piece.start),
            end: first.saturating_add(piece.end),
        };
        self.show_marked(number, mark)
    }

    /// Explains a text that has no tokens.
    pub fn explain_lexical(&mut self, error: &LexError) -> Made<()> {
        let number = refusal_line(error);
        if number > 0 {
            self.wrong_line(error, number)?;
        }
        self.cure(words_of(error).1, &[])
    }
}
