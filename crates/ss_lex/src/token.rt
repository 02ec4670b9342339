//! Tokens, and their places in the text.

use crate::word::Word;
use ss_base::{Alpha, Line, Name, PictureLine};

/// A character that is a token by itself.
#[derive(Clone, Copy, Debug, PartialEq, Eq)]
pub enum Symbol {
    OpenParenthesis,
    CloseParenthesis,
    Comma,
    Plus,
    Minus,
    Star,
    Equals,
    /// Any other byte. No form of the language has one.
    Other(u8),
}

/// What a token is.
#[derive(Debug, PartialEq, Eq, Drop)]
pub enum TokenKind {
    Word(Word),
    Name(Name),
    /// A whole number, 0 to 9223372036854775807.
    Number(i64),
    /// The text between two quotes, without the blanks at its end.
    Text(Alpha),
    Symbol(Symbol),
    Picture(PictureLine),
}

/// The place of a token's spelling in the text, in bytes.
#[derive(Clone, Copy, Debug, PartialEq, Eq)]
pub struct Span {
    pub start: usize,
    pub length: usize,
}

/// A token, the place of its spelling and the line that it begins in.
#[derive(Debug, PartialEq, Eq, Drop)]
pub struct Token {
    pub kind: TokenKind,
    pub span: Span,
    pub line: Line,
}
