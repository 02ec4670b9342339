use crate::token::TokenKind;

/// What can be wrong with a piece of a line.
#[derive(Clone, Copy)]
pub enum Fault {
    BadNumber,
    OpenText,
    AlphaTooLong,
    NameTooLong,
}

/// What a piece of a line means.
#[derive(Drop)]
pub enum PieceMeaning {
    Nothing,
    /// A token, and the length of its spelling in bytes.
    Token(TokenKind, usize),
    Fault(Fault),
}
