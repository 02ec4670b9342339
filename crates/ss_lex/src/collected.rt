//! The tokens so far.

ghost use Rattle.std.specs.Prelude.{◌≡◌};
ghost use Rattle.ss_lex.specs.Tokens.{is_trigger, is_print, number_in_token};
ghost use Rattle.ss_lex.specs.Lines.{picture_of};

use crate::meaning::PieceMeaning;
use crate::token::{Span, Token, TokenKind};
use crate::word::Word;
use ss_base::{Line, PictureLine};
use std::alloc::{AllocError, Global};
use std::marker::Model;

/// Whether the token calls for pictures.
pub fn is_trigger(kind: &TokenKind) -> bool
    ensures { result ≡ is_trigger kind.now }
{
    match kind {
        TokenKind::Word(word) => matches!(word, Word::Thus | Word::Follows | Word::This),
        _ => false,
    }
}

fn is_print(kind: &TokenKind) -> bool
    ensures { result ≡ is_print kind.now }
{
    match kind {
        TokenKind::Word(word) => matches!(word, Word::Print),
        _ => false,
    }
}

/// The number that a token is, or 0.
fn number_in_token(kind: &TokenKind) -> u64
    ensures { result ≡ number_in_token kind.now }
{
    match kind {
        TokenKind::Number(number) => number.unsigned_abs(),
        _ => 0,
    }
}

/// The tokens so far, with a summary that gives the number of pictures that the next trigger word calls for.
#[derive(Drop)]
pub struct Collected {
    tokens: Vec<Token>,
    /// Whether the last token is PRINT.
    print_last: bool,
    /// The number that a trigger word takes as the next token.
    number: u64,
}

impl Model for Collected {
    ghost use Rattle.std.specs.Prelude.{List};
    ghost use Rattle.ss_lex.specs.declared.token.Token.{Token};
    ghost use Rattle.ss_lex.specs.Collecting.{IsSummary};

    ghost Value = { List Token };

    ghost view = { λ c. c.tokens.items };

    ghost invariant = { λ c. IsSummary c.tokens.items c.print_last c.number };
}

impl Collected {
    ghost use Rattle.std.specs.Prelude.{◌≡◌, [], ◌∷◌, ◌++◌, length, OnOk, IfOk};
    ghost use Rattle.ss_lex.specs.Tokens.{number_due, token_in, picture_at};
    ghost use Rattle.ss_lex.specs.Collecting.{number_after};
    ghost use Rattle.ss_lex.specs.Reading.{due_from};

    /// No tokens.
    pub fn new(alloc: Global) -> Collected
        ensures { result ≡ [] }
    {
        Collected {
            tokens: Vec::new(alloc),
            print_last: false,
            number: 0,
        }
    }

    /// The tokens as a vector.
    pub fn into_tokens(self) -> Vec<Token>
        ensures { result.items ≡ self }
    {
        let Collected {
            tokens,
            print_last: _,
            number: _,
        } = self;
        tokens
    }

    /// How many pictures a trigger word calls for as the next token.
    fn number_due(&self) -> u64
        ensures { result ≡ number_due self.now }
    {
        self.number
    }

    /// How many pictures a trigger word calls for after one token more, of this kind.
    fn number_after(&self, kind: &TokenKind) -> u64
        ensures { result ≡ number_after self.now kind.now }
    {
        if is_print(kind) || is_trigger(kind) {
            0
        } else if self.print_last {
            number_in_token(kind)
        } else {
            self.number
        }
    }

    /// Adds a token.
    fn push(&mut self, token: Token) -> Result<(), AllocError>
        ensures { OnOk result (self.new ≡ self.old ++ token ∷ []) }
    {
        let number = self.number_after(&token.kind);
        let print_last = is_print(&token.kind);
        self.tokens.push(token)?;
        self.number = number;
        self.print_last = print_last;
        Ok(())
    }

    /// Adds the token of this meaning, if it is one, and returns how many pictures its line calls for, where that
    /// was `due` before.
    pub fn add(
        &mut self,
        meaning: PieceMeaning,
        start: usize,
        line: Line,
        due: u64,
    ) -> Result<u64, AllocError>
        ensures tokens { OnOk result (self.new ≡ self.old ++ token_in meaning start line.0) }
        ensures due { IfOk result (λ d. d ≡ due_from due self.old (token_in meaning start line.0)) }
    {
        match meaning {
            PieceMeaning::Nothing => Ok(due),
            PieceMeaning::Token(kind, length) => {
                let due = if is_trigger(&kind) {
                    self.number_due()
                } else {
                    due
                };
                let span = Span { start, length };
                self.push(Token { kind, span, line })?;
                Ok(due)
            }
            PieceMeaning::Fault(_) => Ok(due),
        }
    }

    /// Adds the picture that a line is.
    pub fn add_picture(
        &mut self,
        alloc: Global,
        bytes: &[u8],
        start: usize,
        line: Line,
    ) -> Result<(), AllocError>
        ensures { OnOk result (self.new ≡ self.old ++ picture_at bytes.now start line.0 ∷ []) }
    {
        let trimmed = without_end_return(bytes);
        let picture = PictureLine::of(alloc, trimmed)?;
        self.push(Token {
            kind: TokenKind::Picture(picture),
            span: Span {
                start,
                length: trimmed.len(),
            },
            line,
        })
    }
}

/// The line without the carriage return at its end.
fn without_end_return(line: &[u8]) -> &[u8]
    ensures { result.now ≡ picture_of line.now }
{
    if line.is_empty() {
        return line;
    }
    let last = line.len() - 1;
    if line[last] == b'\r' {
        &line[..last]
    } else {
        line
    }
}
