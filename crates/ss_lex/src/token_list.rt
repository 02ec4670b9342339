ghost use Rattle.std.specs.Prelude.{nat_eq};
ghost use Rattle.std.specs.Ordering.{on, eq_of_both};
ghost use Rattle.std.specs.Cmp.{on_equiv, and_equiv, nat_eq_equiv, partial_equiv_from_equiv};
ghost use Rattle.std.specs.Cmp.Lexicographic.{pointwise, lists_equiv};
ghost use Rattle.ss_lex.specs.contracts.token.TokenEq.TheImpl.Laws as tokens;

use crate::token::Token;
use std::marker::Model;

/// The tokens of a text, and how many lines it has.
///
/// A contract sees them as a record of the list of the tokens and the number of lines.
#[derive(Debug, Drop)]
pub struct Tokens {
    tokens: Vec<Token>,
    line_count: u32,
}

impl Model for Tokens {
    ghost use Rattle.ss_lex.specs.Listings.{Listing};

    ghost Value = { Listing };

    ghost view = { λ t. record { list = t.tokens.items; lines = t.line_count } };
}

impl Tokens {
    ghost use Rattle.std.specs.Prelude.{◌≡◌};

    /// The tokens of a text with so many lines, for the lexer to make.
    pub fn new(tokens: Vec<Token>, line_count: u32) -> Tokens
        ensures { result ≡ record { list = tokens.items; lines = line_count } }
    {
        Tokens { tokens, line_count }
    }

    /// The tokens, in the order of the text.
    pub fn list(&self) -> &[Token]
        ensures { result.now ≡ self.now.list }
    {
        self.tokens.as_slice()
    }

    /// The number of lines of the text.
    pub fn lines(&self) -> u32
        ensures { result ≡ self.now.lines }
    {
        self.line_count
    }
}

impl PartialEq for Tokens {
    ghost eq = { eq_of_both (on (λ t. t.list) (pointwise ⟦<Token as PartialEq>⟧.eq)) (on (λ t. t.lines) nat_eq) };

    ghost laws = { partial_equiv_from_equiv (and_equiv (on_equiv (λ t. t.list) (lists_equiv tokens.laws-law)) (on_equiv (λ t. t.lines) nat_eq_equiv)) };

    fn eq(&self, other: &Tokens) -> bool {
        self.tokens == other.tokens && self.line_count == other.line_count
    }
}

impl Eq for Tokens {
    ghost laws = { and_equiv (on_equiv (λ t. t.list) (lists_equiv tokens.laws-law)) (on_equiv (λ t. t.lines) nat_eq_equiv) };
}
