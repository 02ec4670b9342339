//! Expressions, and the places that a program names.

pub use ss_base::{Operator, Sign, UnaryOperator};
use ss_base::{Alpha, Name};

/// A function of the language, by what it makes of its arguments.
#[derive(Clone, Copy)]
pub enum Function {
    /// Of one number, as ABS.F.
    One(UnaryOperator),
    /// Of two numbers, as DIV.F.
    Two(Operator),
}

/// What names a value, without its subscripts.
#[derive(Clone, Copy)]
pub enum Designator {
    Name(Name),
    /// TIME.V, the time.
    TimeV,
    /// TIME.A, the time for which a notice is scheduled.
    TimeA,
}

/// A named place, with or without subscripts: a factor, a target or a reference to a set.
#[cycle(expressions)]
#[derive(Drop)]
pub struct Named {
    pub designator: Designator,
    pub subscripts: Vec<Expression>,
}

/// A further term of a sum, and the sign before it.
#[cycle(expressions)]
#[derive(Drop)]
pub struct Term {
    pub sign: Sign,
    pub value: Expression,
}

/// An expression.
#[cycle(expressions)]
#[derive(Drop)]
pub enum Expression {
    /// A whole number, 0 or greater.
    Number(i64),
    Text(Alpha),
    Named(Named),
    Call {
        function: Function,
        arguments: Vec<Expression>,
    },
    /// An expression between parentheses.
    Parenthesised(Box<Expression>),
    /// A factor times further factors, of which there is one at least.
    Product {
        first: Box<Expression>,
        further: Vec<Expression>,
    },
    /// A term with a sign before it, as the first term of a sum.
    Signed {
        sign: Sign,
        term: Box<Expression>,
    },
    /// A term and further terms, of which there is one at least.
    Sum {
        first: Box<Expression>,
        further: Vec<Term>,
    },
}
