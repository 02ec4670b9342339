//! Expressions, and the questions in them.

use ss_base::Value;
pub use ss_base::{Operator, Sign, UnaryOperator};

/// A variable: a global one by its number among all of them, or a local one by its number in its
/// routine.
#[derive(Clone, Copy, Debug, PartialEq, Eq)]
pub enum Variable {
    Global { number: usize },
    Local { number: usize },
}

/// A question about a set.
#[derive(Clone, Copy, Debug, PartialEq, Eq)]
pub enum SetQuery {
    /// F.: the first member; 0 where there is none.
    FirstMember,
    /// L.: the last member; 0 where there is none.
    LastMember,
    /// N.: how many members there are.
    MemberCount,
}

/// A question about a member: its neighbours in the set of a name, or whether it is in one.
#[derive(Clone, Copy, Debug, PartialEq, Eq)]
pub enum MemberQuery {
    /// P.: the member before this one; 0 where there is none.
    Predecessor,
    /// S.: the member after this one; 0 where there is none.
    Successor,
    /// M.: 1 for a member of any set of the name, and 0 for none.
    Membership,
}

/// A question about a statistic.
#[derive(Clone, Copy, Debug, PartialEq, Eq)]
pub enum Fold {
    Number,
    Sum,
    Maximum,
    Minimum,
}

/// An operation, and the number on its right.
#[cycle(expressions)]
#[derive(Drop)]
pub struct Operation {
    pub operator: Operator,
    pub operand: Expression,
}

/// What gives a value.
#[cycle(expressions)]
#[derive(Drop)]
pub enum Expression {
    Constant {
        value: Value,
    },
    /// The value of a variable. N. of a permanent class is a global one.
    Fetch {
        variable: Variable,
    },
    /// The value of an attribute of an entity of a class.
    Attribute {
        class: usize,
        field: usize,
        of: Box<Expression>,
    },
    /// The answer to a question about THE SYSTEM's set.
    OfSystemSet {
        query: SetQuery,
        set: usize,
    },
    /// The answer to a question about the set of an owner.
    OfSet {
        query: SetQuery,
        set: usize,
        owner: Box<Expression>,
    },
    /// The answer to a question about a member.
    OfMember {
        query: MemberQuery,
        set: usize,
        member: Box<Expression>,
    },
    /// TIME.V: the time of the simulation, in units.
    Clock,
    /// TIME.A: the time that a notice was last scheduled for, in units; 0 before.
    TimeOf {
        notice: Box<Expression>,
    },
    /// A statistic of a global variable, or of N. of THE SYSTEM's set.
    Figure {
        fold: Fold,
        statistic: usize,
    },
    /// A statistic of an attribute of an entity, or of N. of the set of an owner.
    FigureOf {
        fold: Fold,
        statistic: usize,
        entity: Box<Expression>,
    },
    /// A term after a sign.
    Signed {
        sign: Sign,
        term: Box<Expression>,
    },
    /// A function of one number.
    Unary {
        operator: UnaryOperator,
        argument: Box<Expression>,
    },
    /// A number and operations on it, worked off from left to right: a sum, a product, or a function of two
    /// numbers.
    Calculate {
        first: Box<Expression>,
        further: Vec<Operation>,
    },
}

/// The owner of a set, where several sets have its name.
#[derive(Drop)]
pub enum SetOwner {
    TheSystem,
    Entity { entity: Expression },
}
