//! Classes that are named.

use ss_program::expression::Variable;

/// A class that is named: its number, how many attributes it has, and the variable that has its entity where none is named.
#[derive(Clone, Copy, Debug, PartialEq, Eq)]
pub struct NamedClass {
    pub class: usize,
    pub attributes: usize,
    pub variable: Variable,
}
