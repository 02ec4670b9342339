//! Why tokens spell no program.

use ss_base::Line;
use thiserror::Error;

/// Why tokens are refused, with a line of the text.
#[derive(Clone, Copy, Debug, PartialEq, Eq, Error)]
pub enum ParseError {
    /// The tokens spell no program.
    #[error("line {}: no program goes on so", .0.0)]
    Syntax(Line),
    /// More than 64 parentheses, IFs and loops are open at a place.
    #[error("line {}: too many levels of nesting", .0.0)]
    TooDeep(Line),
    #[error("out of memory")]
    Memory,
}
