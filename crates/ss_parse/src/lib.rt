//! From tokens to the tree of a program.
#![tactic(auto)]

mod error;
mod parser;
mod reaching;
mod reading;

pub use error::ParseError;
pub use parser::{one_tree, parse};
pub use reaching::{Reach, reach_of};
pub use ss_lex::Tokens;
pub use ss_tree::program::Program;
