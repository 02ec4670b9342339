//! The rules 71 to 79 on what a program does with its names, and the first that is broken.
#![tactic(auto)]

mod counts;
mod error;
mod kinds;
mod places;
mod preamble;
mod program;
mod sections;

pub use error::CheckError;
pub use program::judge;
