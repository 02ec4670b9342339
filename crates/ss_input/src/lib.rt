//! The words of the input data, read a block at a time.
#![tactic(auto)]

mod block;
mod number;
mod passing;
mod source;
mod value;

pub use block::{BLOCK, Block, ReadFailed};
pub use source::{Missed, Source};
