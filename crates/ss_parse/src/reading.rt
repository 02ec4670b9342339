//! Reading tokens from left to right.

pub mod preambles;
pub mod programs;
