//! Changes of a text that spells no program, each tried by reading it.
#![tactic(auto)]

mod fixes;
mod frames;
mod moves;
mod place;
mod prints;
pub mod syntax;
mod words;
