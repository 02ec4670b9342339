//! The text that lists a code.
#![tactic(auto)]

mod detail;
mod jumps;
pub mod listing;
mod looks;
mod loops;
mod values;
mod world;
