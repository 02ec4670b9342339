//! The rows in which values lie, and the frames of open calls in them.
#![tactic(auto)]

pub mod frames;
pub mod rows;
