//! What the instructions of a FOR over the members of a set do to a machine.
#![tactic(auto)]

pub mod members;
