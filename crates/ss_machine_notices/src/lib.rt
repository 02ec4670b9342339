//! What the instructions of scheduling and of events do to a machine.
#![tactic(auto)]

pub mod events;
pub mod scheduling;
