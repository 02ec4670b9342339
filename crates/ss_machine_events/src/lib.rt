//! Scheduling and the coming of events: what is done to a world that a time decides.
#![tactic(auto)]

pub mod coming;
pub mod scheduling;
