//! The entities of a run.
#![tactic(auto)]

pub mod population;
