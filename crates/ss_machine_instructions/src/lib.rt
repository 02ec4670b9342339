//! What a machine holds, and what each instruction that neither reads nor writes does to it.
#![tactic(auto)]

pub mod attributes;
pub mod calls;
pub mod entities;
pub mod flow;
pub mod jumps;
pub mod looks;
pub mod loops;
pub mod numbers;
pub mod sets;
pub mod state;
pub mod statistics;
