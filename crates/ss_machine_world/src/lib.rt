//! What a run works on beside its variables: the entities, their sets, the time, the notices that are pending, and the
//! histories that statistics are taken of.
#![tactic(auto)]

mod class;
mod entities;
mod sets;
mod statistics;
pub mod world;
