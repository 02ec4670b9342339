//! Keys, and entries in the places of a heap: what the event list is made of.
#![tactic(auto)]

pub mod entry;
pub mod key;
