//! Laws of programs that break no rule: they resolve, are well typed, and have no more nodes than their trees.
#![tactic(auto)]

pub mod body_laws;
pub mod program_laws;
pub mod size_laws;
