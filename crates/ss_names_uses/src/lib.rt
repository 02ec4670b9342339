//! The uses of names, modes and counts in a section.
#![tactic(auto)]

mod conditions;
mod expressions;
mod handed;
mod heads;
mod pictures;
mod sections;
mod statements;
mod used;

pub use sections::uses_of;
pub use used::{ClassNeed, CountNeed, ModeOf, Role, Use, Used};
