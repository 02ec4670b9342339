//! What a program does with its names: the rules that it breaks, in words, and what looks odd where it breaks none.
#![tactic(auto)]

mod counts;
mod declared;
mod locals;
mod modes;
mod needs;
mod notes;
mod sections;
mod statements;
mod used;

pub use declared::explain_declared;
pub use notes::add_notes;
pub use sections::{Read, all_uses};
pub use used::explain_used;
