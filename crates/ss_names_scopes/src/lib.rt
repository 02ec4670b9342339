//! Local variables, and what a name means in a section.
#![tactic(auto)]

mod locals;
mod scope;

pub use locals::{Locals, all_locals, local_of};
pub use scope::{Scope, is_kind, is_main, mode_of, variable_of};
