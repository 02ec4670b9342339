//! One table of what a program declares, with what each global and derived name means.
#![tactic(auto)]

mod entering;
mod entry;
mod filling;
mod meaning;
mod meanings;
mod names;

pub use entry::{Attribute, DefinedOrder, EventSection, RankedBy, RoutineSection, Set, TiedBy};
pub use meaning::Meaning;
pub use meanings::Meanings;
pub use names::{NameId, Names, value_mode};
