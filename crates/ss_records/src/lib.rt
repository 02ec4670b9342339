//! Records of a simulation as raw blocks, with links between them.
#![tactic(auto)]

mod commands;
mod heap;

pub use commands::{
    Command, CommandAnswer, commands_leave_other_sets, filing_changes_its_set,
    filing_leaves_other_sets, filing_leaves_the_records, fit, other_calls_leave_the_sets, run,
};
pub use heap::Heap;
pub use ss_records_entities::sets::{Member, WholeMember};
pub use ss_records_entities::skimming::{Filter, SetWalk, Skimmed};
pub use ss_records_words::shape::kind;
