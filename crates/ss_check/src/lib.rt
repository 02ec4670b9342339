//! Programs that break no rule, with their names resolved.
#![tactic(auto)]

mod checking;
mod events;
mod program;
mod routines;
mod sections;

pub use checking::{check, check_tree};
pub use ss_check_laws::program_laws::programs_resolve;
pub use ss_check_rules::CheckError;
pub use ss_program::checked::Checked;
