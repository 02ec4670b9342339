//! Runs of models that are shown: a line for each tick, values that change, and what is known of a fault.
#![tactic(auto)]

mod endings;
mod guide;
mod kept;
mod looks;
mod references;
mod shows;
mod watches;

pub use endings::ending_of;
pub use guide::{Guide, compile_with_names};
pub use kept::Kept;
pub use shows::{Progress, Shown, run_shown};
pub use watches::{Watch, watches_of};
