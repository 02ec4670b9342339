//! The histories of all statistics of a run, kept as running totals.
#![tactic(auto)]

mod about;
mod each;
mod ghost_history;
mod histories;
mod kept;
mod table;
mod unnoted;
mod watched;

pub use histories::Histories;
pub use unnoted::Unnoted;
