//! The commands of `explain`, over any files and streams.
#![tactic(auto)]

mod checking;
mod command;
mod ending;
mod order;
mod outputs;
mod pace;
mod program;
mod running;

pub use order::{Order, RunOrder};
pub use outputs::Outputs;
pub use program::perform;
pub use simscript_order::{Disk, without_words, words};
