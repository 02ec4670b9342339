//! The rules 51 to 60 on what a program declares, and the first that is broken.
#![tactic(auto)]

mod broken;
mod declarations;
mod error;
mod keys;
mod modes;
mod once;

pub use broken::{refusal_of, seed_of};
pub use error::TableError;
