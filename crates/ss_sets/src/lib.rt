//! The disciplines of sets, over the links of their members.
#![tactic(auto)]

mod fitting;
mod ranking;
mod taking;

pub use fitting::fits;
pub use ranking::file;
pub use taking::{is_in, remove_first, remove_last};
