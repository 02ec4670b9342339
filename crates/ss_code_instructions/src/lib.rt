//! The instructions of the machine, and what else a program's code holds.
#![tactic(auto)]

pub mod address;
mod class;
pub mod entry;
pub mod instruction;
pub mod item;
pub mod laws;
pub mod limit;

pub use class::NoticeClass;
