//! What the command line asks for, and the files and streams that it names.
#![tactic(auto)]

mod command;
mod command_line;
mod data;
mod failure;
mod files;
mod misuse;
mod order;
mod retrying;
mod streams;

pub use command_line::{without_words, words};
pub use data::Data;
pub use failure::ProgramFailure;
pub use files::{Disk, FileStore, open, read_file, read_source};
pub use misuse::Misuse;
pub use order::Order;
pub use retrying::Retrying;
pub use streams::{Streams, explain, report_failure, write_whole};
