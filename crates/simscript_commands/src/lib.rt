//! The commands of the program: what its command line asks for, done over any files and streams.
#![tactic(auto)]

mod program;

pub use program::{perform, report_ending};
pub use simscript_order::{
    Disk, FileStore, Misuse, Order, ProgramFailure, Streams, without_words, words,
};
pub use ss_engine::Outcome;
