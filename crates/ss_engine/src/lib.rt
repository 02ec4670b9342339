//! From a text to its report: compiling, sessions, and the one call for both.
#![tactic(auto)]

mod compiling;
pub mod laws;
mod outcome;
mod refusal;
mod run;
mod session;
pub mod session_laws;
mod simulating;
pub mod text_laws;

pub use compiling::{compile, compile_tree};
pub use outcome::{Outcome, outcome_line, outcome_status};
pub use refusal::Refusal;
pub use run::run_model;
pub use session::Session;
pub use simulating::simulate;
pub use ss_base::{
    Alpha, Counted, FaultKind, Faulty, FaultyRead, FaultyWrite, Line, MemoryRead, MemoryWrite,
    Plan, WriteFailure,
};
pub use ss_check_rules::CheckError;
pub use ss_code::model::Model;
pub use ss_lex::LexError;
pub use ss_machine::Stop;
pub use ss_parse::ParseError;
pub use ss_tables_rules::TableError;
