//! The code of a resolved program.
#![tactic(auto)]

pub mod code;
pub mod error;
mod generating;
pub mod model;
mod program_facts;
mod sifting;

pub use code::Code;
pub use error::CodeError;
pub use generating::generate;
