//! What the table of a program lays out.
#![tactic(auto)]

mod classes;
mod error;
mod globals;
mod laid;
mod layouts;
mod ranking;

pub use classes::NamedClass;
pub use error::ResolveError;
pub use laid::{Laid, lay_out};
pub use layouts::layout;
pub use ranking::resolve_ties;
