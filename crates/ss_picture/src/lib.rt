//! Pictures of printed lines, and the way out for what is printed.
#![tactic(auto)]

mod field;
mod fields;
mod items;
mod laws;
mod means;
mod picture;
mod sink;

pub use field::Field;
pub use items::Item;
pub use laws::{means_are_the_nearest, pieces_are_the_maximal_runs};
pub use picture::Picture;
pub use sink::{STALL_LIMIT, Sink, SinkError};
