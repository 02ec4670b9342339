//! Raw blocks of words with links between them, and where the block of each number lies.
#![tactic(auto)]

mod directory;
pub mod filling;
mod head;
mod links;
mod page;
mod pages;
pub mod placing;
mod register;
pub mod row;
mod store;

pub use directory::Directory;
pub use head::{CLASS, NUMBER};
pub use links::{EntityBlock, LinkPosition};
pub use page::PAGE;
pub use store::{BlockPlace, Blocks};
