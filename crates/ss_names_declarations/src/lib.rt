//! What a program declares, as a list, and tables by names in which the first of two entries counts.
#![tactic(auto)]

mod declaration;
mod declarations;
mod earliest;
mod first;
mod keys;
mod seed;
mod spelled;
mod table;

pub use declaration::{Declaration, Declared, SetRule};
pub use declarations::declarations_of;
pub use earliest::{Breach, earlier, earlier_of, laws_of_earliest};
pub use first::{has_entry, insert_first, insert_if, key_at, value_at};
pub use keys::Keys;
pub use seed::Seed;
pub use spelled::{insert_spelled, spelled_at};
pub use ss_base::{SPELLING_LIMIT, Spelling};
pub use table::Table;
