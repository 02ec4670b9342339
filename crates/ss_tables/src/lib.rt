//! What a program declares, where it breaks no rule on it.
#![tactic(auto)]

mod tables;

pub use ss_names::NameId;
pub use ss_tables_rules::TableError;
pub use tables::Tables;
