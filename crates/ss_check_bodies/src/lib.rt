//! The statements of a section with their names resolved.
#![tactic(auto)]

mod bodies;
mod classes;
mod conditions;
mod expressions;
mod heads;
mod items;
mod lists;
mod loops;
mod notices;
mod places;
mod resolver;
mod results;
mod statements;

pub use resolver::Resolver;
pub use ss_names_meaning::ResolveError;
