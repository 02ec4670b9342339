//! The event list: pending notices in the order in which they come out.
#![tactic(auto)]

mod calls;
mod children;
mod laws;
mod pending;
mod sift;

pub use calls::{Answer, Call};
pub use laws::{least_comes_first, order_is_total};
pub use pending::{MOST_SCHEDULINGS, Pending};
pub use ss_events_entries::entry::Key;
pub use ss_world::{Tie, TieShape};
