//! What passes in time: TIME.V, the notices that are pending, and the histories that statistics are taken of.
#![tactic(auto)]

mod timeline;

pub use ss_stats_histories::Unnoted;
pub use timeline::Timeline;
