//! Cases of whole texts: files of them read, and each tried by a simulator.
#![tactic(auto)]

mod book;
mod cases;
mod compared;
mod content;
mod directive;
mod ending;
mod files;
mod judged;
mod messages;
mod score;
mod session;
mod simulator;
mod streams;
mod trial;
mod words;
mod wrong;

pub use ending::TreeCounts;
pub use files::try_files;
pub use score::Score;
pub use simulator::Simulator;
pub use streams::CaseStreams;
