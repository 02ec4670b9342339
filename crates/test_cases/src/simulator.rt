//! What cases ask of a simulator.

use crate::ending::TreeCounts;
use crate::streams::CaseStreams;
use std::alloc::{AllocError, Global};

/// A simulator, as far as cases ask for it.
pub trait Simulator {
    /// What comes of a text: why it is refused, or why its run stopped and the ticks that were used.
    type Outcome: Copy;

    /// A text under way.
    type Session;

    /// What the program prints for an outcome: a line, or nothing.
    fn printed(&self, alloc: Global, outcome: Self::Outcome) -> Result<Vec<u8>, AllocError>;

    /// The number of a refusal.
    fn refusal_number(&self, outcome: Self::Outcome) -> Option<u64>;

    /// The ticks that were used; 0 for a refusal.
    fn ticks_used(&self, outcome: Self::Outcome) -> u64;

    /// The counts of the tree of a text, or what the lexer or the parser refuses.
    fn tree(&self, alloc: Global, text: &[u8]) -> Result<TreeCounts, Self::Outcome>;

    /// What the lexer, the parser, the tables or the rules refuse of a text.
    fn refusal(&self, alloc: Global, text: &[u8]) -> Option<Self::Outcome>;

    /// Runs a text with its ticks in these pieces.
    fn run(
        &self,
        alloc: Global,
        text: &[u8],
        streams: CaseStreams,
        pieces: &[u64],
    ) -> (Self::Outcome, CaseStreams);

    /// A session of a text, or its refusal.
    fn start(
        &self,
        alloc: Global,
        text: &[u8],
        streams: CaseStreams,
    ) -> Result<Self::Session, Self::Outcome>;

    /// Runs a session with so many ticks. The ticks used are those since its start.
    fn call(&self, session: &mut Self::Session, ticks: u64) -> Self::Outcome;

    /// The streams of a session, which ends with that.
    fn close(&self, session: Self::Session) -> CaseStreams;
}
