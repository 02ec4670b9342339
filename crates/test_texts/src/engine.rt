//! The engine, as cases ask for it.

use ss_base::{MemoryRead, MemoryWrite};
use ss_engine::{Model, Outcome, Refusal, Session, compile, outcome_line, simulate};
use ss_lex::tokens;
use ss_parse::parse;
use ss_tree::release::release_tree;
use std::alloc::{AllocError, Global};
use test_cases::{CaseStreams, Simulator, TreeCounts};

/// The engine.
pub struct Engine;

impl Simulator for Engine {
    type Outcome = Outcome;

    type Session = Session<MemoryRead, MemoryWrite>;

    fn printed(&self, alloc: Global, outcome: Outcome) -> Result<Vec<u8>, AllocError> {
        outcome_line(alloc, &outcome)
    }

    fn refusal_number(&self, outcome: Outcome) -> Option<u64> {
        match outcome {
            Outcome::Refused(refusal) => Some(u64::from(refusal.number())),
            Outcome::Stopped(_, _) => None,
        }
    }

    fn ticks_used(&self, outcome: Outcome) -> u64 {
        match outcome {
            Outcome::Stopped(_, used) => used,
            Outcome::Refused(_) => 0,
        }
    }

    fn tree(&self, alloc: Global, text: &[u8]) -> Result<TreeCounts, Outcome> {
        match tree_of(alloc, text) {
            Some(counts) => Ok(counts),
            // The lexer and the parser come first, so the whole text is refused as they refuse it.
            None => match self.refusal(alloc, text) {
                Some(outcome) => Err(outcome),
                None => Err(Outcome::Refused(Refusal::Memory)),
            },
        }
    }

    fn refusal(&self, alloc: Global, text: &[u8]) -> Option<Outcome> {
        match compile(alloc, text) {
            Ok(model) => {
                model.release();
                None
            }
            Err(refusal) => Some(Outcome::Refused(refusal)),
        }
    }

    fn run(
        &self,
        alloc: Global,
        text: &[u8],
        streams: CaseStreams,
        pieces: &[u64],
    ) -> (Outcome, CaseStreams) {
        let CaseStreams { reader, writer } = streams;
        let (outcome, reader, writer) = simulate(alloc, text, reader, writer, pieces);
        (outcome, CaseStreams { reader, writer })
    }

    fn start(
        &self,
        alloc: Global,
        text: &[u8],
        streams: CaseStreams,
    ) -> Result<Session<MemoryRead, MemoryWrite>, Outcome> {
        match compile(alloc, text) {
            Ok(model) => session_of(alloc, model, streams),
            Err(refusal) => Err(Outcome::Refused(refusal)),
        }
    }

    fn call(&self, session: &mut Session<MemoryRead, MemoryWrite>, ticks: u64) -> Outcome {
        let stop = session.run(ticks);
        Outcome::Stopped(stop, session.used())
    }

    fn close(&self, session: Session<MemoryRead, MemoryWrite>) -> CaseStreams {
        let (reader, writer) = session.close();
        CaseStreams { reader, writer }
    }
}

// The counts of the tree of a text, if it has one.
fn tree_of(alloc: Global, text: &[u8]) -> Option<TreeCounts> {
    let Ok(tokens) = tokens(alloc, text) else {
        return None;
    };
    match parse(alloc, &tokens) {
        Ok(program) => {
            let counts = TreeCounts::of(&program);
            release_tree(program);
            Some(counts)
        }
        Err(_) => None,
    }
}

// A session of a model, if that can be started.
fn session_of(
    alloc: Global,
    model: Model,
    streams: CaseStreams,
) -> Result<Session<MemoryRead, MemoryWrite>, Outcome> {
    let CaseStreams { reader, writer } = streams;
    match Session::start(alloc, model, reader, writer) {
        Ok(session) => Ok(session),
        Err(_) => Err(Outcome::Refused(Refusal::Memory)),
    }
}
