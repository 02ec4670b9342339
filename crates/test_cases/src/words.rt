//! What the words of directives mean.

use crate::wrong::Wrong;
use ss_base::{Plan, WriteFailure};
use std::alloc::Global;

/// The first word of some words, and the others.
pub fn first_word(words: &str) -> (&str, &str) {
    words.split_once(' ').unwrap_or((words, ""))
}

/// A name, which may be several words.
pub fn named(name: &str) -> Result<&str, Wrong> {
    if name.is_empty() {
        return Err(Wrong::Name);
    }
    Ok(name)
}

/// A whole number.
pub fn number(word: &str) -> Result<u64, Wrong> {
    word.parse::<u64>().map_err(|_| Wrong::Number)
}

/// Whole numbers, one at least.
pub fn numbers(alloc: Global, words: &str) -> Result<Vec<u64>, Wrong> {
    let mut numbers = Vec::new(alloc);
    for word in words.split(' ') {
        numbers.push(number(word)?)?;
    }
    Ok(numbers)
}

/// Short N ..
pub fn short_numbers(alloc: Global, words: &str) -> Result<Vec<u64>, Wrong> {
    match words.strip_prefix("short ") {
        Some(words) => numbers(alloc, words),
        None => Err(Wrong::Directive),
    }
}

// A count of bytes, or of calls.
fn size(word: &str) -> Result<usize, Wrong> {
    word.parse::<usize>().map_err(|_| Wrong::Number)
}

/// What a reader or a writer does at its calls.
#[derive(Clone, Copy)]
pub struct StreamPlan {
    pub plan: Plan,
    /// What goes wrong at a call of a writer; a reader's call answers an error.
    pub failure: WriteFailure,
}

impl StreamPlan {
    /// The plan of a stream that passes so many bytes a call.
    pub fn smooth(per_call: usize) -> StreamPlan {
        StreamPlan {
            plan: Plan::smooth(per_call),
            failure: WriteFailure::Error,
        }
    }
}

/// From when on calls of a stream go wrong.
#[derive(Clone, Copy)]
enum Start {
    /// From the call of that number.
    Call,
    /// Once so many bytes were passed.
    Bytes,
}

/// How the words say what goes wrong with a stream, and when: those before a number, and those
/// after it.
struct Phrase {
    before: &'static str,
    after: &'static str,
    failure: WriteFailure,
    start: Start,
}

/// What goes wrong with a writer. The first goes wrong with a reader too.
static PHRASES: [Phrase; 4] = [
    Phrase {
        before: "fails from call ",
        after: "",
        failure: WriteFailure::Error,
        start: Start::Call,
    },
    Phrase {
        before: "fails after ",
        after: " bytes",
        failure: WriteFailure::Error,
        start: Start::Bytes,
    },
    Phrase {
        before: "takes nothing from call ",
        after: "",
        failure: WriteFailure::NoByte,
        start: Start::Call,
    },
    Phrase {
        before: "takes nothing after ",
        after: " bytes",
        failure: WriteFailure::NoByte,
        start: Start::Bytes,
    },
];

impl Phrase {
    // The word of the number, where the words are so.
    fn number<'a>(&self, words: &'a str) -> Option<&'a str> {
        words.strip_prefix(self.before)?.strip_suffix(self.after)
    }

    // The plan of a stream that goes wrong so.
    fn plan(&self, per_call: usize, number: &str) -> Result<StreamPlan, Wrong> {
        let number = size(number)?;
        let plan = match self.start {
            Start::Call => Plan::wrong_from_call(per_call, number as u64),
            Start::Bytes => Plan::wrong_after_bytes(per_call, number),
        };
        Ok(StreamPlan {
            plan,
            failure: self.failure,
        })
    }
}

/// N, or N fails from call K.
pub fn reader(words: &str) -> Result<StreamPlan, Wrong> {
    stream(words, &PHRASES[..1], Wrong::Reader)
}

/// N, or N and what goes wrong, and when.
pub fn writer(words: &str) -> Result<StreamPlan, Wrong> {
    stream(words, &PHRASES, Wrong::Writer)
}

// N, or N and one of these phrases.
fn stream(words: &str, phrases: &[Phrase], wrong: Wrong) -> Result<StreamPlan, Wrong> {
    let (per_call, rest) = first_word(words);
    let per_call = size(per_call)?;
    if rest.is_empty() {
        return Ok(StreamPlan::smooth(per_call));
    }
    for phrase in phrases {
        if let Some(number) = phrase.number(rest) {
            return phrase.plan(per_call, number);
        }
    }
    Err(wrong)
}

/// A call of a session, and what it is to answer.
#[derive(Clone, Copy)]
pub struct SessionCall<'a> {
    pub ticks: u64,
    /// The line of its stop, or `ended`.
    pub line: &'a str,
    /// The ticks used since the start, where they are looked at.
    pub used: Option<u64>,
}

impl<'a> SessionCall<'a> {
    /// N LINE, or N LINE, used U.
    pub fn of(words: &'a str) -> Result<SessionCall<'a>, Wrong> {
        let Some((ticks, answer)) = words.split_once(' ') else {
            return Err(Wrong::Run);
        };
        let ticks = number(ticks)?;
        let (line, used) = match answer.rsplit_once(", used ") {
            Some((line, used)) => (line, Some(number(used)?)),
            None => (answer, None),
        };
        if line.is_empty() {
            return Err(Wrong::Run);
        }
        Ok(SessionCall { ticks, line, used })
    }
}
