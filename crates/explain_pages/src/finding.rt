//! What is said of a line: what is wrong with a name of it, and a name that is spelled alike.

use crate::page::Part::{Bytes, Line};
use crate::page::{Made, Page, Part};
use crate::places::{is_long, is_named, stretch_of};
use ss_base::Name;
use ss_lex::tokens;
use std::alloc::Global;
use strsim::osa_distance;

impl Page<'_> {
    // Shows a line, with this name of it marked, or the first line below that has it.
    fn show_name(&mut self, line: u32, name: &[u8]) -> Made<()> {
        let Ok(all) = tokens(self.alloc(), self.about) else {
            return self.show(line);
        };
        for token in all.list() {
            if token.line.0 >= line && is_named(token, name) {
                return self.show_marked(token.line.0, stretch_of(token));
            }
        }
        self.show(line)
    }

    /// Says what is wrong with a name of a line, as `line 7, ARIVAL: it is not declared`: these words with a part in place of each `{}`. And shows the line with the name marked.
    pub fn name(&mut self, line: u32, name: &[u8], words: &str, parts: &[Part<'_>]) -> Made<()> {
        self.say("line {}, {}: ", &[Line(line), Bytes(name)])?;
        self.line(words, parts)?;
        self.show_name(line, name)
    }

    /// Says what is wrong in a line, where no name of it is known to be, and shows the line.
    pub fn in_line(&mut self, line: u32, words: &str, parts: &[Part<'_>]) -> Made<()> {
        self.say("line {}: ", &[Line(line)])?;
        self.line(words, parts)?;
        self.show(line)
    }

    /// Whether there are notes enough: 20,000 bytes of them, or 400 on a long text, since a line is looked for from the beginning of
    /// the text.
    pub fn is_full(&self) -> bool {
        let most: usize = if is_long(self.about) { 400 } else { 20_000 };
        self.text.len() > most
    }

    /// Adds a note on a line, and shows the line. Nothing is added where there are notes enough.
    pub fn note(&mut self, line: u32, words: &str, parts: &[Part<'_>]) -> Made<()> {
        if self.is_full() {
            return Ok(());
        }
        self.say("note: line {}", &[Line(line)])?;
        self.line(words, parts)?;
        self.show(line)
    }

    /// Adds the name that is spelled most like this one as a cure, and says whether there is one.
    pub fn nearest(&mut self, name: &[u8], known: &[Name]) -> Made<bool> {
        let Some(found) = nearest(self.alloc(), name, known)? else {
            return Ok(false);
        };
        let parts = [Bytes(found.bytes()), Bytes(name)];
        self.cure("Write {} in place of {}.", &parts)?;
        Ok(true)
    }
}

// The most letters in which a spelling of this length may differ.
fn allowed(length: usize) -> usize {
    match length {
        0..=2 => 0,
        3..=4 => 1,
        5..=8 => 2,
        _ => 3,
    }
}

// How far a spelling is from another one, if they are alike: how many letters differ, a change of place counted once.
fn likeness(alloc: Global, left: &[u8], right: &[u8]) -> Made<Option<usize>> {
    if left.len().abs_diff(right.len()) > 3 {
        return Ok(None);
    }
    let most = allowed(left.len().min(right.len()));
    match (str::from_utf8(left), str::from_utf8(right)) {
        (Ok(left), Ok(right)) => {
            let count = osa_distance(alloc, left, right)?;
            Ok(Some(count).filter(|count| *count > 0 && *count <= most))
        }
        _ => Ok(None),
    }
}

/// Whether two spellings, both in capitals, are alike and not the same.
pub fn is_like(alloc: Global, left: &[u8], right: &[u8]) -> Made<bool> {
    Ok(likeness(alloc, left, right)?.is_some())
}

/// The name that is spelled most like this, the first of several. None where none is alike.
pub fn nearest(alloc: Global, spelling: &[u8], all: &[Name]) -> Made<Option<Name>> {
    let mut best = None;
    let mut least = usize::MAX;
    for name in all {
        if let Some(count) = likeness(alloc, spelling, name.bytes())? {
            if count < least {
                least = count;
                best = Some(*name);
            }
        }
    }
    Ok(best)
}
