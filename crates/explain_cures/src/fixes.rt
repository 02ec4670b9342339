//! Changes of a text, each tried by reading the changed text.

use explain_pages::{Made, Page, Part, Stretch};
use ss_lex::{LexError, tokens};
use ss_parse::{Reach, reach_of};
use std::alloc::{AllocError, Global};

/// The part of a text in which changes are tried. It begins with a section, or with the text.
#[derive(Clone, Copy)]
pub struct Window<'a> {
    pub bytes: &'a [u8],
    /// Where it begins in the text.
    pub start: usize,
}

/// Changes of a window, each tried as it is proposed: what is said of the first of those with which the window is read furthest.
#[derive(Drop)]
pub struct Fixes<'a> {
    alloc: Global,
    window: Window<'a>,
    /// A change is good where `left_after` gives less.
    limit: usize,
    pub best: Option<Page<'static>>,
}

impl<'a> Fixes<'a> {
    /// No changes. One is good where `left_after` gives at most so much.
    pub fn new(alloc: Global, window: Window<'a>, most: usize) -> Fixes<'a> {
        Fixes {
            alloc,
            window,
            limit: most.saturating_add(1),
            best: None,
        }
    }

    /// Where their memory comes from.
    pub fn alloc(&self) -> Global {
        self.alloc
    }

    // The window with a stretch of the text changed to these parts.
    fn changed(&self, stretch: Stretch, with: &[Part<'_>]) -> Made<Page<'static>> {
        let Window { bytes, start } = self.window;
        let first = stretch.start.saturating_sub(start);
        let last = stretch.end.saturating_sub(start).max(first);
        let before = bytes.get(..first).unwrap_or(bytes);
        let after = bytes.get(last..).unwrap_or(&[]);
        let mut text = Page::of(self.alloc, "{}", &[Part::Bytes(before)])?;
        for part in with {
            text.part(*part)?;
        }
        text.part(Part::Bytes(after))?;
        Ok(text)
    }

    /// Tries a change: a stretch gives way to these parts. And what is said of it.
    pub fn replace(
        &mut self,
        stretch: Stretch,
        with: &[Part<'_>],
        say: &str,
        parts: &[Part<'_>],
    ) -> Made<()> {
        let text = self.changed(stretch, with)?;
        if let Some(left) = left_after(self.alloc, text.bytes())? {
            if left < self.limit {
                self.limit = left;
                self.best = Some(Page::of(self.alloc, say, parts)?);
            }
        }
        Ok(())
    }

    /// Tries a change: these parts are put in at a place. And what is said of it.
    pub fn insert(
        &mut self,
        at: usize,
        with: &[Part<'_>],
        say: &str,
        parts: &[Part<'_>],
    ) -> Made<()> {
        self.replace(Stretch { start: at, end: at }, with, say, parts)
    }
}

/// How many bytes of this text are left where it is not read further, and one more; 0 where it is a program. None where it has
/// no tokens.
pub fn left_after(alloc: Global, text: &[u8]) -> Made<Option<usize>> {
    let all = match tokens(alloc, text) {
        Ok(all) => all,
        Err(LexError::Memory) => return Err(AllocError),
        Err(_) => return Ok(None),
    };
    Ok(Some(match reach_of(alloc, all.list())? {
        Reach::Whole => 0,
        Reach::Stopped(index) | Reach::TooDeep(index) => {
            let stop = match all.list().get(index) {
                Some(token) => token.span.start,
                None => text.len(),
            };
            text.len().saturating_sub(stop).saturating_add(1)
        }
    }))
}
