//! A reader that keeps the last bytes which it gave, so that the word read last can be shown.

use ss_base::{Faulty, FaultyRead};
use std::io;

/// How many bytes are kept.
const ROOM: usize = 8192;

/// The last bytes that were read, and the line and the column of the first of them, from 1.
#[derive(Drop)]
struct LastBytes {
    room: [u8; ROOM],
    count: usize,
    line: u64,
    column: u64,
}

/// A word of the data, with its line and its column from 1.
#[derive(Clone, Copy)]
pub struct DataWord<'a> {
    pub bytes: &'a [u8],
    pub line: u64,
    pub column: u64,
}

fn is_separator(byte: u8) -> bool {
    matches!(byte, b' ' | b'\t' | b'\r' | b'\n')
}

// The line and the column after some bytes, from those before them.
fn place_after(bytes: &[u8], line: u64, column: u64) -> (u64, u64) {
    let lines = bytes.iter().filter(|byte| **byte == b'\n').count() as u64;
    let passed = bytes.len() as u64;
    match bytes.iter().rposition(|byte| *byte == b'\n') {
        Some(last) => (
            line.saturating_add(lines),
            passed.saturating_sub(last as u64),
        ),
        None => (line, column.saturating_add(passed)),
    }
}

impl LastBytes {
    // Forgets so many of the first bytes.
    fn forget(&mut self, count: usize) {
        let count = count.min(self.count).min(ROOM);
        let (line, column) = place_after(&self.room[..count], self.line, self.column);
        self.line = line;
        self.column = column;
        self.room.rotate_left(count);
        self.count = self.count.saturating_sub(count);
    }

    // Keeps these bytes too, the last of them where they are too many.
    fn keep(&mut self, bytes: &[u8]) {
        let wanted = self.count.saturating_add(bytes.len());
        self.forget(wanted.saturating_sub(ROOM));
        for byte in bytes {
            if let Some(place) = self.room.get_mut(self.count) {
                *place = *byte;
                self.count = self.count.saturating_add(1);
            }
        }
    }

    // The last word before a place, which so many of the bytes come after. None where there is none.
    fn word_before(&self, unread: usize) -> Option<DataWord<'_>> {
        let passed = self.count.saturating_sub(unread);
        let bytes = self.room.get(..passed)?;
        let last = bytes.iter().rposition(|byte| !is_separator(*byte))?;
        let word = bytes.get(..last.saturating_add(1))?;
        let gap = word.iter().rposition(|byte| is_separator(*byte));
        let start = gap.map_or(0, |gap| gap.saturating_add(1));
        let (line, column) = place_after(bytes.get(..start)?, self.line, self.column);
        Some(DataWord {
            bytes: word.get(start..)?,
            line,
            column,
        })
    }
}

/// A reader that keeps the last bytes which it gave, and counts the lines before them.
#[derive(Drop)]
pub struct Kept<R> {
    inner: R,
    last: LastBytes,
}

impl<R> Kept<R> {
    /// A reader of which nothing was read.
    pub fn new(inner: R) -> Kept<R> {
        Kept {
            inner,
            last: LastBytes {
                room: [0; ROOM],
                count: 0,
                line: 1,
                column: 1,
            },
        }
    }

    /// The last word before a place, which so many of the bytes that were given come after. None where there is none.
    pub fn word_before(&self, unread: usize) -> Option<DataWord<'_>> {
        self.last.word_before(unread)
    }
}

impl<R: Faulty> Faulty for Kept<R> {
    ghost faults = { λ k. R.faults k.inner };

    fn faults(&self) -> u64 {
        self.inner.faults()
    }
}

impl<R: FaultyRead> FaultyRead for Kept<R> {
    ghost remaining = { λ k. R.remaining k.inner };

    fn read_some(&mut self, buf: &mut [u8]) -> io::Result<usize> {
        let answer = self.inner.read_some(buf);
        if let Ok(count) = &answer {
            let given = (*count).min(buf.len());
            self.last.keep(&buf[..given]);
        }
        answer
    }
}
