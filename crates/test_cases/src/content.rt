//! Lines of content.

use crate::wrong::Wrong;
use std::alloc::Global;

/// A line of content, as it is in the file.
#[derive(Clone, Copy)]
pub struct Content<'a> {
    /// The text, with its escapes.
    text: &'a [u8],
    /// How often it is repeated.
    times: u64,
    /// What is added after it at the end.
    end: &'static [u8],
}

impl<'a> Content<'a> {
    /// The content that a line of the file holds, or None where it is another line.
    pub fn of(line: &'a str) -> Option<Content<'a>> {
        match line.as_bytes() {
            [b'|'] => Some(whole_line(&[])),
            [b'|', b' ', text @ ..] => Some(whole_line(text)),
            [b'>', b' ', text @ ..] => Some(repeated(text, 1)),
            _ => counted(line),
        }
    }

    /// Adds the bytes of this line to these.
    pub fn add_to(self, alloc: Global, bytes: &mut Vec<u8>) -> Result<(), Wrong> {
        let mut piece = Vec::new(alloc);
        unescape(self.text, &mut piece)?;
        for _ in 0..self.times {
            bytes.extend_from_slice(&piece)?;
        }
        bytes.extend_from_slice(self.end)?;
        Ok(())
    }
}

// A text and a line end.
fn whole_line(text: &[u8]) -> Content<'_> {
    Content {
        text,
        times: 1,
        end: b"\n",
    }
}

// A text with no line end, so many times.
fn repeated(text: &[u8], times: u64) -> Content<'_> {
    Content {
        text,
        times,
        end: &[],
    }
}

// N > and a text.
fn counted(line: &str) -> Option<Content<'_>> {
    let (count, text) = line.split_once(" > ")?;
    let times = count.parse::<u64>().ok()?;
    Some(repeated(text.as_bytes(), times))
}

/// What was read of an escape.
#[derive(Clone, Copy)]
enum Escape {
    /// None is under way.
    Outside,
    /// The backslash.
    Begun,
    /// The backslash and an x.
    Hexadecimal,
    /// The backslash, an x and a digit of this value.
    OneDigit(u8),
}

// Adds the bytes of a text, its escapes resolved, to these.
fn unescape(text: &[u8], bytes: &mut Vec<u8>) -> Result<(), Wrong> {
    let mut escape = Escape::Outside;
    for byte in text {
        escape = add_byte(bytes, escape, *byte)?;
    }
    match escape {
        Escape::Outside => Ok(()),
        _ => Err(Wrong::Escape),
    }
}

// Reads one byte further, and answers what was read of an escape then.
fn add_byte(bytes: &mut Vec<u8>, escape: Escape, byte: u8) -> Result<Escape, Wrong> {
    match escape {
        Escape::Outside => match byte {
            b'\\' => Ok(Escape::Begun),
            _ => add_meant(bytes, byte),
        },
        Escape::Begun => add_escaped(bytes, byte),
        Escape::Hexadecimal => Ok(Escape::OneDigit(digit(byte)?)),
        Escape::OneDigit(high) => add_meant(bytes, (high << 4) | digit(byte)?),
    }
}

// Adds a byte.
fn add_meant(bytes: &mut Vec<u8>, byte: u8) -> Result<Escape, Wrong> {
    bytes.push(byte)?;
    Ok(Escape::Outside)
}

// Reads the byte after a backslash.
fn add_escaped(bytes: &mut Vec<u8>, byte: u8) -> Result<Escape, Wrong> {
    match byte {
        b'\\' => add_meant(bytes, b'\\'),
        b't' => add_meant(bytes, b'\t'),
        b'r' => add_meant(bytes, b'\r'),
        b'x' => Ok(Escape::Hexadecimal),
        _ => Err(Wrong::Escape),
    }
}

// The value of a hexadecimal digit.
fn digit(byte: u8) -> Result<u8, Wrong> {
    match byte {
        b'0'..=b'9' => Ok(byte - b'0'),
        b'a'..=b'f' => Ok(byte - b'a' + 10),
        b'A'..=b'F' => Ok(byte - b'A' + 10),
        _ => Err(Wrong::Escape),
    }
}

/// Where a line of a text lies.
#[derive(Clone, Copy)]
pub struct LinePlace {
    pub start: usize,
    pub end: usize,
}

/// Where the line of this number lies in a text, counted from 1; None where it has no such line.
pub fn place_of_line(text: &[u8], number: u64) -> Option<LinePlace> {
    let mut start: usize = 0;
    let mut count: u64 = 0;
    for line in text.split_inclusive(|byte| *byte == b'\n') {
        let end = start.saturating_add(line.len());
        count = count.saturating_add(1);
        if count == number {
            return Some(LinePlace { start, end });
        }
        start = end;
    }
    None
}
