//! Text for the reader, as it grows.

ghost use Rattle.std.specs.Prelude.{◌≡◌, []};

use itoa::Buffer;
use std::alloc::{AllocError, Global};

/// What was made, or the error where memory was refused.
pub type Made<T> = Result<T, AllocError>;

/// A part of what is said.
#[derive(Clone, Copy)]
pub enum Part<'a> {
    Words(&'a str),
    Bytes(&'a [u8]),
    /// Bytes, in capitals.
    Capitals(&'a [u8]),
    /// The number of a line.
    Line(u32),
    /// A number without a sign.
    Count(u64),
    /// A number, with its minus.
    Whole(i64),
}

/// Text for the reader, as it grows, about a text.
#[derive(Drop)]
pub struct Page<'a> {
    alloc: Global,
    pub about: &'a [u8],
    pub text: Vec<u8>,
}

impl<'a> Page<'a> {
    /// An empty page about a text.
    pub fn about(alloc: Global, about: &'a [u8]) -> Page<'a>
        ensures { result.text.items ≡ [] }
    {
        Page {
            alloc,
            about,
            text: Vec::new(alloc),
        }
    }

    /// A page that has these words, with a part in place of each `{}`.
    pub fn of(alloc: Global, words: &str, parts: &[Part<'_>]) -> Made<Page<'static>> {
        let mut page = Page::about(alloc, &[]);
        page.say(words, parts)?;
        Ok(page)
    }

    /// Where its memory comes from.
    pub fn alloc(&self) -> Global {
        self.alloc
    }

    /// What is on it.
    pub fn bytes(&self) -> &[u8] {
        self.text.as_slice()
    }

    fn number(&mut self, number: i128) -> Made<()> {
        let mut buffer = Buffer::new();
        self.text
            .extend_from_slice(buffer.format(number).as_bytes())?;
        Ok(())
    }

    /// Adds a part.
    pub fn part(&mut self, part: Part<'_>) -> Made<()> {
        match part {
            Part::Words(words) => self.text.extend_from_slice(words.as_bytes())?,
            Part::Bytes(bytes) => self.text.extend_from_slice(bytes)?,
            Part::Capitals(bytes) => {
                for byte in bytes {
                    self.text.push(byte.to_ascii_uppercase())?;
                }
            }
            Part::Line(line) => self.number(i128::from(line))?,
            Part::Count(count) => self.number(i128::from(count))?,
            Part::Whole(number) => self.number(i128::from(number))?,
        }
        Ok(())
    }

    /// Adds these words, with a part in place of each `{}`. The error comes where memory was refused, here and below.
    pub fn say(&mut self, words: &str, parts: &[Part<'_>]) -> Made<()> {
        let mut next: usize = 0;
        for byte in words.as_bytes() {
            match *byte {
                b'{' => {
                    if let Some(part) = parts.get(next) {
                        self.part(*part)?;
                    }
                    next = next.saturating_add(1);
                }
                b'}' => {}
                other => self.text.push(other)?,
            }
        }
        Ok(())
    }

    /// Adds these words, as `say`, and ends the line.
    pub fn line(&mut self, words: &str, parts: &[Part<'_>]) -> Made<()> {
        self.say(words, parts)?;
        self.text.push(b'\n')?;
        Ok(())
    }

    /// Adds what helps, as a line.
    pub fn cure(&mut self, words: &str, parts: &[Part<'_>]) -> Made<()> {
        self.say("Cure: ", &[])?;
        self.line(words, parts)
    }

    /// Adds a number, with blanks before it up to this width.
    pub fn padded(&mut self, number: u64, width: usize) -> Made<()> {
        let mut buffer = Buffer::new();
        let digits = buffer.format(i128::from(number)).as_bytes();
        self.repeat(b' ', width.saturating_sub(digits.len()))?;
        self.text.extend_from_slice(digits)?;
        Ok(())
    }

    /// Adds a byte so many times.
    pub fn repeat(&mut self, byte: u8, count: usize) -> Made<()> {
        for _ in 0..count {
            self.text.push(byte)?;
        }
        Ok(())
    }
}
