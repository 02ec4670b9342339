//! Input, a block at a time.

ghost use Rattle.std.specs.Prelude.{◌≡◌, ◌≢◌, ◌<◌, ◌≤◌, [], true, false, length, drop, IfOk, OnOk, OnErr};
ghost use Rattle.std.specs.Io.KnownBytes.{Keeps};
ghost use Rattle.ss_base.specs.Failures.{errors_after};
ghost use Rattle.ss_input.specs.Blocks.{IsEndKnown, HasPeeked, HasFilled, IsUnread, first_input_byte};

use ss_base::FaultyRead;
use std::marker::Model;

/// The bytes that a reader is asked for at a time.
pub const BLOCK: usize = 4096;

/// The reader answered an error.
#[derive(Clone, Copy, Debug, PartialEq, Eq)]
pub struct ReadFailed;

/// A reader, the bytes that it gave and that are still to be looked at, and whether it gave an end.
///
/// It is asked for a block only where no byte is left and one is wanted.
#[derive(Debug, Drop)]
pub struct Block<R> {
    reader: R,
    room: [u8; BLOCK],
    next: usize,
    end: usize,
    ended: bool,
}

impl<R> Model for Block<R> {
    ghost use Rattle.std.specs.Prelude.{◌≤◌, drop, take};
    ghost use Rattle.ss_input.specs.Blocks.{BlockSeen, coded_block, block_limit};

    ghost Value = { BlockSeen R };

    ghost coded = { coded_block R.code };

    ghost view = { λ b. record { reader = b.reader; left = drop b.next (take b.end b.room); ended = b.ended } };

    ghost invariant = { λ b. (b.next ≤ b.end) × (b.end ≤ block_limit) };
}

impl<R> Block<R> {
    /// A reader of which nothing was read.
    pub fn new(reader: R) -> Block<R>
        ensures reader { result.reader ≡ reader }
        ensures left { result.left ≡ [] }
        ensures ended { result.ended ≡ false }
    {
        Block {
            reader,
            room: [0; BLOCK],
            next: 0,
            end: 0,
            ended: false,
        }
    }

    /// The reader, after all that was read from it.
    pub fn into_inner(self) -> R
        ensures { result ≡ self.reader }
    {
        self.reader
    }

    /// The reader, as it is now.
    pub fn reader(&self) -> &R
        ensures { result.now ≡ self.now.reader }
    {
        &self.reader
    }

    /// The first of the buffered bytes.
    pub fn first(&self) -> Option<u8>
        ensures { result ≡ first_input_byte self.now.left }
    {
        match &self.room[self.next..self.end] {
            [] => None,
            [byte, ..] => Some(*byte),
        }
    }

    /// The buffered bytes: those that the reader gave and that weren't passed yet.
    #[inline(always)]
    pub fn buffered(&self) -> &[u8]
        ensures { result.now ≡ self.now.left }
    {
        &self.room[self.next..self.end]
    }

    /// Passes the first so many of the buffered bytes.
    #[inline(always)]
    pub fn pass(&mut self, count: usize)
        requires { count ≤ length self.old.left }
        ensures { self.new ≡ record { reader = self.old.reader; left = drop count self.old.left; ended = self.old.ended } }
    {
        self.next += count;
    }

    /// Passes the first of the bytes that are left.
    pub fn advance(&mut self)
        requires { 0 < length self.old.left }
        ensures left { self.new.left ≡ drop 1 self.old.left }
        ensures reader { self.new.reader ≡ self.old.reader }
        ensures ended { self.new.ended ≡ self.old.ended }
    {
        self.next += 1;
    }
}

impl<R: FaultyRead> Block<R> {
    /// The next byte, which stays; None at the end. The reader is asked at most once, and only where
    /// no byte is buffered and it gave no end. The error comes where it answered one; then nothing was
    /// read.
    pub fn peek(&mut self) -> Result<Option<u8>, ReadFailed>
        ensures ok { IfOk result (λ byte. HasPeeked R.remaining self.old self.new byte) }
        ensures buffered { self.old.left ≢ [] → self.new ≡ self.old }
        ensures after_end { self.old.ended ≡ true → self.new ≡ self.old }
        ensures unread { OnErr result (IsUnread R.remaining self.old self.new) }
        ensures wanted { OnErr result ((self.old.left ≡ []) × (self.old.ended ≡ false)) }
        ensures counted { R.faults self.new.reader ≡ errors_after result (R.faults self.old.reader) }
        ensures end { IsEndKnown R.remaining self.old → IsEndKnown R.remaining self.new }
    {
        if let Some(byte) = self.first() {
            return Ok(Some(byte));
        }
        if self.ended {
            return Ok(None);
        }
        self.fill()?;
        Ok(self.first())
    }

    // Asks the reader for a block.
    fn fill(&mut self) -> Result<(), ReadFailed>
        requires empty { self.old.left ≡ [] }
        requires not_ended { self.old.ended ≡ false }
        ensures ok { OnOk result (HasFilled R.remaining self.old self.new) }
        ensures unread { OnErr result (IsUnread R.remaining self.old self.new) }
        ensures counted { R.faults self.new.reader ≡ errors_after result (R.faults self.old.reader) }
        ensures end { IsEndKnown R.remaining self.old → IsEndKnown R.remaining self.new }
    {
        match self.reader.read_some(&mut self.room) {
            Ok(0) => {
                self.ended = true;
                Ok(())
            }
            Ok(count) => {
                self.next = 0;
                self.end = count;
                Ok(())
            }
            Err(_) => Err(ReadFailed),
        }
    }
}
