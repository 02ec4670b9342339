ghost use Rattle.std.specs.Prelude.{◌≡◌, ℕ, List, Option, None, option_map};
ghost use Rattle.std.specs.Io.{ReadsAtMost, WritesAtMost};
ghost use Rattle.std.specs.Io.KnownBytes.{ReadConsumes, WriteAppends};
ghost use Rattle.ss_base.specs.Failures.{errors_after, idle_after, count_after_write};

use std::io;

/// A reader or a writer that counts how often it failed.
pub trait Faulty {
    /// How often it failed.
    ghost faults: { Self → ℕ };

    /// How many of its calls failed since it was made: reads and writes that returned an error, and
    /// writes that took no byte. The count stays at 2^64 - 1 once it is there.
    fn faults(&self) -> u64
        ensures { result ≡ faults self.now };
}

/// A reader of bytes that counts its failures.
pub trait FaultyRead: Faulty {
    /// The bytes that its reads will give from here on, up to the end, if it reports them.
    ghost remaining: { Self → Option (List ℕ) } = { λ _. None };

    /// Reads some bytes into the front of `buf`, and returns how many. A reader that reports its bytes
    /// returns 0 only at their end, or where `buf` has no room. At an error it has read nothing, and
    /// the count of failures rises.
    fn read_some(&mut self, buf: &mut [u8]) -> io::Result<usize>
        ensures bound { ReadsAtMost result buf.new }
        ensures bytes { ReadConsumes (remaining self.old) (remaining self.new) result buf.new }
        ensures counted { Self.faults self.new ≡ errors_after result (Self.faults self.old) };
}

/// A writer of bytes that counts its failures.
pub trait FaultyWrite: Faulty {
    /// The bytes that it took, if it reports them.
    ghost contents: { Self → Option (List ℕ) } = { λ _. None };

    /// How many of its writes returned an error, if it reports that.
    ghost errors: { Self → Option ℕ } = { λ _. None };

    /// How many writes in a row took no byte up to now, if it reports that.
    ghost idle: { Self → Option ℕ } = { λ _. None };

    /// Takes some bytes from the front of `buf`, and returns how many. After an error it took none.
    /// The count of failures rises at an error, and wherever it took no byte, of an empty `buf` too.
    fn write_some(&mut self, buf: &[u8]) -> io::Result<usize>
        ensures bound { WritesAtMost result buf.now }
        ensures bytes { WriteAppends (contents self.old) (contents self.new) result buf.now }
        ensures counted { Self.faults self.new ≡ count_after_write result (Self.faults self.old) }
        ensures error_count { errors self.new ≡ option_map (errors_after result) (errors self.old) }
        ensures in_a_row { idle self.new ≡ option_map (idle_after result) (idle self.old) };
}
