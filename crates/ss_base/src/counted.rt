ghost use Rattle.std.specs.Prelude.{◌≡◌, Ok, Some, option_map};
ghost use Rattle.std.specs.Io.{ReadsAtMost, WritesAtMost};
ghost use Rattle.std.specs.Io.KnownBytes.{ReadConsumes, WriteAppends};
ghost use Rattle.ss_base.specs.Failures.{errors_after, idle_after, count_after_write};
ghost use Rattle.ss_base.specs.Counted.{counted_inner, counted_faults, counted_errors, counted_idle};

use crate::faulty::{Faulty, FaultyRead, FaultyWrite};
use std::io;
use std::io::{Read, Write};

/// A reader or a writer of the library whose failures are counted.
///
/// Each call is one call of the one inside, with the whole buffer, and returns what that call returned.
#[derive(Debug, Drop)]
pub struct Counted<T> {
    inner: T,
    faults: u64,
    errors: u64,
    idle: u64,
}

impl<T> Counted<T> {
    /// A reader or a writer that has not failed yet.
    pub fn new(inner: T) -> Counted<T>
        ensures inner { counted_inner result ≡ inner }
        ensures faults { counted_faults result ≡ 0 }
        ensures errors { counted_errors result ≡ 0 }
        ensures idle { counted_idle result ≡ 0 }
    {
        Counted {
            inner,
            faults: 0,
            errors: 0,
            idle: 0,
        }
    }

    /// The reader or the writer inside, in its present state.
    pub fn into_inner(self) -> T
        ensures { result ≡ counted_inner self }
    {
        self.inner
    }
}

impl<T> Faulty for Counted<T> {
    ghost faults = { counted_faults };

    fn faults(&self) -> u64 {
        self.faults
    }
}

impl<T: Read> FaultyRead for Counted<T> {
    ghost remaining = { λ c. T.remaining (counted_inner c) };

    fn read_some(&mut self, buf: &mut [u8]) -> io::Result<usize> {
        let answer = self.inner.read(buf);
        if answer.is_err() {
            self.faults = self.faults.saturating_add(1);
        }
        answer
    }
}

impl<T: Write> FaultyWrite for Counted<T> {
    ghost contents = { λ c. T.contents (counted_inner c) };

    ghost errors = { λ c. Some (counted_errors c) };

    ghost idle = { λ c. Some (counted_idle c) };

    fn write_some(&mut self, buf: &[u8]) -> io::Result<usize> {
        let answer = self.inner.write(buf);
        match &answer {
            Ok(0) => {
                self.faults = self.faults.saturating_add(1);
                self.idle = self.idle.saturating_add(1);
            }
            Ok(_) => self.idle = 0,
            Err(_) => {
                self.faults = self.faults.saturating_add(1);
                self.errors = self.errors.saturating_add(1);
                self.idle = 0;
            }
        }
        answer
    }
}
