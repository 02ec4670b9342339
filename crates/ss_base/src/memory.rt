ghost use Rattle.std.specs.Prelude.{◌≡◌, ◌+◌, ◌++◌, length, take, drop, Some, IfOk, unwrap_or, option_map};
ghost use Rattle.std.specs.Result.{result_ok};
ghost use Rattle.std.specs.Io.{ReadsAtMost, WritesAtMost};
ghost use Rattle.std.specs.Io.KnownBytes.{ReadConsumes, WriteAppends};
ghost use Rattle.ss_base.specs.Failures.{errors_after, idle_after, count_after_write};
ghost use Rattle.ss_base.specs.Plan.{after_call};

use crate::faulty::{Faulty, FaultyRead, FaultyWrite};
use crate::plan::{Plan, Progress};
use std::alloc::{AllocError, Global};
use std::io;
use std::io::ErrorKind;
use std::marker::Model;

/// A reader of bytes in memory that goes by a plan. A call that goes wrong returns an error.
#[derive(Debug, Drop)]
pub struct MemoryRead {
    bytes: Vec<u8>,
    at: usize,
    progress: Progress,
    faults: u64,
}

impl Model for MemoryRead {
    ghost use Rattle.std.specs.Prelude.{◌≤◌, drop, length};
    ghost use Rattle.ss_base.specs.Memory.{Reading};

    ghost Value = { Reading };

    ghost view = { λ r. record { remaining = drop r.at r.bytes.items; passed = r.at; progress = r.progress; faults = r.faults } };

    ghost invariant = { λ r. r.at ≤ length r.bytes.items };
}

impl MemoryRead {
    ghost use Rattle.ss_base.specs.Memory.{reader_of};

    /// A reader of a copy of `bytes`. It takes all its memory now, and fails only where that was refused.
    pub fn new(alloc: Global, bytes: &[u8], plan: Plan) -> Result<MemoryRead, AllocError>
        ensures { IfOk result (λ reader. reader ≡ reader_of bytes.now plan) }
    {
        Ok(MemoryRead {
            bytes: Vec::from_slice(alloc, bytes)?,
            at: 0,
            progress: Progress::new(plan),
            faults: 0,
        })
    }
}

impl Faulty for MemoryRead {
    ghost faults = { λ r. r.faults };

    fn faults(&self) -> u64 {
        self.faults
    }
}

impl FaultyRead for MemoryRead {
    ghost use Rattle.ss_base.specs.Memory.{bytes_given};

    ghost remaining = { λ r. Some r.remaining };

    fn read_some(&mut self, buf: &mut [u8]) -> io::Result<usize>
        ensures bound { ReadsAtMost result buf.new }
        ensures bytes { ReadConsumes (Some self.old.remaining) (Some self.new.remaining) result buf.new }
        ensures counted { self.new.faults ≡ errors_after result self.old.faults }
        ensures answer { result_ok result ≡ bytes_given self.old (length buf.old) }
        ensures copied { IfOk result (λ n. buf.new ≡ take n self.old.remaining ++ drop n buf.old) }
        ensures passed { self.new.passed ≡ self.old.passed + unwrap_or (result_ok result) 0 }
        ensures progress { self.new.progress ≡ after_call self.old.progress self.old.passed }
    {
        let (_, rest) = self.bytes.split_at(self.at);
        let could = rest.len().min(buf.len());
        match self.progress.next_call(self.at, could) {
            Some(count) => {
                buf[..count].copy_from_slice(&rest[..count]);
                self.at += count;
                Ok(count)
            }
            None => {
                self.faults = self.faults.saturating_add(1);
                Err(io::Error::from(ErrorKind::Other))
            }
        }
    }
}

/// What a call of a writer over memory does that goes wrong.
#[derive(Clone, Copy, Debug, PartialEq, Eq)]
pub enum WriteFailure {
    /// It returns an error.
    Error,
    /// It takes no byte.
    NoByte,
}

/// A writer into memory that goes by a plan. Once its room is full it takes no byte.
#[derive(Debug, Drop)]
pub struct MemoryWrite {
    bytes: Vec<u8>,
    room: usize,
    failure: WriteFailure,
    progress: Progress,
    faults: u64,
    errors: u64,
    idle: u64,
}

impl Model for MemoryWrite {
    ghost use Rattle.std.specs.Prelude.{◌≤◌, length, vec_capacity};
    ghost use Rattle.ss_base.specs.Memory.{Writing};

    ghost Value = { Writing };

    ghost view = { λ w. record { bytes = w.bytes.items; room = w.room; failure = w.failure; progress = w.progress; faults = w.faults; errors = w.errors; idle = w.idle } };

    ghost invariant = { λ w. (length w.bytes.items ≤ w.room) × (w.room ≤ vec_capacity w.bytes) };
}

impl MemoryWrite {
    ghost use Rattle.ss_base.specs.Memory.{writer_of};

    /// A writer with room for so many bytes, and what its calls do that go wrong. It takes all its
    /// memory now, and fails only where that was refused.
    pub fn new(
        alloc: Global,
        room: usize,
        plan: Plan,
        failure: WriteFailure,
    ) -> Result<MemoryWrite, AllocError>
        ensures { IfOk result (λ writer. writer ≡ writer_of room plan failure) }
    {
        Ok(MemoryWrite {
            bytes: Vec::with_capacity(alloc, room)?,
            room,
            failure,
            progress: Progress::new(plan),
            faults: 0,
            errors: 0,
            idle: 0,
        })
    }

    /// The bytes that it took so far.
    pub fn bytes(&self) -> &[u8]
        ensures { result.now ≡ self.now.bytes }
    {
        self.bytes.as_slice()
    }
}

impl Faulty for MemoryWrite {
    ghost faults = { λ w. w.faults };

    fn faults(&self) -> u64 {
        self.faults
    }
}

impl FaultyWrite for MemoryWrite {
    ghost use Rattle.ss_base.specs.Memory.{bytes_taken};

    ghost contents = { λ w. Some w.bytes };

    ghost errors = { λ w. Some w.errors };

    ghost idle = { λ w. Some w.idle };

    fn write_some(&mut self, buf: &[u8]) -> io::Result<usize>
        ensures bound { WritesAtMost result buf.now }
        ensures bytes { WriteAppends (Some self.old.bytes) (Some self.new.bytes) result buf.now }
        ensures counted { self.new.faults ≡ count_after_write result self.old.faults }
        ensures error_count { Some self.new.errors ≡ option_map (errors_after result) (Some self.old.errors) }
        ensures in_a_row { Some self.new.idle ≡ option_map (idle_after result) (Some self.old.idle) }
        ensures answer { result_ok result ≡ bytes_taken self.old (length buf.now) }
        ensures progress { self.new.progress ≡ after_call self.old.progress (length self.old.bytes) }
        ensures room { self.new.room ≡ self.old.room }
        ensures failure { self.new.failure ≡ self.old.failure }
    {
        let held = self.bytes.len();
        let could = buf.len().min(self.room - held);
        let count = match (self.progress.next_call(held, could), self.failure) {
            (Some(count), _) => count,
            (None, WriteFailure::NoByte) => 0,
            (None, WriteFailure::Error) => {
                self.faults = self.faults.saturating_add(1);
                self.errors = self.errors.saturating_add(1);
                self.idle = 0;
                return Err(io::Error::from(ErrorKind::Other));
            }
        };
        if count == 0 {
            self.faults = self.faults.saturating_add(1);
            self.idle = self.idle.saturating_add(1);
        } else {
            self.idle = 0;
        }
        self.bytes.extend_from_slice(&buf[..count]).unwrap();
        Ok(count)
    }
}
