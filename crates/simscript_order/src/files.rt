//! The files that the program reads.

use crate::failure::ProgramFailure;
use std::alloc::Global;
use std::io::{ErrorKind, Read};
use std::rt::Files;
use std::{fs, io};

/// The most bytes of a text that are read: one more than a text may have.
const SOURCE_READ: u64 = 1_048_577;

/// Files by their names.
pub trait FileStore {
    type File: Read + Drop;

    /// Opens the file of this name for reading. An error says that it can't be opened.
    fn open(&self, name: &str) -> io::Result<Self::File>;
}

/// The files of the system.
#[derive(Drop)]
pub struct Disk<'a, R> {
    rt: &'a R,
}

impl<'a, R: Files> Disk<'a, R> {
    /// The files that this runtime reaches.
    pub fn new(rt: &'a R) -> Disk<'a, R> {
        Disk { rt }
    }
}

impl<R: Files> FileStore for Disk<'_, R> {
    type File = R::File;

    fn open(&self, name: &str) -> io::Result<R::File> {
        fs::open(self.rt, name)
    }
}

/// The file of this name, open for reading; where it can't be opened, this failure.
pub fn open<F: FileStore>(
    files: &F,
    name: &str,
    failure: ProgramFailure,
) -> Result<F::File, ProgramFailure> {
    files.open(name).map_err(|_error| failure)
}

/// The text in the file of this name, or as much of it as shows that it is too long.
pub fn read_file<F: FileStore>(
    alloc: Global,
    files: &F,
    name: &str,
) -> Result<Vec<u8>, ProgramFailure> {
    read_source(alloc, open(files, name, ProgramFailure::Source)?)
}

/// The text that this reader gives, or as much of it as shows that it is too long.
pub fn read_source<R: Read + Drop>(alloc: Global, reader: R) -> Result<Vec<u8>, ProgramFailure> {
    let mut text = Vec::new(alloc);
    match reader.take(SOURCE_READ).read_to_end(&mut text) {
        Ok(_) => Ok(text),
        Err(error) => Err(unread(error.kind())),
    }
}

// What stops the program where a text can't be read.
fn unread(kind: ErrorKind) -> ProgramFailure {
    if kind == ErrorKind::OutOfMemory {
        ProgramFailure::Memory
    } else {
        ProgramFailure::Source
    }
}
