//! Command lines that give no order.
ghost use Rattle.std.specs.Prelude.{◌≡◌, if◌then◌else◌};
ghost use Rattle.simscript_order.specs.Statuses.{misuse_status};

use clap::Error;
use std::fmt;

/// Why the words of a command line give no order.
#[derive(Debug, Drop)]
pub enum Misuse {
    /// A word that can't be there, or a call for the help or the version; its text is for the user.
    Words(Error),
    /// A file or a number isn't there, though the words have no fault. `clap` refuses those before.
    Incomplete,
    /// Memory was refused.
    Memory,
}

impl Misuse {
    /// The exit status: 0 for the help and the version, 2 for wrong words, 5 for memory.
    pub fn status(&self) -> u8
        ensures { result ≡ misuse_status self.now }
    {
        match self {
            Misuse::Words(error) => { if error.use_stderr() { 2 } else { 0 } }
            Misuse::Incomplete => 2,
            Misuse::Memory => 5,
        }
    }
}

impl fmt::Display for Misuse {
    fn fmt<W: fmt::Write>(&self, f: &mut fmt::Formatter<W>) -> fmt::Result {
        match self {
            Misuse::Words(error) => error.fmt(f),
            Misuse::Incomplete => f.write_str("error: the command lacks a value\n"),
            Misuse::Memory => f.write_str("out of memory\n"),
        }
    }
}
