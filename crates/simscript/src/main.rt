//! A compiler and a simulator for models in a profile of SIMSCRIPT II.
//!
//! `simscript` alone compiles the text on standard input, and runs it with no input data and
//! 1,000,000 ticks; `simscript run`, `check` and `list` take their files by name. The report goes to
//! standard output; how the run ended, where it didn't simply end, is reported on standard error.
#![tactic(auto)]

use simscript_commands::{Disk, Streams, perform, without_words, words};
use std::process::ExitCode;

fn main(rt: HostRuntime) -> ExitCode {
    let words = match words(&rt) {
        Ok(words) => words,
        Err(kind) => return ExitCode::from(without_words(&rt, kind)),
    };
    let streams = Streams {
        input: rt.reader(),
        output: rt.stdout(),
        errors: rt.stderr(),
    };
    ExitCode::from(perform(rt.alloc(), &words, &Disk::new(&rt), streams))
}
