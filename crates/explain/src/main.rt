//! Explains models in a profile of SIMSCRIPT II: why a text is refused, what looks odd in it, why a run stops, and what
//! happens in it, tick by tick.
#![tactic(auto)]

use explain_commands::{Disk, Outputs, perform, without_words, words};
use std::process::ExitCode;

fn main(rt: HostRuntime) -> ExitCode {
    let words = match words(&rt) {
        Ok(words) => words,
        Err(kind) => return ExitCode::from(without_words(&rt, kind)),
    };
    let outputs = Outputs {
        output: rt.stdout(),
        errors: rt.stderr(),
        progress: rt.stderr(),
    };
    ExitCode::from(perform(rt.alloc(), &words, &Disk::new(&rt), &rt, outputs))
}
