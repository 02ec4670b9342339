//! Judges whole texts that are held as cases in files.
//!
//! The words of the command line name the files. For each case of which something else comes than its
//! file says, and for each mistake in a file, a line is printed, and at last how many cases there are
//! and how much failed. The exit status is 0 where nothing failed, 1 where something did, and 2 where
//! the program could not go on. `README.md` beside this folder says how cases are written.
#![tactic(auto)]

mod engine;

use engine::Engine;
use std::process::ExitCode;
use test_cases::try_files;

fn main(rt: HostRuntime) -> ExitCode {
    match try_files(&rt, &Engine) {
        Ok(score) if score.has_failures() => ExitCode::from(1),
        Ok(_) => ExitCode::from(0),
        Err(error) => {
            let _ = eprintln!(rt; "{error}");
            ExitCode::from(2)
        }
    }
}
