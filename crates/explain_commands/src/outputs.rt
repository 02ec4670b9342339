//! Where a command writes.

use simscript_order::ProgramFailure;
use std::io::Write;

/// Where a command writes: what is explained or shown, how it ended, and how far a run is.
#[derive(Drop)]
pub struct Outputs<O, E, P> {
    pub output: O,
    pub errors: E,
    pub progress: P,
}

/// Writes these bytes.
pub fn print<O: Write>(output: &mut O, bytes: &[u8]) -> Result<(), ProgramFailure> {
    match output.write_all(bytes) {
        Ok(()) => Ok(()),
        Err(_) => Err(ProgramFailure::Report),
    }
}
