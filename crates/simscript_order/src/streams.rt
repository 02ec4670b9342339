//! The standard streams, and what is written to them but for a report.
ghost use Rattle.std.specs.Prelude.{◌≡◌};
ghost use Rattle.simscript_order.specs.FailureStatuses.{failure_status};

use crate::failure::ProgramFailure;
use crate::misuse::Misuse;
use crate::retrying::Retrying;
use std::io::Write;

/// The standard streams of a process.
pub struct Streams<I, O, E> {
    pub input: I,
    pub output: O,
    pub errors: E,
}

/// Writes these bytes, and flushes. A call that a signal interrupted is made again.
pub fn write_whole<O: Write + Drop>(output: O, bytes: &[u8]) -> Result<(), ProgramFailure> {
    let mut output = Retrying::new(output);
    let written = output.write_all(bytes).and_then(|()| output.flush());
    match written {
        Ok(()) => Ok(()),
        Err(_) => Err(ProgramFailure::Report),
    }
}

/// Reports what stopped the program, and answers the exit status. The line is one write, so that it
/// stays whole where several programs share their errors.
pub fn report_failure<E: Write + Drop>(failure: ProgramFailure, mut errors: E) -> u8
    ensures { result ≡ failure_status failure }
{
    let _ = errors.write_all(failure.line().as_bytes());
    failure.status()
}

/// Gives the help or the version that was asked for, or says what is wrong with the words, and answers the exit status.
pub fn explain<O: Write + Drop, E: Write + Drop>(misuse: &Misuse, output: O, mut errors: E) -> u8 {
    if misuse.status() != 0 {
        let _ = write!(errors, "{misuse}");
        return misuse.status();
    }
    let mut output = Retrying::new(output);
    let written = write!(output, "{misuse}").and_then(|()| output.flush());
    match written {
        Ok(()) => 0,
        Err(_) => report_failure(ProgramFailure::Report, errors),
    }
}
