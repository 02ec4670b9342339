//! The program over any files and streams.

use crate::checking::check;
use crate::ending::{Ending, report};
use crate::order::Order;
use crate::outputs::Outputs;
use crate::pace::Pace;
use crate::running::run_text;
use explain_runs::Progress;
use simscript_order::{
    Data, FileStore, ProgramFailure, Retrying, explain, open, read_file, report_failure,
};
use std::alloc::Global;
use std::convert::AsStr;
use std::io::{BufReader, BufWriter, Write};
use std::rt::Clock;

/// Does what the words of a command line ask for, the program's name first, and answers the exit status: 0 where all is
/// right, or the help or the version was asked for, 1 for a refused text, 2 for wrong words, 3 for a fault of the
/// run, 4 for a pause, 5 where it ran out of memory, 6 where a file or a stream failed.
///
/// What is explained goes to the output, and so does the report of a run, unless its ticks or values are shown: then it goes to
/// the errors. `progress` gets a line each second that says how far the run is, where that is asked for.
pub fn perform<
    F: FileStore,
    C: Clock + Drop,
    S: AsStr,
    O: Write + Drop,
    E: Write + Drop,
    T: Write + Drop,
>(alloc: Global, words: &[S], files: &F, clock: &C, outputs: Outputs<O, E, T>) -> u8 {
    let Outputs {
        output,
        errors,
        progress,
    } = outputs;
    let order = match Order::of(alloc, words) {
        Ok(order) => order,
        Err(misuse) => return explain(&misuse, output, errors),
    };
    let output = match BufWriter::new(alloc, Retrying::new(output)) {
        Ok(output) => output,
        Err(_) => return report_failure(ProgramFailure::Memory, errors),
    };
    let mut outputs = Outputs {
        output,
        errors,
        progress: Pace::new(alloc, clock, progress, &order),
    };
    let ending = obey(alloc, &order, files, &mut outputs);
    let Outputs {
        output: mut written,
        errors,
        progress: mut pace,
    } = outputs;
    pace.end();
    match written.flush() {
        Ok(()) => report(alloc, ending, errors),
        Err(_) => report_failure(ProgramFailure::Report, errors),
    }
}

// Does what an order says.
fn obey<F: FileStore, O: Write, E: Write, P: Progress>(
    alloc: Global,
    order: &Order<'_>,
    files: &F,
    outputs: &mut Outputs<O, E, P>,
) -> Ending {
    let text = match read_file(alloc, files, order.model) {
        Ok(text) => text,
        Err(failure) => return Ending::Ended(Err(failure)),
    };
    let Some(run) = &order.run else {
        return Ending::Ended(check(alloc, text.as_slice(), &mut outputs.output));
    };
    match data_of(alloc, files, run.input) {
        Ok(input) => run_text(alloc, text.as_slice(), input, run, outputs),
        Err(failure) => Ending::Ended(Err(failure)),
    }
}

// The data in the file of this name, or none.
fn data_of<F: FileStore>(
    alloc: Global,
    files: &F,
    name: Option<&str>,
) -> Result<Data<BufReader<Retrying<F::File>>>, ProgramFailure> {
    let Some(name) = name else {
        return Ok(Data::None);
    };
    let input = open(files, name, ProgramFailure::Input)?;
    match BufReader::new(alloc, Retrying::new(input)) {
        Ok(reader) => Ok(Data::Given(reader)),
        Err(_) => Err(ProgramFailure::Memory),
    }
}
