//! The program over any files and streams.
ghost use Rattle.std.specs.Prelude.{◌≡◌, ◌⊎◌};
ghost use Rattle.ss_engine.specs.Outcomes.{status_of};
ghost use Rattle.simscript_commands.specs.Statuses.{ended_status};

use simscript_order::{
    Data, FileStore, Order, ProgramFailure, Retrying, Streams, explain, open, read_file,
    read_source, report_failure, write_whole,
};
use ss_base::Counted;
use ss_engine::{Outcome, Stop, compile, outcome_line, outcome_status, simulate};
use std::alloc::{AllocError, Global};
use std::convert::AsStr;
use std::io::{BufReader, BufWriter, Read, Write};

/// The ticks of a run whose words name none.
const TICKS: u64 = 1_000_000;

/// Does what the words of a command line ask for, the program's name first, and answers the exit
/// status: 0 where it was done, or the help or the version was asked for, 1 for a refused text, 2 for
/// wrong words, 3 for a fault of the run, 4 for a pause, 5 where it ran out of memory, 6 where a file or
/// a stream failed.
///
/// What is asked for goes to the output, in blocks; one line on the errors says why the status isn't
/// 0.
pub fn perform<F: FileStore, S: AsStr, I: Read + Drop, O: Write + Drop, E: Write + Drop>(
    alloc: Global,
    words: &[S],
    files: &F,
    streams: Streams<I, O, E>,
) -> u8 {
    let Streams {
        input,
        output,
        errors,
    } = streams;
    match Order::of(alloc, words) {
        Ok(order) => report_ending(alloc, obey(alloc, order, files, input, output), errors),
        Err(misuse) => explain(&misuse, output, errors),
    }
}

// Does what an order says.
fn obey<F: FileStore, I: Read + Drop, O: Write + Drop>(
    alloc: Global,
    order: Order<'_>,
    files: &F,
    input: I,
    output: O,
) -> Result<Outcome, ProgramFailure> {
    match order {
        Order::Plain => run_text(
            alloc,
            &read_source(alloc, input)?,
            files,
            None,
            output,
            TICKS,
        ),
        Order::Check(name) => check(alloc, &read_file(alloc, files, name)?, output),
        Order::List(name) => list(alloc, &read_file(alloc, files, name)?, output),
        Order::Run(name, data, ticks) => {
            run_text(
                alloc,
                &read_file(alloc, files, name)?,
                files,
                data,
                output,
                ticks,
            )
        }
    }
}

// Runs a text with the data in the file of this name, or with none.
fn run_text<F: FileStore, O: Write + Drop>(
    alloc: Global,
    text: &[u8],
    files: &F,
    data: Option<&str>,
    output: O,
    ticks: u64,
) -> Result<Outcome, ProgramFailure> {
    let data = data_of(alloc, files, data)?;
    run(alloc, text, data, output, ticks)
}

// The data in the file of this name, or none. The file is asked for a block at a time, and again where a signal interrupted that.
fn data_of<F: FileStore>(
    alloc: Global,
    files: &F,
    name: Option<&str>,
) -> Result<Data<BufReader<Retrying<F::File>>>, ProgramFailure> {
    let Some(name) = name else {
        return Ok(Data::None);
    };
    let input = open(files, name, ProgramFailure::Input)?;
    match BufReader::new(alloc, Retrying::new(input)) {
        Ok(reader) => Ok(Data::Given(reader)),
        Err(_) => Err(ProgramFailure::Memory),
    }
}

// Runs a text with the data of this reader, and writes its report in blocks. A write that a signal interrupted is made again.
fn run<R: Read + Drop, O: Write + Drop>(
    alloc: Global,
    text: &[u8],
    input: R,
    output: O,
    ticks: u64,
) -> Result<Outcome, ProgramFailure> {
    match BufWriter::new(alloc, Retrying::new(output)) {
        Ok(writer) => report(alloc, text, input, writer, ticks),
        Err(_) => Err(ProgramFailure::Memory),
    }
}

// Runs a text with the data of this reader, and writes its report to this writer, which is flushed
// at the end.
fn report<R: Read + Drop, W: Write + Drop>(
    alloc: Global,
    text: &[u8],
    input: R,
    output: W,
    ticks: u64,
) -> Result<Outcome, ProgramFailure> {
    let (reader, writer) = (Counted::new(input), Counted::new(output));
    let (outcome, _reader, writer) = simulate(alloc, text, reader, writer, &[ticks]);
    match writer.into_inner().flush() {
        Ok(()) => Ok(outcome),
        Err(_) => Err(ProgramFailure::Report),
    }
}

// Compiles a text, and prints that it is accepted.
fn check<O: Write + Drop>(
    alloc: Global,
    text: &[u8],
    output: O,
) -> Result<Outcome, ProgramFailure> {
    match compile(alloc, text) {
        Ok(model) => {
            model.release();
            print(output, b"accepted\n")
        }
        Err(refusal) => Ok(Outcome::Refused(refusal)),
    }
}

// Compiles a text, and prints its code.
fn list<O: Write + Drop>(alloc: Global, text: &[u8], output: O) -> Result<Outcome, ProgramFailure> {
    match compile(alloc, text) {
        Ok(model) => {
            let listing = model.listing(alloc);
            model.release();
            print_listing(listing, output)
        }
        Err(refusal) => Ok(Outcome::Refused(refusal)),
    }
}

// Prints a listing, where there was memory for it.
fn print_listing<O: Write + Drop>(
    listing: Result<Vec<u8>, AllocError>,
    output: O,
) -> Result<Outcome, ProgramFailure> {
    match listing {
        Ok(lines) => print(output, &lines),
        Err(_) => Err(ProgramFailure::Memory),
    }
}

// Prints these bytes, with which all is done.
fn print<O: Write + Drop>(output: O, bytes: &[u8]) -> Result<Outcome, ProgramFailure> {
    match write_whole(output, bytes) {
        Ok(()) => Ok(Outcome::Stopped(Stop::Ended, 0)),
        Err(failure) => Err(failure),
    }
}

/// Reports how an order ended, and answers the exit status: that of the outcome or of what stopped the
/// program, or that of memory where its line could not be made.
pub fn report_ending<E: Write + Drop>(
    alloc: Global,
    ended: Result<Outcome, ProgramFailure>,
    errors: E,
) -> u8
    ensures { (result ≡ ended_status ended) ⊎ (result ≡ 5) }
{
    match ended {
        Ok(outcome) => report_outcome(alloc, &outcome, errors),
        Err(failure) => report_failure(failure, errors),
    }
}

// Reports an outcome by its line. A line that can't be written is lost, and the status stays.
fn report_outcome<E: Write + Drop>(alloc: Global, outcome: &Outcome, mut errors: E) -> u8
    ensures { (result ≡ status_of outcome.now) ⊎ (result ≡ 5) }
{
    match outcome_line(alloc, outcome) {
        Ok(line) => {
            let _ = errors.write_all(&line);
            outcome_status(outcome)
        }
        Err(_) => report_failure(ProgramFailure::Memory, errors),
    }
}
