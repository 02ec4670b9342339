//! Runs of a model, with what is shown of them.

use crate::checking::check;
use crate::ending::Ending;
use crate::order::RunOrder;
use crate::outputs::{Outputs, print};
use explain_runs::{
    Guide, Kept, Progress, Shown, Watch, compile_with_names, ending_of, run_shown, watches_of,
};
use explain_texts::Page;
use simscript_order::ProgramFailure;
use ss_base::{Counted, FaultyRead, FaultyWrite};
use ss_engine::{Model, Outcome, Refusal, Session, Stop};
use std::alloc::Global;
use std::io::{ErrorKind, Read, Write};

/// What a run begins with.
#[derive(Drop)]
struct Beginning<R> {
    model: Model,
    input: R,
    watches: Vec<Watch>,
}

/// Runs a text with this input; explains it where it is refused.
pub fn run_text<R: Read + Drop, O: Write, E: Write, P: Progress>(
    alloc: Global,
    text: &[u8],
    input: R,
    run: &RunOrder<'_>,
    outputs: &mut Outputs<O, E, P>,
) -> Ending {
    match compile_with_names(alloc, text) {
        Ok((model, guide)) => {
            let ending = run_model(&guide, run, model, input, outputs);
            drop(guide);
            ending
        }
        Err(Refusal::Memory) => Ending::Ended(Err(ProgramFailure::Memory)),
        Err(_) => Ending::Ended(check(alloc, text, &mut outputs.output)),
    }
}

// Runs a model with this input, if all names can be watched.
fn run_model<R: Read + Drop, O: Write, E: Write, P: Progress>(
    guide: &Guide<'_>,
    run: &RunOrder<'_>,
    model: Model,
    input: R,
    outputs: &mut Outputs<O, E, P>,
) -> Ending {
    match watches_in(guide, run, &mut outputs.errors) {
        Ok(watches) => {
            let beginning = Beginning {
                model,
                input,
                watches,
            };
            Ending::Ended(run_from(guide, run, beginning, outputs))
        }
        Err(ending) => {
            model.release();
            ending
        }
    }
}

// The watches of a run. A name that can't be watched is said.
fn watches_in<E: Write>(
    guide: &Guide<'_>,
    run: &RunOrder<'_>,
    errors: &mut E,
) -> Result<Vec<Watch>, Ending> {
    let Some(names) = run.watch else {
        return Ok(Vec::new(guide.alloc));
    };
    match watches_of(guide, names.as_bytes()) {
        Ok(Ok(watches)) => Ok(watches),
        Ok(Err(name)) => {
            let _ = errors.write_all(b"cannot watch ");
            let _ = errors.write_all(name);
            let _ = errors.write_all(
                b": name a global variable, N. of a set, a statistic, or what an entity has with its number, as N.QUEUE(3)\n",
            );
            Err(Ending::Misnamed)
        }
        Err(_) => Err(Ending::Ended(Err(ProgramFailure::Memory))),
    }
}

// Runs a model. Its report goes to the output, or to the errors where the output has the lines that are shown.
fn run_from<R: Read + Drop, O: Write, E: Write, P: Progress>(
    guide: &Guide<'_>,
    run: &RunOrder<'_>,
    beginning: Beginning<R>,
    outputs: &mut Outputs<O, E, P>,
) -> Result<Outcome, ProgramFailure> {
    if run.has_lines() {
        run_session(
            guide,
            run,
            beginning,
            &mut outputs.errors,
            &mut outputs.output,
            &mut outputs.progress,
        )
    } else {
        run_session(
            guide,
            run,
            beginning,
            &mut outputs.output,
            &mut outputs.errors,
            &mut outputs.progress,
        )
    }
}

// Runs a model with this way out for its report, and adds what is known of its ending to the lines that are shown, or to the report.
fn run_session<R: Read + Drop, W: Write + Drop, L: Write, P: Progress>(
    guide: &Guide<'_>,
    run: &RunOrder<'_>,
    beginning: Beginning<R>,
    report: W,
    lines: &mut L,
    progress: &mut P,
) -> Result<Outcome, ProgramFailure> {
    let Beginning {
        model,
        input,
        mut watches,
    } = beginning;
    let reader = Kept::new(Counted::new(input));
    let mut session = match Session::start(guide.alloc, model, reader, Counted::new(report)) {
        Ok(session) => session,
        Err(_) => return Ok(Outcome::Stopped(Stop::Memory, 0)),
    };
    let shown = show(guide, run, &mut session, &mut watches, lines, progress);
    let used = session.used();
    let (_reader, writer) = session.close();
    let mut report = writer.into_inner();
    let (stop, page) = shown?;
    if run.has_lines() {
        print(lines, page.as_slice())?;
    } else {
        print(&mut report, page.as_slice())?;
    }
    Ok(Outcome::Stopped(stop, used))
}

// Runs a session, and shows what is asked for. It answers why it stopped, and what is known of that, in words.
fn show<R: FaultyRead, W: FaultyWrite, L: Write, P: Progress>(
    guide: &Guide<'_>,
    run: &RunOrder<'_>,
    session: &mut Session<Kept<R>, W>,
    watches: &mut Vec<Watch>,
    lines: &mut L,
    progress: &mut P,
) -> Result<(Stop, Vec<u8>), ProgramFailure> {
    let shown = Shown {
        count: run.ticks,
        ticks: run.trace,
        events: run.events,
    };
    let stop = match run_shown(guide, session, shown, watches, lines, progress) {
        Ok(stop) => stop,
        Err(error) => return Err(unshown(error.kind())),
    };
    match ending_of(guide, session, stop) {
        Ok(page) => {
            let Page { text, .. } = page;
            Ok((stop, text))
        }
        Err(_) => Err(ProgramFailure::Memory),
    }
}

// What stops the program where lines can't be shown.
fn unshown(kind: ErrorKind) -> ProgramFailure {
    if kind == ErrorKind::OutOfMemory {
        ProgramFailure::Memory
    } else {
        ProgramFailure::Report
    }
}
