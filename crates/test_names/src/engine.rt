//! The simulator, by the names of ss_engine alone.

use crate::outcomes::ANSWER;
use ss_engine::{
    Alpha, CheckError, Counted, FaultKind, Faulty, FaultyRead, FaultyWrite, LexError, Line,
    MemoryRead, MemoryWrite, Outcome, ParseError, Plan, Refusal, Session, Stop, TableError,
    WriteFailure, compile, simulate,
};
use std::alloc::Global;

// It prints 1, 2 and 3, and uses a tick for each.
static THREE: &[u8] = b"PREAMBLE NORMALLY, MODE IS INTEGER END\n\
MAIN\n\
FOR I = 1 TO 3\n\
PRINT 1 LINE WITH I THUS\n\
*\n\
END";

static TWO_WORDS: &[u8] = b"PREAMBLE NORMALLY, MODE IS INTEGER END\nMAIN\nREAD X\nREAD Y\nEND";

// The outcome of a run, where this is its report. The writer takes so many bytes of it, and fails then.
fn outcome_of(alloc: Global, text: &[u8], room: usize, report: &[u8]) -> Option<Outcome> {
    let plan = Plan::wrong_after_bytes(4096, room);
    let writer = MemoryWrite::new(alloc, 100, plan, WriteFailure::Error).ok()?;
    let data = Counted::new(b"5 12x".as_slice());
    let (outcome, _data, writer) = simulate(alloc, text, data, writer, &[1_000_000]);
    if writer.bytes() == report {
        Some(outcome)
    } else {
        None
    }
}

#[test]
fn a_text_is_run(rt: HostRuntime) {
    let bad_data = Stop::Fault(FaultKind::BadData, Line(4));
    let no_main = Refusal::Used(CheckError::NoMain(Line(0)));
    let rows: [(&[u8], usize, Outcome, &[u8]); 4] = [
        (
            ANSWER,
            100,
            Outcome::Stopped(Stop::Ended, 0),
            b"ANSWER  42\n",
        ),
        (TWO_WORDS, 100, Outcome::Stopped(bad_data, 0), b""),
        (b"", 100, Outcome::Refused(no_main), b""),
        (THREE, 3, Outcome::Stopped(Stop::Output, 2), b"1\n2"),
    ];
    for (text, room, wanted, report) in rows {
        assert_eq!(rt; outcome_of(rt.alloc(), text, room, report), Some(wanted));
    }
}

// Why a text is refused.
fn refusal_of(alloc: Global, text: &[u8]) -> Option<Refusal> {
    match compile(alloc, text) {
        Ok(model) => {
            model.release();
            None
        }
        Err(refusal) => Some(refusal),
    }
}

#[test]
fn a_text_is_refused(rt: HostRuntime) {
    let open = Refusal::Lexed(LexError::OpenText(Line(2)));
    let no_end = Refusal::Parsed(ParseError::Syntax(Line(1)));
    let real = Refusal::Declared(TableError::RealMode(Line(1)));
    assert_eq!(rt;
        refusal_of(rt.alloc(), b"MAIN\nLET X = \"A\nEND"),
        Some(open)
    );
    assert_eq!(rt; refusal_of(rt.alloc(), b"MAIN"), Some(no_end));
    assert_eq!(rt; refusal_of(rt.alloc(), b"MAIN LET X = 1 END"), Some(real));
}

#[test]
fn blanks_at_the_end_of_a_text_count_for_nothing(rt: HostRuntime) {
    assert_eq!(rt; Alpha::of(b"BOX  "), Alpha::of(b"BOX"));
}

// How often a reader or a writer failed.
fn faults<T: Faulty>(stream: &T) -> u64 {
    stream.faults()
}

// What four pieces of a session answer, how many ticks they used, and how often the reader and the writer failed.
fn in_four<R: FaultyRead + Drop, W: FaultyWrite + Drop>(
    mut session: Session<R, W>,
) -> ([Stop; 4], u64, [u64; 2]) {
    let stops = [
        session.run(1),
        session.run(1),
        session.run(1),
        session.run(1),
    ];
    let used = session.used();
    let (data, report) = session.close();
    (stops, used, [faults(&data), faults(&report)])
}

// What they do in a session of three lines.
fn pieces(alloc: Global) -> Option<([Stop; 4], u64, [u64; 2])> {
    let data = MemoryRead::new(alloc, b"", Plan::smooth(1)).ok()?;
    let report = MemoryWrite::new(alloc, 100, Plan::smooth(4096), WriteFailure::Error).ok()?;
    let model = compile(alloc, THREE).ok()?;
    match Session::start(alloc, model, data, report) {
        Ok(session) => Some(in_four(session)),
        Err(_) => None,
    }
}

#[test]
fn a_session_runs_in_pieces(rt: HostRuntime) {
    let stops = [Stop::Paused, Stop::Paused, Stop::Ended, Stop::Ended];
    assert_eq!(rt; pieces(rt.alloc()), Some((stops, 3, [0, 0])));
}
