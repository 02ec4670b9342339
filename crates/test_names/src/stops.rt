//! Why a machine stops, and how many ticks it has used and how many steps it has made by then.
//!
//! Each instruction that is carried out is a step, also the one that ends the program and the one that faults. A
//! pause is no step, nor is an instruction whose reader or writer failed.

use crate::outcomes::{ANSWER, BELL};
use crate::texts::code_of;
use ss_base::{FaultKind, Line, MemoryRead, MemoryWrite, Plan, WriteFailure};
use ss_machine::{Machine, Source, Stop};
use ss_picture::Sink;
use std::alloc::Global;

// A machine before the first instruction of a text.
fn machine_of(alloc: Global, text: &[u8]) -> Option<Machine> {
    match code_of(alloc, text) {
        Ok(code) => Machine::new(alloc, code).ok(),
        Err(_) => None,
    }
}

// Ticks for a run, why it stops, and how many ticks the machine has used and how many steps it has made by then.
type Piece = (u64, Stop, u64, u128);

// Whether a run stops so. Its data can't be read.
fn stops(
    alloc: Global,
    machine: &mut Machine,
    report: &mut Sink<MemoryWrite>,
    piece: Piece,
) -> bool {
    let Ok(reader) = MemoryRead::new(alloc, b"5", Plan::wrong_from_call(1, 1)) else {
        return false;
    };
    let mut data = Source::new(reader);
    let (ticks, stop, used, steps) = piece;
    let stopped = machine.run(ticks, &mut data, report);
    stopped == stop && machine.used() == used && machine.steps() == steps
}

// Whether runs stop so in turn.
fn all_stop(
    alloc: Global,
    machine: &mut Machine,
    report: &mut Sink<MemoryWrite>,
    pieces: &[Piece],
) -> bool {
    for piece in pieces {
        if !stops(alloc, machine, report, *piece) {
            return false;
        }
    }
    true
}

// Whether a machine that is new has made no step, and its runs stop so.
fn machine_stops(
    alloc: Global,
    mut machine: Machine,
    report: &mut Sink<MemoryWrite>,
    pieces: &[Piece],
) -> bool {
    let before = machine.steps();
    let all_stop = all_stop(alloc, &mut machine, report, pieces);
    machine.release();
    before == 0 && all_stop
}

// Whether the runs of a text do.
fn text_stops(
    alloc: Global,
    text: &[u8],
    report: &mut Sink<MemoryWrite>,
    pieces: &[Piece],
) -> bool {
    match machine_of(alloc, text) {
        Some(machine) => machine_stops(alloc, machine, report, pieces),
        None => false,
    }
}

// Whether they do, where the writer takes so many bytes and then fails, and these are what it takes.
fn stop_so(alloc: Global, text: &[u8], room: usize, pieces: &[Piece], wanted: &[u8]) -> bool {
    let plan = Plan::wrong_after_bytes(100, room);
    match MemoryWrite::new(alloc, 100, plan, WriteFailure::Error) {
        Ok(writer) => {
            let mut report = Sink::new(writer);
            let stop_so = text_stops(alloc, text, &mut report, pieces);
            let writer = report.into_inner();
            stop_so && writer.bytes() == wanted
        }
        Err(_) => false,
    }
}

// A multiply, a print and a leave.
static OF_ANSWER: [Piece; 1] = [(1_000_000, Stop::Ended, 0, 3)];

#[test]
fn steps_of_a_print(rt: HostRuntime) {
    assert!(rt; stop_so(rt.alloc(), ANSWER, 100, &OF_ANSWER, b"ANSWER  42\n"));
}

// By the listing in the manual. 4 steps lead to the first turn, which wants a tick. There I is not greater than 1: a take, a test and
// a next. In the second turn a take, a test and a multiply come before the call, which wants a tick. The call, 3 steps in SHOW and a
// next end the turn, and the third turn has 8 steps too. 5 steps lead from the forget to the await, and 5 from the take of the event
// to its leave. A next event and a leave are the last: 4 + 3 + 8 + 8 + 5 + 5 + 2.
static OF_BELL: [Piece; 5] = [
    (0, Stop::Paused, 0, 4),
    (1, Stop::Paused, 1, 7),
    (1, Stop::Paused, 2, 10),
    (4, Stop::Ended, 6, 35),
    (9, Stop::Ended, 6, 35),
];

#[test]
fn steps_of_a_loop_a_call_and_an_event(rt: HostRuntime) {
    let report = b"COUNT 20\nCOUNT 30\nTIME 5\n";
    assert!(rt; stop_so(rt.alloc(), BELL, 100, &OF_BELL, report));
}

// The writer takes the first line. In the third turn the take, the test, the multiply and the call are steps, and the move in SHOW. The
// print fails.
static TO_OUTPUT: [Piece; 2] = [(9, Stop::Output, 5, 20), (9, Stop::Failed, 5, 20)];

#[test]
fn steps_to_a_writer_that_fails(rt: HostRuntime) {
    assert!(rt; stop_so(rt.alloc(), BELL, 9, &TO_OUTPUT, b"COUNT 20\n"));
}

static BY_ZERO: &[u8] = b"PREAMBLE NORMALLY, MODE IS INTEGER END\n\
MAIN\n\
LET X = 5\n\
LET X = DIV.F(X, 0)\n\
END";

// The move to X, and the quotient that faults.
static TO_FAULT: [Piece; 2] = [
    (1, Stop::Fault(FaultKind::ZeroDivisor, Line(4)), 0, 2),
    (1, Stop::Fault(FaultKind::ZeroDivisor, Line(4)), 0, 2),
];

#[test]
fn steps_to_a_fault(rt: HostRuntime) {
    assert!(rt; stop_so(rt.alloc(), BY_ZERO, 100, &TO_FAULT, b""));
}

static READ: &[u8] = b"PREAMBLE NORMALLY, MODE IS INTEGER END\n\
MAIN\n\
LET X = 5\n\
READ X\n\
END";

// The move to X. The read fails.
static TO_INPUT: [Piece; 2] = [(1, Stop::Input, 0, 1), (1, Stop::Failed, 0, 1)];

#[test]
fn steps_to_a_reader_that_fails(rt: HostRuntime) {
    assert!(rt; stop_so(rt.alloc(), READ, 100, &TO_INPUT, b""));
}
