//! A counted stream makes one call of the stream inside. One that retries makes it again where a signal interrupted it.

use simscript_order::Retrying;
use ss_base::{Counted, Faulty, FaultyRead, FaultyWrite};
use std::io::{self, ErrorKind};

// What a stream answers to each call.
type Answer = Result<usize, ErrorKind>;

// It answers four calls so and fails after them, and counts how often it was called and how long the last buffer was.
#[derive(Drop)]
pub struct Recording {
    answers: [Answer; 4],
    calls: usize,
    room: usize,
}

impl Recording {
    pub fn new(answers: [Answer; 4]) -> Recording {
        Recording {
            answers,
            calls: 0,
            room: 0,
        }
    }

    // Whether it was called once, with a buffer of so many bytes.
    fn was_called_once(&self, room: usize) -> bool {
        self.calls == 1 && self.room == room
    }

    // The answer to a call with this buffer.
    fn answer(&mut self, room: usize) -> Answer {
        let answer = self.answers.get(self.calls);
        let answer = answer.copied().unwrap_or(Err(ErrorKind::Other));
        self.calls = self.calls.saturating_add(1);
        self.room = room;
        answer
    }
}

impl io::Read for Recording {
    fn read(&mut self, buf: &mut [u8]) -> io::Result<usize> {
        match self.answer(buf.len()) {
            Ok(count) => Ok(count.min(buf.len())),
            Err(kind) => Err(io::Error::from(kind)),
        }
    }
}

impl io::Write for Recording {
    fn write(&mut self, buf: &[u8]) -> io::Result<usize> {
        match self.answer(buf.len()) {
            Ok(count) => Ok(count.min(buf.len())),
            Err(kind) => Err(io::Error::from(kind)),
        }
    }

    fn flush(&mut self) -> io::Result<()> {
        Ok(())
    }
}

// Whether a stream answered this.
fn is_answer(given: &io::Result<usize>, wanted: Answer) -> bool {
    match (given, wanted) {
        (Ok(count), Ok(other)) => *count == other,
        (Err(error), Err(kind)) => error.kind() == kind,
        _ => false,
    }
}

// What the stream inside answers, and how many failures that is for a read and for a write.
type Row = (Answer, u64, u64);

static ANSWERS: [Row; 6] = [
    (Ok(0), 0, 1),
    (Ok(2), 0, 0),
    (Ok(5), 0, 0),
    (Err(ErrorKind::Interrupted), 1, 1),
    (Err(ErrorKind::WouldBlock), 1, 1),
    (Err(ErrorKind::Other), 1, 1),
];

// Whether each read is one read of the reader inside, with the whole buffer, answers the same, and is counted.
fn are_single_reads(rows: &[Row]) -> bool {
    for (answer, failures, _) in rows {
        let mut reader = Counted::new(Recording::new([*answer; 4]));
        let given = reader.read_some(&mut [0; 5]);
        if !is_answer(&given, *answer)
            || reader.faults() != *failures
            || !reader.into_inner().was_called_once(5)
        {
            return false;
        }
    }
    true
}

// Whether each write is one write of the writer inside, with all bytes, answers the same, and is counted.
fn are_single_writes(rows: &[Row]) -> bool {
    for (answer, _, failures) in rows {
        let mut writer = Counted::new(Recording::new([*answer; 4]));
        let taken = writer.write_some(b"HELLO");
        if !is_answer(&taken, *answer)
            || writer.faults() != *failures
            || !writer.into_inner().was_called_once(5)
        {
            return false;
        }
    }
    true
}

#[test]
fn a_counted_read_is_one_read(rt: HostRuntime) {
    assert!(rt; are_single_reads(&ANSWERS));
}

#[test]
fn a_counted_write_is_one_write(rt: HostRuntime) {
    assert!(rt; are_single_writes(&ANSWERS));
}

// A stream that a signal interrupts twice, and that then passes two bytes.
fn interrupted_twice() -> Counted<Retrying<Recording>> {
    let interrupted = Err(ErrorKind::Interrupted);
    let stream = Recording::new([interrupted, interrupted, Ok(2), Err(ErrorKind::Other)]);
    Counted::new(Retrying::new(stream))
}

// Whether a read that a signal interrupts is made again, and counts as no failure; another error is handed on.
fn reads_again(mut reader: Counted<Retrying<Recording>>) -> bool {
    is_answer(&reader.read_some(&mut [0; 5]), Ok(2))
        && reader.faults() == 0
        && is_answer(&reader.read_some(&mut [0; 5]), Err(ErrorKind::Other))
        && reader.faults() == 1
}

// Whether a write that a signal interrupts is made again, and counts as no failure; another error is handed on.
fn writes_again(mut writer: Counted<Retrying<Recording>>) -> bool {
    is_answer(&writer.write_some(b"HELLO"), Ok(2))
        && writer.faults() == 0
        && is_answer(&writer.write_some(b"HELLO"), Err(ErrorKind::Other))
        && writer.faults() == 1
}

#[test]
fn an_interrupted_call_is_made_again(rt: HostRuntime) {
    assert!(rt; reads_again(interrupted_twice()));
    assert!(rt; writes_again(interrupted_twice()));
}
