use ss_base::{Faulty, FaultyRead};
use ss_input::Source;
use std::io;
use std::io::ErrorKind;

// What a reader gives at its calls in turn, None for an error; after them comes its end.
type Pieces = &'static [Option<&'static [u8]>];

// It gives pieces, and keeps how often it was asked, and whether for 4,096 bytes each time.
#[derive(Drop)]
struct Asked {
    pieces: Pieces,
    asked: usize,
    for_a_block: bool,
    faults: u64,
}

impl Asked {
    fn new(pieces: Pieces) -> Asked {
        Asked {
            pieces,
            asked: 0,
            for_a_block: true,
            faults: 0,
        }
    }
}

impl Faulty for Asked {
    ghost faults = { λ r. r.faults };

    fn faults(&self) -> u64 {
        self.faults
    }
}

impl FaultyRead for Asked {
    fn read_some(&mut self, buf: &mut [u8]) -> io::Result<usize> {
        let piece = self.pieces.get(self.asked).copied();
        self.asked = self.asked.saturating_add(1);
        self.for_a_block = self.for_a_block && buf.len() == 4096;
        match piece {
            None => Ok(0),
            Some(Some(bytes)) => {
                let count = bytes.len().min(buf.len());
                buf[..count].copy_from_slice(&bytes[..count]);
                Ok(count)
            }
            Some(None) => {
                self.faults = self.faults.saturating_add(1);
                Err(io::Error::from(ErrorKind::Interrupted))
            }
        }
    }
}

// A call of a source.
#[derive(Clone, Copy)]
enum Call {
    Integer,
    Alpha,
    Ended,
}

// Calls of a source, how often they ask its reader in all, and how often that fails.
type Row = (&'static [Call], usize, u64);

// Whether the reader is asked so often by the calls of each row.
fn are_asked(pieces: Pieces, rows: &[Row]) -> bool {
    for (calls, asked, faults) in rows {
        let reader = after(pieces, calls);
        if reader.asked != *asked || reader.faults != *faults || !reader.for_a_block {
            return false;
        }
    }
    true
}

// The reader of these pieces after calls of its source.
fn after(pieces: Pieces, calls: &[Call]) -> Asked {
    let mut source = Source::new(Asked::new(pieces));
    for call in calls {
        make(&mut source, *call);
    }
    source.into_inner()
}

fn make(source: &mut Source<Asked>, call: Call) {
    match call {
        Call::Integer => {
            let _ = source.integer();
        }
        Call::Alpha => {
            let _ = source.alpha();
        }
        Call::Ended => {
            let _ = source.ended();
        }
    }
}

static WORDS: [Option<&[u8]>; 3] = [Some(b"12 "), Some(b"7"), Some(b"8 9\n")];

static CALLS: [Row; 8] = [
    (&[], 0, 0),
    (&[Call::Integer], 1, 0),
    (&[Call::Ended, Call::Ended, Call::Alpha], 1, 0),
    (&[Call::Integer, Call::Ended], 2, 0),
    (&[Call::Integer, Call::Alpha], 3, 0),
    (&[Call::Integer, Call::Integer, Call::Integer], 3, 0),
    (
        &[Call::Alpha, Call::Integer, Call::Alpha, Call::Ended],
        4,
        0,
    ),
    (
        &[
            Call::Alpha,
            Call::Integer,
            Call::Alpha,
            Call::Ended,
            Call::Ended,
            Call::Integer,
            Call::Alpha,
        ],
        4,
        0,
    ),
];

#[test]
fn a_reader_is_asked_only_where_a_byte_is_needed(rt: HostRuntime) {
    assert!(rt; are_asked(&WORDS, &CALLS));
}

static BROKEN: [Option<&[u8]>; 3] = [Some(b"12"), None, Some(b"3 ")];

static FAILING: [Row; 3] = [
    (&[Call::Ended], 1, 0),
    (&[Call::Integer], 2, 1),
    (
        &[Call::Alpha, Call::Integer, Call::Ended, Call::Alpha],
        2,
        1,
    ),
];

#[test]
fn a_reader_that_failed_is_not_asked_again(rt: HostRuntime) {
    assert!(rt; are_asked(&BROKEN, &FAILING));
}
