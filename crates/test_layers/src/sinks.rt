//! Reports to writers that fail, and then go on.

use crate::counted::Recording;
use ss_base::{Counted, Faulty, FaultyWrite};
use ss_picture::{Sink, SinkError};
use std::io::{self, ErrorKind};

// It takes a byte at each thousandth call, and none at those between.
#[derive(Drop)]
struct Reluctant {
    refused: u32,
    faults: u64,
}

impl Faulty for Reluctant {
    ghost faults = { λ w. w.faults };

    fn faults(&self) -> u64 {
        self.faults
    }
}

impl FaultyWrite for Reluctant {
    fn write_some(&mut self, buf: &[u8]) -> io::Result<usize> {
        if self.refused < 999 || buf.is_empty() {
            self.refused = self.refused.saturating_add(1);
            self.faults = self.faults.saturating_add(1);
            return Ok(0);
        }
        self.refused = 0;
        Ok(1)
    }
}

#[test]
fn only_writes_in_a_row_count(rt: HostRuntime) {
    let mut sink = Sink::new(Reluctant {
        refused: 0,
        faults: 0,
    });
    assert!(rt; sink.write(b"ABC") == Ok(()) && sink.sent() == 3);
    assert!(rt; sink.into_inner().faults() == 2997);
}

#[test]
fn an_interruption_is_a_failure(rt: HostRuntime) {
    let writer = Recording::new([Err(ErrorKind::Interrupted), Ok(1), Ok(1), Ok(1)]);
    let mut sink = Sink::new(Counted::new(writer));
    assert!(rt; sink.write(b"A") == Err(SinkError::Failed) && sink.sent() == 0);
    assert!(rt; sink.write(b"A") == Ok(()) && sink.sent() == 1);
}
