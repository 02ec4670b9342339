//! How far a run is, said on a terminal each second.

use crate::order::Order;
use explain_runs::Progress;
use explain_texts::Part::{Count, Whole};
use explain_texts::{Made, Page};
use std::alloc::Global;
use std::io::Write;
use std::rt::Clock;
use std::time::Instant;

/// Says once a second how far a run is, on one line that is written anew.
#[derive(Drop)]
pub struct Pace<'a, C, T> {
    alloc: Global,
    clock: &'a C,
    terminal: T,
    ticks: u64,
    /// When it began; None where nothing is to be said.
    start: Option<Instant>,
    seconds: u64,
}

impl<'a, C: Clock, T: Write> Pace<'a, C, T> {
    /// That of a run that begins now, if the order asks for it.
    pub fn new(alloc: Global, clock: &'a C, terminal: T, order: &Order<'_>) -> Pace<'a, C, T> {
        let (ticks, start) = match &order.run {
            Some(run) if run.progress => (run.ticks, Instant::now(clock).ok()),
            _ => (0, None),
        };
        Pace {
            alloc,
            clock,
            terminal,
            ticks,
            start,
            seconds: 0,
        }
    }

    // The whole seconds since it began; 0 where the clock can't be read.
    fn passed(&self) -> u64 {
        let Some(start) = &self.start else {
            return 0;
        };
        match start.elapsed(self.clock) {
            Ok(passed) => passed.as_secs(),
            Err(_) => 0,
        }
    }

    // The line that says how far the run is.
    fn line(&self, used: u64, time: i64, living: u64) -> Made<Page<'static>> {
        let parts = [
            Count(used),
            Whole(time),
            Count(living),
            Count(used.checked_div(self.seconds).unwrap_or(used)),
            Count(self.ticks.saturating_sub(used)),
        ];
        let words = "\r{} ticks, time {}, {} entities alive, {} ticks a second, {} ticks left   ";
        Page::of(self.alloc, words, &parts)
    }

    /// Ends the line, where something was said.
    pub fn end(&mut self) {
        if self.seconds > 0 {
            let _ = self.terminal.write_all(b"\n");
        }
    }
}

impl<C: Clock, T: Write> Progress for Pace<'_, C, T> {
    fn report(&mut self, used: u64, time: i64, living: u64) {
        let passed = self.passed();
        if passed <= self.seconds {
            return;
        }
        self.seconds = passed;
        if let Ok(page) = self.line(used, time, living) {
            let _ = self.terminal.write_all(page.bytes());
        }
    }
}
