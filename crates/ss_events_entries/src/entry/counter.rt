// How often keys were compared and entries moved.
ghost use Rattle.std.specs.Prelude.{◌≡◌, ◌+◌, ◌<◌, ◌^◌};
ghost use Rattle.ss_events_entries.specs.CountedList.{no_work, with_work};

use std::marker::Model;

// How many comparisons and moves were made.
#[derive(Clone, Copy)]
struct WorkDone {
    comparisons: u64,
    moves: u64,
}

/// How many comparisons and moves all calls made, and how many of them before the last call began.
///
/// No function sets the total: its numbers only rise, and each is 0 again after 2^64 - 1. A contract sees how far they have risen in the
/// call, and what they were before it.
#[derive(Drop)]
pub struct WorkCounter {
    total: WorkDone,
    before: WorkDone,
}

impl Model for WorkCounter {
    ghost use Rattle.ss_events_entries.specs.CallWork.{CallWork, AreCounters, rise};

    ghost Value = { CallWork };

    ghost view = { λ w. record { comparisons = rise w.before.comparisons w.total.comparisons; moves = rise w.before.moves w.total.moves; before = record { comparisons = w.before.comparisons; moves = w.before.moves } } };

    ghost invariant = { λ w. AreCounters w.total.comparisons w.total.moves w.before.comparisons w.before.moves };
}

impl WorkCounter {
    pub(crate) fn new() -> WorkCounter
        ensures { result ≡ record { comparisons = 0; moves = 0; before = no_work } }
    {
        let none = WorkDone {
            comparisons: 0,
            moves: 0,
        };
        WorkCounter {
            total: none,
            before: none,
        }
    }

    /// Begins a call, in which nothing is counted yet. The total stays as it is.
    #[inline(always)]
    pub(crate) fn begin_call(&mut self)
        ensures { self.new ≡ record { comparisons = 0; moves = 0; before = with_work self.old.before self.old.comparisons self.old.moves } }
    {
        self.before = self.total;
    }

    /// The comparisons of the call.
    pub(crate) fn comparisons(&self) -> u64
        ensures { result ≡ self.now.comparisons }
    {
        self.total.comparisons.wrapping_sub(self.before.comparisons)
    }

    /// The moves of the call.
    pub(crate) fn moves(&self) -> u64
        ensures { result ≡ self.now.moves }
    {
        self.total.moves.wrapping_sub(self.before.moves)
    }

    /// Counts so many comparisons.
    #[inline(always)]
    pub(crate) fn count_comparisons(&mut self, many: u64)
        requires { self.old.comparisons + many < 2 ^ 64 }
        ensures { self.new ≡ record self.old { comparisons = self.old.comparisons + many } }
    {
        self.total.comparisons = self.total.comparisons.wrapping_add(many);
    }

    /// Counts so many moves.
    #[inline(always)]
    pub(crate) fn count_moves(&mut self, many: u64)
        requires { self.old.moves + many < 2 ^ 64 }
        ensures { self.new ≡ record self.old { moves = self.old.moves + many } }
    {
        self.total.moves = self.total.moves.wrapping_add(many);
    }
}
