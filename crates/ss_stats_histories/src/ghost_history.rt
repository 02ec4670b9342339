// The history of which totals are the summary, for contracts alone.
ghost use Rattle.std.specs.Prelude.{◌≡◌, []};
ghost use base.Fml.{ftrue};
ghost use Rattle.ss_stats.specs.History.{History, Tally, Accumulate, with_noted_value, restarted};

use std::marker::Model;

/// It takes no space.
#[derive(Drop)]
pub(crate) struct GhostHistory {
    ghost history: { History },
}

impl Model for GhostHistory {
    ghost also_owns = { λ _. ftrue };

    ghost also_shares = { λ _ _ _. ftrue };
}

impl GhostHistory {
    /// A history without a value.
    pub(crate) fn tally() -> GhostHistory
        ensures { result.history ≡ Tally [] }
    {
        GhostHistory {}
    }

    // The history becomes this one.
    fn become_history(&mut self, now: i64, value: i64)
        ghost history: { History }
        ensures { self.new.history ≡ history }
    {}

    /// The history becomes that of a variable that has a value from now on, and had none before.
    pub(crate) fn accumulate(&mut self, now: i64, value: i64)
        ensures { self.new.history ≡ Accumulate (record { moment = now; value = value }) [] }
    {
        self.become_history(now, value);
    }

    /// The history gets one value more.
    pub(crate) fn note(&mut self, now: i64, value: i64)
        ensures { self.new.history ≡ with_noted_value self.old.history now value }
    {
        self.become_history(now, value);
    }

    /// The history starts afresh.
    pub(crate) fn restart(&mut self, now: i64, value: i64)
        ensures { self.new.history ≡ restarted self.old.history now value }
    {
        self.become_history(now, value);
    }
}
