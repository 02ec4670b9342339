//! The totals of one history.

ghost use Rattle.std.specs.Prelude.{◌≡◌, pos, ◌≤ℤ◌, not, true, false};
ghost use Rattle.ss_picture.specs.Suited.{IsMean};
ghost use Rattle.ss_meaning.specs.Histories.{at_start};
ghost use Rattle.ss_stats_histories.specs.Records.{figure_of, noted_value};
ghost use Rattle.ss_stats.specs.History.{is_full, last_moment, mean_of, restarted};

use crate::ghost_history::GhostHistory;
use ss_base::FaultKind;
use ss_program::expression::Fold;
use ss_program::sections::Weighting;
use ss_stats::Totals;
use std::marker::Model;

/// The totals of a history. A contract sees them as that history.
#[derive(Drop)]
pub(crate) struct Watched {
    totals: Totals,
    ghost_history: GhostHistory,
}

impl Model for Watched {
    ghost use Rattle.ss_stats.specs.History.{History};
    ghost use Rattle.ss_stats.specs.Summary.{IsSummaryOf};

    ghost Value = { History };

    ghost view = { λ w. w.ghost_history.history };

    ghost invariant = { λ w. IsSummaryOf w.totals w.ghost_history.history };
}

impl Watched {
    /// A history as it starts, with the value 0.
    pub(crate) fn start(weighting: Weighting, now: i64) -> Watched
        requires { pos 0 ≤ℤ now }
        ensures { result ≡ at_start weighting now }
    {
        let mut ghost_history = GhostHistory::tally();
        match weighting {
            Weighting::Tally => {
                Watched {
                    totals: Totals::tally(),
                    ghost_history,
                }
            }
            Weighting::Accumulate => {
                ghost_history.accumulate(now, 0);
                Watched {
                    totals: Totals::accumulate(now, 0),
                    ghost_history,
                }
            }
        }
    }

    /// Whether it takes no further value.
    pub(crate) fn is_full(&self, now: i64) -> bool
        requires { last_moment self.now ≤ℤ now }
        ensures { result ≡ is_full self.now }
    {
        let mut totals = self.totals;
        totals.note(now, 0).is_err()
    }

    /// Notes a value, unless it is full, and answers whether it did.
    #[inline(always)]
    pub(crate) fn note(&mut self, now: i64, value: i64) -> bool
        requires { last_moment self.old ≤ℤ now }
        ensures noted { self.new ≡ noted_value now value self.old }
        ensures open { result ≡ not (is_full self.old) }
        ensures same { result ≡ false → self.new ≡ self.old }
    {
        if self.totals.note(now, value).is_ok() {
            self.ghost_history.note(now, value);
            true
        } else {
            false
        }
    }

    /// What is asked of it, now. Faults: 14.
    pub(crate) fn figure(&self, fold: Fold, now: i64) -> Result<i64, FaultKind>
        requires { last_moment self.now ≤ℤ now }
        ensures { result ≡ figure_of fold now self.now }
    {
        match fold {
            Fold::Number => Ok(self.totals.number(now)),
            Fold::Sum => self.totals.sum(now),
            Fold::Maximum => Ok(self.totals.maximum()),
            Fold::Minimum => Ok(self.totals.minimum()),
        }
    }

    /// The mean of it, now: its exact sum and its number.
    pub(crate) fn mean(&self, now: i64) -> (i128, i64)
        requires { last_moment self.now ≤ℤ now }
        ensures value { result ≡ mean_of self.now now }
        ensures is_mean { IsMean result.0 result.1 }
    {
        self.totals.mean(now)
    }

    /// It starts afresh, with the present value.
    pub(crate) fn renew(&mut self, now: i64, present: i64)
        requires { last_moment self.old ≤ℤ now }
        ensures { self.new ≡ restarted self.old now present }
    {
        self.totals.reset(now, present);
        self.ghost_history.restart(now, present);
    }
}
