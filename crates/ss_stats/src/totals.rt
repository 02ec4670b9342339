ghost use Rattle.std.specs.Prelude.{◌≡◌, ◌↔◌, ◌^◌, ℤ, pos, neg_ℤ, ◌*ℤ◌, ◌≤ℤ◌, [], OnOk, OnErr, IsTrue};
ghost use Rattle.ss_stats.specs.History.{History, Tally, Accumulate, number_noted, sum_of, exact_sum_of, mean_of, maximum_of, minimum_of, note_outcome, with_noted_value, restarted};
ghost use Rattle.ss_stats.specs.Summary.{IsSummaryOf, times_until};
ghost use Rattle.ss_stats.specs.declared.totals.Weighing.TheVariants.{Once};

use ss_base::FaultKind;
use std::marker::Model;

/// The most values that a tally takes: 2^62 - 1. The next one is an overflow.
pub const TALLY_LIMIT: i64 = (1 << 62) - 1;

/// How the values count in the sum, and what that takes to go on.
#[derive(Clone, Copy, Debug, PartialEq, Eq)]
enum Weighing {
    /// Each value once. `number` is how many there were.
    Once { number: i64 },
    /// Each value times the time for which the variable had it. `start` is when the first one came, and
    /// `value` is the present one, `since` when.
    ByTime { start: i64, since: i64, value: i64 },
}

/// The statistics of a variable as running totals, which keep no list of its values.
///
/// Totals are the summary of a history (`IsSummaryOf` of `specs/Summary.antt`): for a tally the values
/// that were noted since its start or its last reset, and else the starting value and each later one
/// with their moments. Each call's contract holds for every history of which the totals are the summary.
/// No call takes memory.
///
/// Moments are whole units of time. A moment that is passed to a call may not lie before 0 or before
/// the last one at which a value was noted or the totals were reset; it may be that one again.
#[derive(Clone, Copy, Debug, PartialEq, Eq)]
pub struct Totals {
    weighing: Weighing,
    // up to `since` where the values are weighed by time
    sum: i128,
    // 0 while there is no value
    maximum: i64,
    minimum: i64,
}

impl Model for Totals {
    ghost use Rattle.ss_stats.specs.Summary.{Summary, IsInRange, last_given};

    ghost Value = { Summary };

    ghost view = { λ t. record { weighing = t.weighing; last_moment = last_given t.weighing; sum = t.sum; maximum = t.maximum; minimum = t.minimum } };

    ghost invariant = { λ t. IsInRange t.weighing t.sum };

    ghost inverse = { λ s. record { weighing = s.weighing; sum = s.sum; maximum = s.maximum; minimum = s.minimum } };
}

impl Totals {
    /// The totals of a tally that holds no value yet (TALLY). All statistics are 0.
    pub fn tally() -> Self
        ensures { IsSummaryOf result (Tally []) }
    {
        Totals {
            weighing: Weighing::Once { number: 0 },
            sum: 0,
            maximum: 0,
            minimum: 0,
        }
    }

    /// The totals that weigh each value by its time (ACCUMULATE), which start now. The variable has the
    /// starting value from now on, which is one of those among which the extremes are.
    pub fn accumulate(now: i64, value: i64) -> Self
        requires { pos 0 ≤ℤ now }
        ensures { IsSummaryOf result (Accumulate (record { moment = now; value = value }) []) }
    {
        Totals {
            weighing: Weighing::ByTime {
                start: now,
                since: now,
                value,
            },
            sum: 0,
            maximum: value,
            minimum: value,
        }
    }

    /// Notes the value that the variable is given now. It had the value before until now.
    ///
    /// Overflow where a tally holds `TALLY_LIMIT` values already, and there alone; then the totals are
    /// as they were.
    pub fn note(&mut self, now: i64, value: i64) -> Result<(), FaultKind>
        requires { self.old.last_moment ≤ℤ now }
        ensures noted { (h : History) → IsSummaryOf self.old h → OnOk result (IsSummaryOf self.new (with_noted_value h now value)) }
        ensures outcome { (h : History) → IsSummaryOf self.old h → result ≡ note_outcome h }
        ensures unchanged { OnErr result (self.new ≡ self.old) }
        ensures moment { self.new.last_moment ≤ℤ now }
    {
        let until_now = self.exact_sum(now);
        let (maximum, minimum) = self.extremes_with(value);
        let (weighing, sum) = match self.weighing {
            Weighing::Once { number } => {
                if number == TALLY_LIMIT {
                    return Err(FaultKind::Overflow);
                }
                (
                    Weighing::Once { number: number + 1 },
                    until_now + i128::from(value),
                )
            }
            Weighing::ByTime { start, .. } => {
                (
                    Weighing::ByTime {
                        start,
                        since: now,
                        value,
                    },
                    until_now,
                )
            }
        };
        *self = Totals {
            weighing,
            sum,
            maximum,
            minimum,
        };
        Ok(())
    }

    /// Starts the history afresh: a tally holds no value then, and else the history begins now with `value`,
    /// which is the variable's present one.
    pub fn reset(&mut self, now: i64, value: i64)
        requires { self.old.last_moment ≤ℤ now }
        ensures moment { self.new.last_moment ≤ℤ now }
        ensures restarted { (h : History) → IsSummaryOf self.old h → IsSummaryOf self.new (restarted h now value) }
    {
        *self = match self.weighing {
            Weighing::Once { .. } => Totals::tally(),
            Weighing::ByTime { .. } => Totals::accumulate(now, value),
        };
    }

    /// NUMBER: how many values were noted, or how long ago the start was.
    pub fn number(&self, now: i64) -> i64
        requires { self.now.last_moment ≤ℤ now }
        ensures { (h : History) → IsSummaryOf self.now h → result ≡ number_noted h now }
    {
        self.times(now)
    }

    /// SUM: the sum of the values noted, or of each value times the time for which the variable had it until now.
    ///
    /// Overflow exactly where the sum does not fit 64 bits. The totals still keep it exactly, so that a later
    /// answer may be a number again.
    #[tactic(auto, unfolding(ss_base::specs::Arithmetic::in_64_bits))]
    pub fn sum(&self, now: i64) -> Result<i64, FaultKind>
        requires { self.now.last_moment ≤ℤ now }
        ensures { (h : History) → IsSummaryOf self.now h → result ≡ sum_of h now }
    {
        i64::try_from(self.exact_sum(now)).map_err(|_| FaultKind::Overflow)
    }

    /// MEAN, before it is divided: the sum until now, however large it is, and NUMBER.
    ///
    /// No fault comes, not even where SUM would be an overflow. The number is at least 0, and where it is 0
    /// the sum is 0 too; their quotient lies from -2^63 to 2^63.
    pub fn mean(&self, now: i64) -> (i128, i64)
        requires { self.now.last_moment ≤ℤ now }
        ensures value { (h : History) → IsSummaryOf self.now h → result ≡ mean_of h now }
        ensures count { pos 0 ≤ℤ result.1 }
        ensures low { neg_ℤ (pos (2 ^ 63) *ℤ result.1) ≤ℤ result.0 }
        ensures high { result.0 ≤ℤ (pos (2 ^ 63) *ℤ result.1) }
    {
        (self.exact_sum(now), self.times(now))
    }

    /// MAXIMUM: the greatest of the values, the starting value of an accumulation among them, and 0 of
    /// none.
    pub fn maximum(&self) -> i64
        ensures { (h : History) → IsSummaryOf self.now h → result ≡ maximum_of h }
    {
        self.maximum
    }

    /// MINIMUM: the least of the values, the starting value of an accumulation among them, and 0 of
    /// none.
    pub fn minimum(&self) -> i64
        ensures { (h : History) → IsSummaryOf self.now h → result ≡ minimum_of h }
    {
        self.minimum
    }

    /// The sum until now, however large it is.
    fn exact_sum(&self, now: i64) -> i128
        requires { self.now.last_moment ≤ℤ now }
        ensures value { (h : History) → IsSummaryOf self.now h → result ≡ exact_sum_of h now }
        ensures low { neg_ℤ (pos (2 ^ 63) *ℤ times_until self.now.weighing now) ≤ℤ result }
        ensures high { result ≤ℤ (pos (2 ^ 63) *ℤ times_until self.now.weighing now) }
    {
        match self.weighing {
            Weighing::Once { .. } => self.sum,
            Weighing::ByTime { since, value, .. } => self.sum + weighed(value, now - since),
        }
    }

    /// How often a value went into the sum until now: once for each that was noted, or once for each unit of time.
    fn times(&self, now: i64) -> i64
        requires { self.now.last_moment ≤ℤ now }
        ensures value { (h : History) → IsSummaryOf self.now h → result ≡ number_noted h now }
        ensures times { result ≡ times_until self.now.weighing now }
        ensures count { pos 0 ≤ℤ result }
    {
        match self.weighing {
            Weighing::Once { number } => number,
            Weighing::ByTime { start, .. } => now - start,
        }
    }

    /// Whether no value counts for the extremes yet.
    fn is_empty(&self) -> bool
        ensures { IsTrue result ↔ (self.now.weighing ≡ Once (pos 0)) }
    {
        matches!(self.weighing, Weighing::Once { number: 0 })
    }

    /// The greatest and the least value, once this one is noted.
    fn extremes_with(&self, value: i64) -> (i64, i64)
        ensures maximum { (h : History) (now : ℤ) → IsSummaryOf self.now h → result.0 ≡ maximum_of (with_noted_value h now value) }
        ensures minimum { (h : History) (now : ℤ) → IsSummaryOf self.now h → result.1 ≡ minimum_of (with_noted_value h now value) }
    {
        if self.is_empty() {
            (value, value)
        } else {
            (self.maximum.max(value), self.minimum.min(value))
        }
    }
}

/// A value times the time for which the variable had it.
fn weighed(value: i64, time: i64) -> i128
    requires { pos 0 ≤ℤ time }
    ensures product { result ≡ value *ℤ time }
    ensures low { neg_ℤ (pos (2 ^ 63) *ℤ time) ≤ℤ result }
    ensures high { result ≤ℤ (pos (2 ^ 63) *ℤ time) }
{
    i128::from(value) * i128::from(time)
}
