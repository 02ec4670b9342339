//! The histories of all statistics.

ghost use Rattle.std.specs.Prelude.{◌≡◌, ◌≤ℤ◌, ◌<◌, [], false, pos, length, slice_get, Ok, Err, IfOk, OnOk, IfSome, MatchResult};
ghost use Rattle.ss_base.specs.declared.value.Value.TheVariants.{Whole};
ghost use Rattle.std.specs.Bool.{IsFalse};
ghost use Rattle.std.specs.List.{All};
ghost use Rattle.std.specs.Option.{option_map};
ghost use Rattle.std.specs.Ordering.{int_eq};
ghost use Rattle.ss_base.specs.declared.layout.Owner.TheVariants.{Class};
ghost use Rattle.ss_program.specs.declared.sections.Statistic.{Statistic};
ghost use Rattle.ss_program.specs.declared.sections.Subject.{Subject as TheSubject};
ghost use Rattle.ss_program.specs.declared.sections.Subject.TheVariants.{OfCount};
ghost use Rattle.ss_picture.specs.Suited.{IsMean};
ghost use Rattle.ss_meaning.specs.Values.{if_ok, sure};
ghost use Rattle.ss_meaning.specs.Histories.{no_histories, starting, ending, all_noting, history_of_subject, folded, renewed};
ghost use Rattle.ss_stats_histories.specs.Records.{columns_of, statistics_of, rows_of, figured, mean_in, HasRooms, is_up_to, why, renewed_where};
ghost use Rattle.ss_stats_histories.specs.Each.{IsKeptUntil};
ghost use Rattle.ss_stats_histories.specs.Places.{is_about, places_where as places_of};

use crate::about::About;
use crate::each;
use crate::kept::Kept;
use crate::unnoted::Unnoted;
use ss_base::{FaultKind, Layout, Owner, Value};
use ss_program::expression::Fold;
use ss_program::sections::{Statistic, Subject};
use std::alloc::{AllocError, Global};
use std::marker::Model;

/// The histories of all statistics of a run, each of the entities that have one, kept as running totals.
///
/// A contract sees the statistics, the histories (`columns_of` gives them as the meaning has them), a moment, `latest`,
/// that no history goes beyond, and how many histories more there is room for. The time that is passed to a call may not
/// lie before `latest`. Memory is taken in `new` and in `reserve`, and given back as histories end; no other call takes
/// any.
#[derive(Drop)]
pub struct Histories {
    kept: Vec<Kept>,
    about: About,
    latest: i64,
}

impl Model for Histories {
    ghost use Rattle.std.specs.Prelude.{◌≡◌, ◌≤ℤ◌, pos, map};
    ghost use Rattle.std.specs.List.{All};
    ghost use Rattle.ss_stats_histories.specs.Records.{Records, statistics_of, rows_of, rooms_of};
    ghost use Rattle.ss_stats_histories.specs.Each.{IsKeptUntil};

    ghost Value = { Records };

    ghost view = { λ h. record { statistics = statistics_of h.kept.items; rows = rows_of h.kept.items; latest = h.latest; room = rooms_of h.kept.items } };

    ghost invariant = { λ h. (h.about ≡ statistics_of h.kept.items) × (pos 0 ≤ℤ h.latest) × All (IsKeptUntil h.latest) h.kept.items };
}

impl Histories {
    /// No history of these statistics started yet. The error comes where memory was refused.
    pub fn new(alloc: Global, statistics: &[Statistic]) -> Result<Histories, AllocError>
        ensures statistics { IfOk result (λ h. h.statistics ≡ statistics.now) }
        ensures none { IfOk result (λ h. columns_of h.rows ≡ no_histories statistics.now) }
        ensures latest { IfOk result (λ h. h.latest ≡ pos 0) }
    {
        let about = About::new(alloc, statistics)?;
        let kept = each::none_started(alloc, statistics)?;
        Ok(Histories {
            kept,
            about,
            latest: 0,
        })
    }

    /// Makes room for so many more histories of each statistic of what the entities of a class have, or of what the
    /// system has. No history changes. The error comes where memory was refused.
    pub fn reserve(&mut self, layout: &Layout, whose: Owner, count: i64) -> Result<(), AllocError>
        ensures statistics { self.new.statistics ≡ self.old.statistics }
        ensures rows { self.new.rows ≡ self.old.rows }
        ensures latest { self.new.latest ≡ self.old.latest }
        ensures room { OnOk result (HasRooms layout.now whose count self.new.statistics self.new.room) }
    {
        each::reserve_each(&mut self.kept, layout, whose, count)
    }

    /// Starts the histories of an entity of a class as it comes into being, or those of the system, which is 0, with the
    /// value 0. `reserve` made room for them.
    #[inline(always)]
    pub fn start(&mut self, layout: &Layout, whose: Owner, entity: i64, now: i64)
        requires now { self.old.latest ≤ℤ now }
        requires room { HasRooms layout.now whose (pos 1) self.old.statistics self.old.room }
        ensures started { columns_of self.new.rows ≡ starting layout.now whose (int_eq entity) now self.old.statistics (columns_of self.old.rows) }
        ensures statistics { self.new.statistics ≡ self.old.statistics }
        ensures latest { self.new.latest ≤ℤ now }
    {
        each::begin_each(&mut self.kept, layout, whose, entity, now);
        self.latest = now;
    }

    /// Starts the histories of the entities 1 to a number of a permanent class as they come into being, with the value 0.
    /// `reserve` made room for them.
    pub fn start_all(&mut self, layout: &Layout, class: usize, count: i64, now: i64)
        requires now { self.old.latest ≤ℤ now }
        requires room { HasRooms layout.now (Class class) count self.old.statistics self.old.room }
        ensures started { columns_of self.new.rows ≡ starting layout.now (Class class) (is_up_to count) now self.old.statistics (columns_of self.old.rows) }
        ensures statistics { self.new.statistics ≡ self.old.statistics }
        ensures latest { self.new.latest ≤ℤ now }
    {
        each::begin_all_each(&mut self.kept, layout, Owner::Class(class), count, now);
        self.latest = now;
    }

    /// Ends the histories of an entity of a class, as it goes.
    #[inline(always)]
    pub fn end(&mut self, layout: &Layout, class: usize, entity: i64)
        ensures ended { columns_of self.new.rows ≡ ending layout.now class entity self.old.statistics (columns_of self.old.rows) }
        ensures statistics { self.new.statistics ≡ self.old.statistics }
        ensures latest { self.new.latest ≡ self.old.latest }
    {
        each::end_each(
            &mut self.kept,
            layout,
            Owner::Class(class),
            entity,
            self.latest,
        );
    }

    /// Whether there are statistics.
    #[inline(always)]
    pub fn has_statistics(&self) -> bool
        ensures { result ≡ false → self.now.statistics ≡ [] }
    {
        each::has_any(&self.kept)
    }

    /// The subject of a statistic, if there is one of that number.
    pub fn subject(&self, statistic: usize) -> Option<Subject>
        ensures { result ≡ option_map (λ (s : Statistic). s.subject) (slice_get self.now.statistics statistic) }
    {
        match self.kept.get(statistic) {
            Some(kept) => Some(kept.statistic().subject),
            None => None,
        }
    }

    /// Notes a value of a subject of an entity, now, in each statistic of it. The error is the first in the order of the
    /// statistics; where there is one, everything is as it was.
    #[inline(always)]
    pub fn note(
        &mut self,
        subject: Subject,
        entity: i64,
        now: i64,
        value: Value,
    ) -> Result<(), Unnoted>
        requires { self.old.latest ≤ℤ now }
        ensures noted { MatchResult result (λ _. all_noting subject entity now value self.old.statistics (columns_of self.old.rows) ≡ Ok (columns_of self.new.rows)) (λ e. (all_noting subject entity now value self.old.statistics (columns_of self.old.rows) ≡ Err (why e)) × (self.new ≡ self.old)) }
        ensures statistics { self.new.statistics ≡ self.old.statistics }
        ensures latest { self.new.latest ≤ℤ now }
    {
        if self.kept.is_empty() {
            return Ok(());
        }
        let places = self.about.places(subject);
        note_at(&mut self.kept, &mut self.latest, places, entity, now, value)
    }

    /// Notes N. of the set of an owner, now, in each statistic of it, as `note` does.
    #[inline(always)]
    pub fn note_count(
        &mut self,
        set: usize,
        owner: i64,
        now: i64,
        number: i64,
    ) -> Result<(), Unnoted>
        requires { self.old.latest ≤ℤ now }
        ensures noted { MatchResult result (λ _. all_noting (OfCount set) owner now (Whole number) self.old.statistics (columns_of self.old.rows) ≡ Ok (columns_of self.new.rows)) (λ e. (all_noting (OfCount set) owner now (Whole number) self.old.statistics (columns_of self.old.rows) ≡ Err (why e)) × (self.new ≡ self.old)) }
        ensures statistics { self.new.statistics ≡ self.old.statistics }
        ensures latest { self.new.latest ≤ℤ now }
    {
        let places = self.about.count_places(set);
        let value = Value::Whole(number);
        note_at(&mut self.kept, &mut self.latest, places, owner, now, value)
    }

    /// What is asked of the history of an entity in a statistic, if it has one. Faults: 14 for a sum of more than 64
    /// bits.
    pub fn figure(
        &self,
        fold: Fold,
        statistic: usize,
        entity: i64,
        now: i64,
    ) -> Option<Result<i64, FaultKind>>
        requires { self.now.latest ≤ℤ now }
        ensures { if_ok (history_of_subject statistic entity (columns_of self.now.rows)) (folded fold now) ≡ figured result }
    {
        match self.kept.get(statistic) {
            Some(kept) => kept.figure(fold, entity, now),
            None => None,
        }
    }

    /// The mean of the history of an entity in a statistic, if it has one: its exact sum and its number, by which it is
    /// divided where it is printed.
    pub fn mean(&self, statistic: usize, entity: i64, now: i64) -> Option<(i128, i64)>
        requires { self.now.latest ≤ℤ now }
        ensures value { mean_in statistic entity now (columns_of self.now.rows) ≡ sure result }
        ensures is_mean { IfSome result (λ mean. IsMean mean.0 mean.1) }
    {
        match self.kept.get(statistic) {
            Some(kept) => kept.mean(entity, now),
            None => None,
        }
    }

    /// Starts the history of an entity in a statistic afresh, now, with the present value of its subject. It answers
    /// whether there is such a history; where there is none, everything is as it was.
    pub fn renew(&mut self, statistic: usize, entity: i64, now: i64, present: i64) -> bool
        requires { self.old.latest ≤ℤ now }
        ensures renewed { renewed statistic entity now present (columns_of self.old.rows) ≡ renewed_where result (columns_of self.new.rows) }
        ensures same { IsFalse result → self.new ≡ self.old }
        ensures statistics { self.new.statistics ≡ self.old.statistics }
        ensures latest { self.new.latest ≤ℤ now }
    {
        if !each::has_at(&self.kept, statistic, entity) {
            return false;
        }
        each::renew_at(&mut self.kept, statistic, entity, now, present);
        self.latest = now;
        true
    }
}

// Notes a value of an entity, now, in the statistics at some places, which are those of a subject. The error is the first
// in the order of the statistics; where there is one, everything is as it was.
#[inline(always)]
fn note_at(
    kept: &mut [Kept],
    latest: &mut i64,
    places: &[usize],
    entity: i64,
    now: i64,
    value: Value,
) -> Result<(), Unnoted>
    requires within { All (λ j. j < length kept.old) places.now }
    requires until { All (IsKeptUntil latest.old) kept.old }
    requires start { pos 0 ≤ℤ latest.old }
    requires now { latest.old ≤ℤ now }
    ensures noted { (s : TheSubject) → places.now ≡ places_of (is_about s) (statistics_of kept.old) → MatchResult result (λ _. all_noting s entity now value (statistics_of kept.old) (columns_of (rows_of kept.old)) ≡ Ok (columns_of (rows_of kept.new))) (λ e. (all_noting s entity now value (statistics_of kept.old) (columns_of (rows_of kept.old)) ≡ Err (why e)) × (kept.new ≡ kept.old) × (latest.new ≡ latest.old)) }
    ensures statistics { (s : TheSubject) → places.now ≡ places_of (is_about s) (statistics_of kept.old) → statistics_of kept.new ≡ statistics_of kept.old }
    ensures until { All (IsKeptUntil latest.new) kept.new }
    ensures start { pos 0 ≤ℤ latest.new }
    ensures latest { latest.new ≤ℤ now }
{
    match each::note_all(kept, places, entity, now, value) {
        Ok(()) => {
            *latest = now;
            Ok(())
        }
        Err(unnoted) => Err(unnoted),
    }
}
