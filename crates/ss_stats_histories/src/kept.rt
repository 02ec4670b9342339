//! The histories of one statistic.

ghost use Rattle.std.specs.Prelude.{◌≡◌, Some, None, is_some, ◌+◌, ◌<◌, ◌≤◌, pos, ◌≤ℤ◌, OnOk, IfSome};
ghost use Rattle.std.specs.Ordering.{int_eq};
ghost use Rattle.std.specs.Option.{option_map, option_copied};
ghost use Rattle.ss_stats_histories.specs.Each.{refused_in};
ghost use Rattle.ss_picture.specs.Suited.{IsMean};
ghost use Rattle.std.specs.HashMap.{spare};
ghost use Rattle.ss_stats.specs.History.{History, mean_of, last_moment, restarted};
ghost use Rattle.ss_meaning.specs.Histories.{at_start, begun_in, ended_in};
ghost use Rattle.ss_stats_histories.specs.Records.{found_in, column_of, none_yet, IsUntil, figure_of, noted_value, noted_column, renewed_column, is_up_to};

use crate::unnoted::Unnoted;
use crate::watched::Watched;
use ss_base::FaultKind;
use ss_program::expression::Fold;
use ss_program::sections::Statistic;
use std::alloc::{AllocError, Global};
use std::collections::HashMap;
use std::marker::Model;

// The number of the system among entities, of which each other one has a number from 1 on.
const SYSTEM: i64 = 0;

/// A statistic, and its history of each entity that has one.
#[derive(Drop)]
pub(crate) struct Kept {
    statistic: Statistic,
    // That of the system is found without a search.
    system: Option<Watched>,
    others: HashMap<i64, Watched>,
}

impl Model for Kept {
    ghost use Rattle.std.specs.HashMap.{spare};
    ghost use Rattle.ss_stats_histories.specs.Records.{Recorded, by_number};

    ghost Value = { Recorded };

    ghost view = { λ k. record { statistic = k.statistic; rows = record { system = k.system; others = by_number k.others.entries }; room = spare k.others } };
}

impl Kept {
    /// No history.
    pub(crate) fn new(alloc: Global, statistic: Statistic) -> Kept
        ensures statistic { result.statistic ≡ statistic }
        ensures rows { result.rows ≡ none_yet }
    {
        Kept {
            statistic,
            system: None,
            others: HashMap::new(alloc),
        }
    }

    pub(crate) fn statistic(&self) -> Statistic
        ensures { result ≡ self.now.statistic }
    {
        self.statistic
    }

    /// Makes room for so many histories more. The error comes where memory was refused.
    pub(crate) fn reserve(&mut self, count: i64) -> Result<(), AllocError>
        ensures statistic { self.new.statistic ≡ self.old.statistic }
        ensures rows { self.new.rows ≡ self.old.rows }
        ensures room { OnOk result (count ≤ℤ pos self.new.room) }
    {
        match usize::try_from(count) {
            Ok(count) => self.others.reserve(count),
            Err(_) => Ok(()),
        }
    }

    /// Starts the history of an entity.
    #[inline(never)]
    pub(crate) fn begin(&mut self, entity: i64, now: i64)
        requires now { pos 0 ≤ℤ now }
        requires room { 0 < self.old.room }
        ensures statistic { self.new.statistic ≡ self.old.statistic }
        ensures column { column_of self.new.rows ≡ begun_in (int_eq entity) (at_start self.old.statistic.weighting now) (column_of self.old.rows) }
        ensures room { self.old.room ≤ self.new.room + 1 }
    {
        let started = Watched::start(self.statistic.weighting, now);
        if entity == SYSTEM {
            self.system = Some(started);
        } else {
            let _ = self.others.insert(entity, started);
        }
    }

    /// Starts the histories of the entities 1 to a number.
    pub(crate) fn begin_all(&mut self, count: i64, now: i64)
        requires now { pos 0 ≤ℤ now }
        requires room { count ≤ℤ pos self.old.room }
        ensures statistic { self.new.statistic ≡ self.old.statistic }
        ensures column { column_of self.new.rows ≡ begun_in (is_up_to count) (at_start self.old.statistic.weighting now) (column_of self.old.rows) }
    {
        for entity in 0..count {
            self.begin(entity + 1, now);
        }
    }

    /// Gives back what is kept of an entity.
    #[inline(never)]
    pub(crate) fn end(&mut self, entity: i64)
        ensures statistic { self.new.statistic ≡ self.old.statistic }
        ensures column { column_of self.new.rows ≡ ended_in entity (column_of self.old.rows) }
    {
        if entity == SYSTEM {
            self.system = None;
        } else {
            self.others.remove(&entity);
        }
    }

    /// Whether an entity has a history.
    pub(crate) fn has(&self, entity: i64) -> bool
        ensures { result ≡ is_some (column_of self.now.rows entity) }
    {
        self.of(entity).is_some()
    }

    /// Why the history of an entity takes no number.
    pub(crate) fn refused(&self, entity: i64, now: i64) -> Option<Unnoted>
        requires { IsUntil now (column_of self.now.rows) }
        ensures { result ≡ refused_in (column_of self.now.rows entity) }
    {
        match self.of(entity) {
            Some(watched) if watched.is_full(now) => Some(Unnoted::Full),
            Some(_) => None,
            None => Some(Unnoted::TypeError),
        }
    }

    /// Notes a value in the history of an entity, if it has one that isn't full.
    pub(crate) fn note(&mut self, entity: i64, now: i64, value: i64)
        requires { IsUntil now (column_of self.old.rows) }
        ensures statistic { self.new.statistic ≡ self.old.statistic }
        ensures column { column_of self.new.rows ≡ noted_column entity now value (column_of self.old.rows) }
    {
        self.note_or_refuse(entity, now, value);
    }

    // The history of an entity, if it has one.
    #[inline(always)]
    fn of(&self, entity: i64) -> Option<&Watched>
        ensures { option_copied result ≡ column_of self.now.rows entity }
    {
        if entity == SYSTEM {
            self.system.as_ref()
        } else {
            self.others.get(&entity)
        }
    }

    /// Notes a value in the history of an entity, or says why that takes no number; then nothing changes.
    #[inline(always)]
    pub(crate) fn note_or_refuse(&mut self, entity: i64, now: i64, value: i64) -> Option<Unnoted>
        requires { IsUntil now (column_of self.old.rows) }
        ensures refused { result ≡ refused_in (column_of self.old.rows entity) }
        ensures statistic { self.new.statistic ≡ self.old.statistic }
        ensures column { column_of self.new.rows ≡ noted_column entity now value (column_of self.old.rows) }
        ensures same { IfSome result (λ _. self.new ≡ self.old) }
    {
        if entity == SYSTEM {
            note_system(&mut self.system, now, value)
        } else {
            note_found(&mut self.others, entity, now, value)
        }
    }

    /// What is asked of the history of an entity, if it has one. Faults: 14.
    pub(crate) fn figure(&self, fold: Fold, entity: i64, now: i64) -> Option<Result<i64, FaultKind>>
        requires { IsUntil now (column_of self.now.rows) }
        ensures { result ≡ option_map (figure_of fold now) (column_of self.now.rows entity) }
    {
        match self.of(entity) {
            Some(watched) => Some(watched.figure(fold, now)),
            None => None,
        }
    }

    /// The mean of the history of an entity, if it has one: its exact sum and its number.
    pub(crate) fn mean(&self, entity: i64, now: i64) -> Option<(i128, i64)>
        requires { IsUntil now (column_of self.now.rows) }
        ensures value { result ≡ option_map (λ (h : History). mean_of h now) (column_of self.now.rows entity) }
        ensures is_mean { IfSome result (λ mean. IsMean mean.0 mean.1) }
    {
        match self.of(entity) {
            Some(watched) => Some(watched.mean(now)),
            None => None,
        }
    }

    /// Starts the history of an entity afresh, if it has one, with the present value.
    pub(crate) fn renew(&mut self, entity: i64, now: i64, present: i64)
        requires { IsUntil now (column_of self.old.rows) }
        ensures statistic { self.new.statistic ≡ self.old.statistic }
        ensures column { column_of self.new.rows ≡ renewed_column entity now present (column_of self.old.rows) }
    {
        if entity == SYSTEM {
            renew_system(&mut self.system, now, present);
        } else {
            renew_found(&mut self.others, entity, now, present);
        }
    }
}

// Notes a value in the history of the system, or says why that takes no number; then nothing changes.
#[inline(always)]
fn note_system(system: &mut Option<Watched>, now: i64, value: i64) -> Option<Unnoted>
    requires { (h : History) → system.old ≡ Some h → last_moment h ≤ℤ now }
    ensures refused { result ≡ refused_in system.old }
    ensures noted { system.new ≡ option_map (noted_value now value) system.old }
    ensures same { IfSome result (λ _. system.new ≡ system.old) }
{
    match system {
        None => Some(Unnoted::TypeError),
        Some(watched) => {
            if watched.note(now, value) {
                None
            } else {
                Some(Unnoted::Full)
            }
        }
    }
}

// Notes a value in the history of any other entity, or says why that takes no number; then nothing changes.
#[inline(never)]
fn note_found(
    others: &mut HashMap<i64, Watched>,
    entity: i64,
    now: i64,
    value: i64,
) -> Option<Unnoted>
    requires { (h : History) → found_in others.old.entries entity ≡ Some h → last_moment h ≤ℤ now }
    ensures refused { result ≡ refused_in (found_in others.old.entries entity) }
    ensures column { found_in others.new.entries ≡ noted_column entity now value (found_in others.old.entries) }
    ensures spare { spare others.new ≡ spare others.old }
    ensures same { IfSome result (λ _. others.new.entries ≡ others.old.entries) }
{
    match others.get_mut(&entity) {
        None => Some(Unnoted::TypeError),
        Some(watched) => {
            if watched.note(now, value) {
                None
            } else {
                Some(Unnoted::Full)
            }
        }
    }
}

// Starts the history of the system afresh, if it has one, with the present value.
fn renew_system(system: &mut Option<Watched>, now: i64, present: i64)
    requires { (h : History) → system.old ≡ Some h → last_moment h ≤ℤ now }
    ensures { system.new ≡ option_map (λ (h : History). restarted h now present) system.old }
{
    match system {
        None => {}
        Some(watched) => watched.renew(now, present),
    }
}

// Starts the history of any other entity afresh, if it has one, with the present value.
fn renew_found(others: &mut HashMap<i64, Watched>, entity: i64, now: i64, present: i64)
    requires { (h : History) → found_in others.old.entries entity ≡ Some h → last_moment h ≤ℤ now }
    ensures { found_in others.new.entries ≡ renewed_column entity now present (found_in others.old.entries) }
{
    match others.get_mut(&entity) {
        None => {}
        Some(watched) => watched.renew(now, present),
    }
}
