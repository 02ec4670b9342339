//! TIME.V, the notices that are pending, and the histories.

ghost use Rattle.std.specs.Prelude.{◌≡◌, ◌≤ℤ◌, [], map, pos, false, Ok, Err, is_some, MatchResult, IfOk, IfSome, OnOk};
ghost use Rattle.std.specs.Ordering.{int_eq};
ghost use Rattle.ss_base.specs.declared.layout.Owner.TheVariants.{System, Class};
ghost use Rattle.ss_world.specs.PendingList.{none_pending, is_pending, cancelled, least_event};
ghost use Rattle.ss_stats_histories.specs.Records.{HasRooms, is_up_to, renewed_where, figured, mean_in, columns_of};
ghost use Rattle.ss_stats_histories.specs.Histories.{no_histories, starting, ending, history_of_subject, folded, renewed};
ghost use Rattle.ss_stats_histories.specs.Values.{if_ok, sure};
ghost use Rattle.ss_picture.specs.Suited.{IsMean};
ghost use Rattle.ss_program.specs.declared.sections.Subject.TheVariants.{OfCount};
ghost use Rattle.ss_base.specs.declared.value.Value.TheVariants.{Whole};
ghost use Rattle.ss_machine_time.specs.Figures.{subject_in};
ghost use Rattle.ss_machine_time.specs.Times.{IsAt, MaySchedule, HasScheduled, HasTakenNext, IsNoted, columns};

use ss_base::{FaultKind, Layout, Owner, Refused, Value};
use ss_events::{Key, Pending};
use ss_program::expression::Fold;
use ss_program::sections::{Statistic, Subject};
use ss_stats_histories::{Histories, Unnoted};
use ss_world::TieShape;
use std::alloc::{AllocError, Global};
use std::marker::Model;

/// TIME.V, the notices that are pending, and the histories. No notice is pending for a time that is past.
#[derive(Drop)]
pub struct Timeline {
    time: i64,
    pending: Pending,
    histories: Histories,
}

impl Model for Timeline {
    ghost use Rattle.ss_machine_time.specs.Times.{Times, IsTimely};

    ghost Value = { Times };

    ghost view = { λ t. record { time = t.time; pending = t.pending.list; histories = t.histories } };

    ghost invariant = { λ t. IsTimely t.time t.histories.latest t.pending.list.entries };
}

impl Timeline {
    /// At the time 0, with nothing pending, ties of these shapes, and the histories of what the system has. The error
    /// comes where memory was refused.
    pub fn new(
        alloc: Global,
        layout: &Layout,
        shapes: &[Vec<TieShape>],
        statistics: &[Statistic],
    ) -> Result<Timeline, AllocError>
        ensures time { IfOk result (λ t. t.time ≡ pos 0) }
        ensures pending { IfOk result (λ t. t.pending ≡ none_pending (map (λ ties. ties.items) shapes.now)) }
        ensures statistics { IfOk result (λ t. t.histories.statistics ≡ statistics.now) }
        ensures histories { IfOk result (λ t. columns t ≡ starting layout.now System (int_eq (pos 0)) (pos 0) statistics.now (no_histories statistics.now)) }
    {
        let pending = Pending::new(alloc, shapes)?;
        let histories = system_started(alloc, layout, statistics)?;
        Ok(Timeline {
            time: 0,
            pending,
            histories,
        })
    }

    /// TIME.V.
    #[inline(always)]
    pub fn time(&self) -> i64
        ensures { result ≡ self.now.time }
    {
        self.time
    }

    /// Whether any notice is pending.
    #[inline(always)]
    pub fn is_awaited(&mut self) -> bool
        ensures value { result ≡ is_some (least_event self.old.pending) }
        ensures same { self.new ≡ self.old }
    {
        self.pending.least().is_some()
    }

    /// The time and the number of the notice that comes next, if one is pending. Nothing changes.
    pub fn upcoming(&mut self) -> Option<(i64, i64)>
        ensures next { result ≡ least_event self.old.pending }
        ensures same { self.new ≡ self.old }
    {
        self.pending.least()
    }

    /// Takes out the notice that comes next, if one is pending, and answers its number. TIME.V is then its time.
    pub fn next(&mut self) -> Option<i64>
        ensures { HasTakenNext self.old self.new result }
    {
        match self.pending.take() {
            Some((time, notice)) => {
                self.time = time;
                Some(notice)
            }
            None => None,
        }
    }

    /// Whether a notice is pending.
    #[inline(always)]
    pub fn is_scheduled(&self, notice: i64) -> bool
        ensures { result ≡ is_pending notice self.now.pending.entries }
    {
        self.pending.is_scheduled(notice)
    }

    /// Whether `schedule` files a notice for a time where memory is not refused. Faults: 13 where the time is before TIME.V, then
    /// 11, then 14 after the last scheduling.
    pub fn may_schedule(&self, time: i64, notice: i64) -> Result<(), FaultKind>
        ensures { MaySchedule time notice self.now result }
    {
        if time < self.time {
            return Err(FaultKind::PastTime);
        }
        self.pending.may_schedule(notice)
    }

    /// A notice is pending under a key. Faults: 13 where its time is before TIME.V, then 11, then 14 after the last
    /// scheduling.
    #[inline(always)]
    pub fn schedule(&mut self, key: Key, notice: i64) -> Result<(), Refused>
        ensures { HasScheduled key notice self.old self.new result }
    {
        if key.is_before(self.time) {
            return Err(Refused::Fault(FaultKind::PastTime));
        }
        self.pending.schedule(key, notice)
    }

    /// A notice is pending no longer. Faults: 12.
    pub fn cancel(&mut self, notice: i64) -> Result<(), FaultKind>
        ensures { MatchResult result (λ _. (cancelled notice self.old.pending ≡ Ok self.new.pending) × (self.new ≡ record self.old { pending = self.new.pending })) (λ e. (cancelled notice self.old.pending ≡ Err e) × (self.new ≡ self.old)) }
    {
        self.pending.cancel(notice)
    }

    /// Whether there are statistics.
    #[inline(always)]
    pub fn has_statistics(&self) -> bool
        ensures { result ≡ false → self.now.histories.statistics ≡ [] }
    {
        self.histories.has_statistics()
    }

    /// What a statistic is about.
    pub fn subject(&self, statistic: usize) -> Option<Subject>
        ensures { result ≡ subject_in self.now.histories.statistics statistic }
    {
        self.histories.subject(statistic)
    }

    /// Notes a value of a subject in each history of it that an entity has. Faults: 14 where one of them is full.
    #[inline(always)]
    pub fn note(&mut self, subject: Subject, entity: i64, value: Value) -> Result<(), Unnoted>
        ensures { IsNoted subject entity value self.old self.new result }
    {
        if !self.has_statistics() {
            return Ok(());
        }
        self.histories.note(subject, entity, self.time, value)
    }

    /// Notes N. of the set of an owner in each history of it. Faults: 14 where one of them is full.
    #[inline(always)]
    pub fn note_count(&mut self, set: usize, owner: i64, number: i64) -> Result<(), Unnoted>
        ensures { IsNoted (OfCount set) owner (Whole number) self.old self.new result }
    {
        self.histories.note_count(set, owner, self.time, number)
    }

    /// Makes room for so many more histories of each statistic of what the entities of a class have. The error comes
    /// where memory was refused.
    #[inline(always)]
    pub fn reserve(&mut self, layout: &Layout, class: usize, count: i64) -> Result<(), AllocError>
        ensures same { self.new ≡ record self.old { histories = record self.old.histories { room = self.new.histories.room } } }
        ensures room { OnOk result (HasRooms layout.now (Class class) count self.new.histories.statistics self.new.histories.room) }
    {
        if !self.has_statistics() {
            return Ok(());
        }
        self.histories.reserve(layout, Owner::Class(class), count)
    }

    /// Starts the histories of an entity of a class, as it comes into being.
    #[inline(always)]
    pub fn start(&mut self, layout: &Layout, class: usize, entity: i64)
        requires room { HasRooms layout.now (Class class) (pos 1) self.old.histories.statistics self.old.histories.room }
        ensures started { columns self.new ≡ starting layout.now (Class class) (int_eq entity) self.old.time self.old.histories.statistics (columns self.old) }
        ensures same { IsAt self.old self.new }
    {
        if self.has_statistics() {
            self.histories
                .start(layout, Owner::Class(class), entity, self.time);
        }
    }

    /// Starts the histories of the entities 1 to a number of a class.
    pub fn start_all(&mut self, layout: &Layout, class: usize, count: i64)
        requires room { HasRooms layout.now (Class class) count self.old.histories.statistics self.old.histories.room }
        ensures started { columns self.new ≡ starting layout.now (Class class) (is_up_to count) self.old.time self.old.histories.statistics (columns self.old) }
        ensures same { IsAt self.old self.new }
    {
        self.histories.start_all(layout, class, count, self.time);
    }

    /// Ends the histories of an entity of a class, as it goes.
    #[inline(always)]
    pub fn end(&mut self, layout: &Layout, class: usize, entity: i64)
        ensures ended { columns self.new ≡ ending layout.now class entity self.old.histories.statistics (columns self.old) }
        ensures same { IsAt self.old self.new }
    {
        if self.has_statistics() {
            self.histories.end(layout, class, entity);
        }
    }

    /// What is asked of the history of an entity in a statistic, if it has one. Faults: 14.
    pub fn figure(
        &self,
        fold: Fold,
        statistic: usize,
        entity: i64,
    ) -> Option<Result<i64, FaultKind>>
        ensures { if_ok (history_of_subject statistic entity (columns self.now)) (folded fold self.now.time) ≡ figured result }
    {
        self.histories.figure(fold, statistic, entity, self.time)
    }

    /// The mean of the history of an entity in a statistic, if it has one: its exact sum and its number.
    pub fn mean(&self, statistic: usize, entity: i64) -> Option<(i128, i64)>
        ensures value { mean_in statistic entity self.now.time (columns self.now) ≡ sure result }
        ensures is_mean { IfSome result (λ mean. IsMean mean.0 mean.1) }
    {
        self.histories.mean(statistic, entity, self.time)
    }

    /// Starts the history of an entity in a statistic afresh, with the present value, if it has one: whether it has.
    pub fn renew(&mut self, statistic: usize, entity: i64, present: i64) -> bool
        ensures renewed { renewed statistic entity self.old.time present (columns self.old) ≡ renewed_where result (columns self.new) }
        ensures unchanged { (result ≡ false) → self.new ≡ self.old }
        ensures same { IsAt self.old self.new }
    {
        self.histories.renew(statistic, entity, self.time, present)
    }
}

// The histories of what the system has, at the time 0. The error comes where memory was refused.
fn system_started(
    alloc: Global,
    layout: &Layout,
    statistics: &[Statistic],
) -> Result<Histories, AllocError>
    ensures statistics { IfOk result (λ h. h.statistics ≡ statistics.now) }
    ensures columns { IfOk result (λ h. columns_of h.rows ≡ starting layout.now System (int_eq (pos 0)) (pos 0) statistics.now (no_histories statistics.now)) }
    ensures latest { IfOk result (λ h. h.latest ≤ℤ pos 0) }
{
    let mut histories = Histories::new(alloc, statistics)?;
    histories.reserve(layout, Owner::System, 1)?;
    histories.start(layout, Owner::System, 0, 0);
    Ok(histories)
}
