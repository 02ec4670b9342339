ghost use Rattle.std.specs.Prelude.{◌≡◌, ◌+◌, ◌*◌, ◌<◌, ◌≤◌, IfOk, IfErr, IsOk, OnOk, OnErr, Ok, Err, Some, slice_get, length, map, IsTrue, ◌↔◌};
ghost use Rattle.ss_world.specs.Shape.{shape_of};
ghost use Rattle.ss_world.specs.SortKey.{SortKey};

use crate::sift::{insert, take_out};
use ss_base::{FaultKind, Refused};
use ss_events_entries::entry::{EntryHeap, Key};
use ss_events_entries::key;
use ss_world::{Tie, TieShape};
use std::alloc::{AllocError, Global};
use std::marker::Model;

/// The most schedulings that an event list takes.
pub const MOST_SCHEDULINGS: u64 = 4_611_686_018_427_387_903;

/// The event list: the pending notices, which come out one by one.
///
/// The least comes first: by time; then by the rank of its class; then by the ties of its class in turn, each low
/// or high; then by the order of scheduling. A contract sees the list of the entries in the order of
/// scheduling, how many schedulings there were, the tie shapes of the classes, the comparisons and the moves of
/// the last call that takes `&mut self`, and the work of all calls so far.
#[derive(Drop)]
pub struct Pending {
    heap: EntryHeap,
    schedulings: u64,
    classes: Vec<Vec<TieShape>>,
}

impl Model for Pending {
    ghost use Rattle.std.specs.Prelude.{map};
    ghost use Rattle.ss_events_entries.specs.CountedList.{CountedList, with_work};
    ghost use Rattle.ss_events_entries.specs.HeapEntries.{all_of};
    ghost use Rattle.ss_events.specs.InOrder.{in_order, IsAgenda};

    ghost Value = { CountedList };

    ghost view = { λ p. record { list = record { entries = in_order (all_of p.heap); schedulings = p.schedulings; classes = map (λ shapes. shapes.items) p.classes.items }; comparisons = p.heap.comparisons; moves = p.heap.moves; total = with_work p.heap.before p.heap.comparisons p.heap.moves } };

    ghost invariant = { λ p. IsAgenda p.heap.entries (all_of p.heap) p.schedulings };
}

impl Pending {
    ghost use Rattle.ss_events_entries.specs.CountedList.{no_work, with_work};
    ghost use Rattle.ss_events_entries.specs.Digits.{binary_digits};
    ghost use Rattle.ss_world.specs.PendingList.{none_pending, IsFittingKey, is_pending, scheduled, IsRefusal, cancelled, least_event, after_next};

    /// No notice is pending. `classes` has the shapes of the ties of each class, by its rank.
    pub fn new(alloc: Global, classes: &[Vec<TieShape>]) -> Result<Pending, AllocError>
        ensures { IfOk result (λ pending. pending ≡ record { list = none_pending (map (λ shapes. shapes.items) classes.now); comparisons = 0; moves = 0; total = no_work }) }
    {
        Ok(Pending {
            heap: EntryHeap::new(alloc),
            schedulings: 0,
            classes: copied(alloc, classes)?,
        })
    }

    /// Whether the rank of a key is that of a class, and its ties have the shapes of that class.
    pub fn fits(&self, key: &Key) -> bool
        ensures { IsTrue result ↔ IsFittingKey self.now.list.classes key.now }
    {
        key.fits(&self.classes)
    }

    // Whether a rank is that of a class, and these ties have the shapes of that class.
    pub(crate) fn fits_class(&self, rank: usize, ties: &[Tie]) -> bool
        ensures { IsTrue result ↔ (slice_get self.now.list.classes rank ≡ Some (map shape_of ties.now)) }
    {
        key::fits_class(&self.classes, rank, ties)
    }

    /// Whether `schedule` schedules a notice where memory is not refused, whatever its key. Refused where the notice is pending
    /// (`AlreadyScheduled`), then where there were `MOST_SCHEDULINGS` schedulings (`Overflow`).
    pub fn may_schedule(&self, notice: i64) -> Result<(), FaultKind>
        ensures ok { OnOk result ((key : SortKey) → IsOk (scheduled key notice self.now.list)) }
        ensures refused { IfErr result (λ kind. (key : SortKey) → scheduled key notice self.now.list ≡ Err kind) }
    {
        if self.is_scheduled(notice) {
            return Err(FaultKind::AlreadyScheduled);
        }
        if self.schedulings == MOST_SCHEDULINGS {
            return Err(FaultKind::Overflow);
        }
        Ok(())
    }

    /// Schedules a notice under a key. Refused where the notice is pending (`AlreadyScheduled`), then where there were
    /// `MOST_SCHEDULINGS` schedulings (`Overflow`), then where no memory is left (`Memory`), with the list as it was.
    #[inline(always)]
    pub fn schedule(&mut self, key: Key, notice: i64) -> Result<(), Refused>
        ensures ok { OnOk result (scheduled key notice self.old.list ≡ Ok self.new.list) }
        ensures refused { IfErr result (λ refused. IsRefusal refused (scheduled key notice self.old.list)) }
        ensures unchanged { OnErr result (self.new.list ≡ self.old.list) }

        ensures comparisons { self.new.comparisons ≤ 3 * binary_digits (length self.old.list.entries) }
        ensures moves { self.new.moves ≤ 3 * binary_digits (length self.old.list.entries) + 4 }
        ensures moved { OnOk result (0 < self.new.moves) }
        ensures compared { OnOk result (0 < length self.old.list.entries → 0 < self.new.comparisons) }
        ensures total { self.new.total ≡ with_work self.old.total self.new.comparisons self.new.moves }
    {
        self.heap.reset_counts();
        self.heap.are_after_heads();
        if insert(&mut self.heap, key, self.schedulings, notice) {
            self.schedulings += 1;
            return Ok(());
        }
        Err(self.refusal(notice))
    }

    // Why a notice was not scheduled.
    #[cold]
    #[inline(never)]
    fn refusal(&self, notice: i64) -> Refused
        ensures { (key : SortKey) → IsRefusal result (scheduled key notice self.now.list) }
    {
        match self.may_schedule(notice) {
            Err(kind) => Refused::Fault(kind),
            Ok(()) => Refused::Memory,
        }
    }

    /// Cancels a notice that is pending. Refused with the list as it was where it isn't (`NotScheduled`).
    pub fn cancel(&mut self, notice: i64) -> Result<(), FaultKind>
        ensures ok { OnOk result (cancelled notice self.old.list ≡ Ok self.new.list) }
        ensures refused { IfErr result (λ kind. cancelled notice self.old.list ≡ Err kind) }
        ensures unchanged { OnErr result (self.new.list ≡ self.old.list) }

        ensures comparisons { self.new.comparisons ≤ 3 * binary_digits (length self.old.list.entries) }
        ensures moves { self.new.moves ≤ 3 * binary_digits (length self.old.list.entries) + 4 }
        ensures total { self.new.total ≡ with_work self.old.total self.new.comparisons self.new.moves }
    {
        self.heap.reset_counts();
        if let Some(at) = self.heap.find(notice) {
            let _event = take_out(&mut self.heap, at);
            return Ok(());
        }
        if self.heap.remove_follower(notice) {
            return Ok(());
        }
        Err(FaultKind::NotScheduled)
    }

    /// The time and the notice that come out next, where one is pending. What will be read as that one is taken out is read ahead.
    #[inline(always)]
    pub fn least(&mut self) -> Option<(i64, i64)>
        ensures next { result ≡ least_event self.old.list }
        ensures unchanged { self.new.list ≡ self.old.list }
        ensures comparisons { self.new.comparisons ≡ 0 }
        ensures moves { self.new.moves ≡ 0 }
        ensures total { self.new.total ≡ with_work self.old.total self.new.comparisons self.new.moves }
    {
        self.heap.reset_counts();
        self.heap.are_after_heads();
        if self.heap.len() == 0 {
            return None;
        }
        let event = self.heap.first();
        self.heap.look_ahead();
        Some(event)
    }

    /// Takes out what comes next, where a notice is pending, and answers its time and the notice.
    pub fn take(&mut self) -> Option<(i64, i64)>
        ensures next { result ≡ least_event self.old.list }
        ensures rest { self.new.list ≡ after_next self.old.list }

        ensures comparisons { self.new.comparisons ≤ 3 * binary_digits (length self.old.list.entries) }
        ensures moves { self.new.moves ≤ 3 * binary_digits (length self.old.list.entries) + 4 }
        ensures total { self.new.total ≡ with_work self.old.total self.new.comparisons self.new.moves }
    {
        self.heap.reset_counts();
        self.heap.are_after_heads();
        if self.heap.len() == 0 {
            return None;
        }
        Some(take_out(&mut self.heap, 0))
    }

    /// Whether a notice is pending.
    #[inline(always)]
    pub fn is_scheduled(&self, notice: i64) -> bool
        ensures { result ≡ is_pending notice self.now.list.entries }
    {
        self.heap.are_after_heads();
        if self.heap.len() == 0 {
            return false;
        }
        self.heap.holds(notice)
    }

    /// How often the last call that takes `&mut self` compared two keys.
    pub fn comparisons(&self) -> u64
        ensures { result ≡ self.now.comparisons }
    {
        self.heap.comparisons()
    }

    /// How often the last call that takes `&mut self` wrote an entry into a place.
    pub fn moves(&self) -> u64
        ensures { result ≡ self.now.moves }
    {
        self.heap.moves()
    }
}

// A copy of the shapes of each class.
fn copied(alloc: Global, classes: &[Vec<TieShape>]) -> Result<Vec<Vec<TieShape>>, AllocError>
    ensures { IfOk result (λ copies. map (λ shapes. shapes.items) copies.items ≡ map (λ shapes. shapes.items) classes.now) }
{
    let mut copies = Vec::with_capacity(alloc, classes.len())?;
    for shapes in classes {
        copies.push(Vec::from_slice(alloc, shapes)?)?;
    }
    Ok(copies)
}
