//! The entities of a run, and how many of each permanent class are made.

ghost use Rattle.std.specs.Prelude.{◌≡◌, ℕ, ◌<◌, length, pos, IfOk, MatchResult, None, Some, Ok, Err, replicate, slice_get, slice_set};
ghost use Rattle.std.specs.Result.{result_ok};
ghost use Rattle.ss_base.specs.Arithmetic.{plus_of, minus_of};
ghost use Rattle.ss_meaning.specs.Fitting.{living};
ghost use Rattle.ss_records.specs.Kept.{IsPermanent};
ghost use Rattle.ss_records.specs.State.{first_state, is_made, living_records, records_in, known_in, value_in, time_in, assigned, timed, created, created_all, destroyed, kind_of, modes_of, no_value, IsRefusalOf};
ghost use Rattle.ss_records.specs.Sets.{joiner, owner, first_in, last_in, count_in, next_in, previous_in, owner_of_member, AreMembersApart};
ghost use Rattle.ss_records.specs.Attributes.{changed_number, IsAssigned, IsChanged};
ghost use Rattle.ss_machine_entities.specs.Counts.{IsMemberCount};

mod filing;

use ss_base::{Alpha, FaultKind, Layout, Mode, Refused, Value};
use ss_records::Heap;
use std::alloc::{AllocError, Global};
use std::marker::Model;

/// The entities of a run. A contract sees them as a state of a heap.
#[derive(Drop)]
pub struct Population {
    heap: Heap,
    made: Vec<Option<i64>>,
}

impl Model for Population {
    ghost use Rattle.std.specs.Prelude.{◌≡◌};
    ghost use Rattle.ss_records.specs.State.{State};
    ghost use Rattle.ss_machine_entities.specs.Counts.{counts_of};

    ghost Value = { State };

    ghost view = { λ p. p.heap.state };

    ghost invariant = { λ p. p.made.items ≡ counts_of p.heap.state.permanents };
}

impl Population {
    /// No entity. The error comes where memory was refused.
    pub fn new(alloc: Global, layout: Layout) -> Result<Population, AllocError>
        ensures { IfOk result (λ p. p ≡ first_state layout) }
    {
        let made = none_made(alloc, class_count(&layout))?;
        let heap = Heap::new(alloc, layout)?;
        Ok(Population { heap, made })
    }

    #[inline(always)]
    pub fn layout(&self) -> &Layout
        ensures { result.now ≡ self.now.layout }
    {
        self.heap.layout()
    }

    /// How many entities are living, permanent ones among them.
    pub fn living_count(&self) -> u64
        ensures { result ≡ living_records self.now }
    {
        self.heap.blocks() - 1
    }

    /// Remembers an entity by its creation number, so that it is found sooner. Nothing else changes.
    #[inline(always)]
    pub fn meet(&mut self, n: i64)
        ensures { self.new ≡ self.old }
    {
        self.heap.meet(n);
    }

    /// Whether a number is an entity of a class. Faults: 1 to 5.
    #[inline(always)]
    pub fn known(&self, class: usize, n: i64) -> Result<(), FaultKind>
        requires class { class < length self.now.layout.classes }
        ensures { result ≡ known_in self.now class n }
    {
        self.heap.known(class, n)
    }

    /// The class of a temporary entity or a notice by its number: none where no entity of that number is living.
    #[inline(always)]
    pub fn class_of(&self, n: i64) -> Option<usize>
        ensures { result ≡ living self.now n }
    {
        self.heap.class_of(n)
    }

    /// The mode of an attribute.
    #[inline(always)]
    pub fn mode(&self, class: usize, field: usize) -> Mode
        requires class { class < length self.now.layout.classes }
        requires field { field < length (modes_of self.now.layout class) }
        ensures { slice_get (modes_of self.now.layout class) field ≡ Some result }
    {
        let class = &self.heap.layout().classes[class];
        class.fields[field]
    }

    /// The value of an attribute. Faults: 1 to 5.
    #[inline(always)]
    pub fn value(&self, class: usize, field: usize, n: i64) -> Result<Value, FaultKind>
        requires class { class < length self.now.layout.classes }
        requires field { field < length (modes_of self.now.layout class) }
        ensures { result ≡ value_in self.now class field n }
    {
        self.heap.value(class, field, n)
    }

    /// The whole number that an attribute is. Faults: 1 to 5.
    #[inline(always)]
    pub fn whole(&self, class: usize, field: usize, n: i64) -> Result<i64, FaultKind>
        requires class { class < length self.now.layout.classes }
        requires mode { slice_get (modes_of self.now.layout class) field ≡ Some Mode.Integer }
        ensures { MatchResult result (λ whole. value_in self.now class field n ≡ Ok (Value.Whole whole)) (λ e. value_in self.now class field n ≡ Err e) }
    {
        self.heap.whole(class, field, n)
    }

    /// The text that an attribute is. Faults: 1 to 5.
    #[inline(always)]
    pub fn text(&self, class: usize, field: usize, n: i64) -> Result<Alpha, FaultKind>
        requires class { class < length self.now.layout.classes }
        requires mode { slice_get (modes_of self.now.layout class) field ≡ Some Mode.Alpha }
        ensures { MatchResult result (λ text. value_in self.now class field n ≡ Ok (Value.Text text)) (λ e. value_in self.now class field n ≡ Err e) }
    {
        self.heap.text(class, field, n)
    }

    /// Assigns a text to an attribute. Faults: 1 to 5.
    #[inline(always)]
    pub fn set_text(
        &mut self,
        class: usize,
        field: usize,
        n: i64,
        text: Alpha,
    ) -> Result<(), FaultKind>
        requires class { class < length self.old.layout.classes }
        requires mode { slice_get (modes_of self.old.layout class) field ≡ Some Mode.Alpha }
        ensures done { MatchResult result (λ _. assigned self.old class field n (Value.Text text) ≡ Ok self.new) (λ e. (assigned self.old class field n (Value.Text text) ≡ Err e) × (self.new ≡ self.old)) }
        ensures layout { self.new.layout ≡ self.old.layout }
    {
        self.heap.set_text(class, field, n, text)
    }

    /// Assigns a whole number to an attribute. Faults: 1 to 5.
    #[inline(always)]
    pub fn set_whole(
        &mut self,
        class: usize,
        field: usize,
        n: i64,
        value: i64,
    ) -> Result<(), FaultKind>
        requires class { class < length self.old.layout.classes }
        requires mode { slice_get (modes_of self.old.layout class) field ≡ Some Mode.Integer }
        ensures done { MatchResult result (λ _. IsAssigned self.old class field n value self.new) (λ e. (assigned self.old class field n (Value.Whole value) ≡ Err e) × (self.new ≡ self.old)) }
        ensures layout { self.new.layout ≡ self.old.layout }
    {
        self.heap.set_whole(class, field, n, value)
    }

    /// Adds a number to an attribute of whole numbers. Faults: 1 to 5, then 14 where the sum does not fit 64 bits.
    #[inline(always)]
    pub fn add_whole(
        &mut self,
        class: usize,
        field: usize,
        n: i64,
        by: i64,
    ) -> Result<(), FaultKind>
        requires class { class < length self.old.layout.classes }
        requires mode { slice_get (modes_of self.old.layout class) field ≡ Some Mode.Integer }
        ensures done { MatchResult result (λ _. IsChanged (λ z. plus_of z by) self.old class field n self.new) (λ e. (changed_number (λ z. plus_of z by) (value_in self.old class field n) ≡ Err e) × (self.new ≡ self.old)) }
        ensures layout { self.new.layout ≡ self.old.layout }
    {
        self.heap.add_whole(class, field, n, by)
    }

    /// Subtracts a number from an attribute of whole numbers. Faults: 1 to 5, then 14 where the difference does not fit 64 bits.
    #[inline(always)]
    pub fn subtract_whole(
        &mut self,
        class: usize,
        field: usize,
        n: i64,
        by: i64,
    ) -> Result<(), FaultKind>
        requires class { class < length self.old.layout.classes }
        requires mode { slice_get (modes_of self.old.layout class) field ≡ Some Mode.Integer }
        ensures done { MatchResult result (λ _. IsChanged (λ z. minus_of z by) self.old class field n self.new) (λ e. (changed_number (λ z. minus_of z by) (value_in self.old class field n) ≡ Err e) × (self.new ≡ self.old)) }
        ensures layout { self.new.layout ≡ self.old.layout }
    {
        self.heap.subtract_whole(class, field, n, by)
    }

    /// TIME.A of a notice. Faults: 1 to 4.
    #[inline(always)]
    pub fn time_a(&self, n: i64) -> Result<i64, FaultKind>
        ensures { result ≡ time_in self.now n }
    {
        self.heap.time_a(n)
    }

    /// Sets TIME.A of a notice. Faults: 1 to 4.
    #[inline(always)]
    pub fn set_time_a(&mut self, n: i64, t: i64) -> Result<(), FaultKind>
        ensures done { MatchResult result (λ _. timed self.old n t ≡ Ok self.new) (λ e. (timed self.old n t ≡ Err e) × (self.new ≡ self.old)) }
        ensures layout { self.new.layout ≡ self.old.layout }
    {
        self.heap.set_time_a(n, t)
    }

    /// Whether `create` makes an entity where memory is not refused. Faults: 14 after the last number.
    pub fn may_create(&self) -> Result<(), FaultKind>
        ensures { (class : ℕ) → result ≡ no_value (created self.now class) }
    {
        self.heap.may_create()
    }

    /// A new entity of a class whose entities come and go. Faults: 14 after the last number. It is out of memory only where that is not
    /// due.
    #[inline(always)]
    pub fn create(&mut self, class: usize) -> Result<i64, Refused>
        requires class { class < length self.old.layout.classes }
        requires kind { IsPermanent (kind_of self.old.layout class) → ⊥ }
        ensures done { MatchResult result (λ n. created self.old class ≡ Ok (n, self.new)) (λ e. (self.new ≡ self.old) × IsRefusalOf (created self.old class) e) }
        ensures layout { self.new.layout ≡ self.old.layout }
    {
        self.heap.create(class)
    }

    /// Whether `create_all` makes so many entities of a permanent class where memory is not refused. Faults: 18 where they are
    /// made, then 22 for a bad count.
    pub fn may_create_all(&self, class: usize, count: i64) -> Result<(), FaultKind>
        ensures { result ≡ no_value (created_all self.now class count) }
    {
        self.heap.may_create_all(class, count)
    }

    /// All entities of a permanent class. Faults: 18 where they are made, then 22 for a bad count. It is out of memory only where neither
    /// is due.
    pub fn create_all(&mut self, class: usize, count: i64) -> Result<(), Refused>
        requires class { class < length self.old.layout.classes }
        requires kind { IsPermanent (kind_of self.old.layout class) }
        ensures done { MatchResult result (λ _. created_all self.old class count ≡ Ok self.new) (λ e. (self.new ≡ self.old) × IsRefusalOf (created_all self.old class count) e) }
        ensures layout { self.new.layout ≡ self.old.layout }
    {
        match self.heap.create_all(class, count) {
            Err(refused) => Err(refused),
            Ok(()) => {
                note(&mut self.made, class, count);
                Ok(())
            }
        }
    }

    /// Whether `destroy` lets an entity go. Faults: those of `destroy`.
    pub fn may_destroy(&mut self, class: usize, n: i64) -> Result<(), FaultKind>
        requires class { class < length self.old.layout.classes }
        requires kind { IsPermanent (kind_of self.old.layout class) → ⊥ }
        ensures value { result ≡ no_value (destroyed self.old class n) }
        ensures same { self.new ≡ self.old }
    {
        self.heap.may_destroy(class, n)
    }

    /// An entity goes. Faults: 1 to 4, then 9 and 10.
    #[inline(always)]
    pub fn destroy(&mut self, class: usize, n: i64) -> Result<(), FaultKind>
        requires class { class < length self.old.layout.classes }
        requires kind { IsPermanent (kind_of self.old.layout class) → ⊥ }
        ensures done { MatchResult result (λ _. destroyed self.old class n ≡ Ok self.new) (λ e. (destroyed self.old class n ≡ Err e) × (self.new ≡ self.old)) }
        ensures layout { self.new.layout ≡ self.old.layout }
    {
        self.heap.destroy(class, n)
    }

    /// The first member of a set, 0 for none. Faults: 1 to 5.
    #[inline(always)]
    pub fn first(&mut self, set: usize, o: i64) -> Result<i64, FaultKind>
        requires set { set < length self.old.layout.sets }
        ensures value { result ≡ first_in self.old set o }
        ensures same { self.new ≡ self.old }
    {
        self.heap.first(set, o)
    }

    /// The last member of a set, 0 for none. Faults: 1 to 5.
    #[inline(always)]
    pub fn last(&mut self, set: usize, o: i64) -> Result<i64, FaultKind>
        requires set { set < length self.old.layout.sets }
        ensures value { result ≡ last_in self.old set o }
        ensures same { self.new ≡ self.old }
    {
        self.heap.last(set, o)
    }

    /// How many members a set has. Faults: 1 to 5.
    #[inline(always)]
    pub fn member_count(&mut self, set: usize, o: i64) -> Result<i64, FaultKind>
        requires set { set < length self.old.layout.sets }
        ensures value { result ≡ count_in self.old set o }
        ensures same { self.new ≡ self.old }
    {
        self.heap.count(set, o)
    }

    /// How many members a set has, where there is such a set and such an owner. Nothing changes.
    pub fn find_count(&mut self, set: usize, o: i64) -> Option<i64>
        ensures count { IsMemberCount self.old set o result }
        ensures same { self.new ≡ self.old }
    {
        let sets = set_count(self.layout());
        if set >= sets {
            return None;
        }
        number_if_ok(self.member_count(set, o))
    }

    /// Whether a number may be a member of a set. Faults: 1 to 5.
    #[inline(always)]
    pub fn look_member(&self, set: usize, n: i64) -> Result<(), FaultKind>
        requires set { set < length self.now.layout.sets }
        ensures { result ≡ no_value (joiner self.now set n) }
    {
        self.heap.look_member(set, n)
    }

    /// Whether a number is an owner of a set. Faults: 1 to 5.
    #[inline(always)]
    pub fn look_owner(&self, set: usize, o: i64) -> Result<(), FaultKind>
        requires set { set < length self.now.layout.sets }
        ensures { result ≡ no_value (owner self.now set o) }
    {
        self.heap.look_owner(set, o)
    }

    /// The member after another one, 0 for none. Faults: 1 to 5.
    #[inline(always)]
    pub fn next(&mut self, set: usize, n: i64) -> Result<i64, FaultKind>
        requires set { set < length self.old.layout.sets }
        ensures value { result ≡ next_in self.old set n }
        ensures same { self.new ≡ self.old }
    {
        self.heap.next(set, n)
    }

    /// The member before another one, 0 for none. Faults: 1 to 5.
    #[inline(always)]
    pub fn previous(&mut self, set: usize, n: i64) -> Result<i64, FaultKind>
        requires set { set < length self.old.layout.sets }
        ensures value { result ≡ previous_in self.old set n }
        ensures same { self.new ≡ self.old }
    {
        self.heap.previous(set, n)
    }

    /// The owner in whose set an entity is, if it is in any. Faults: 1 to 5.
    #[inline(always)]
    pub fn owner_in(&mut self, set: usize, n: i64) -> Result<Option<i64>, FaultKind>
        requires set { set < length self.old.layout.sets }
        ensures value { result ≡ owner_of_member self.old set n }
        ensures same { self.new ≡ self.old }
    {
        self.heap.owner_in(set, n)
    }

    /// A law, for contracts: members are entities of their class, and none is twice in a set or in two sets of a name. It does
    /// nothing.
    #[inline(always)]
    pub fn sets_are_apart(&self)
        ensures { AreMembersApart self.now }
    {
        self.heap.sets_are_apart();
    }

    /// How many entities a permanent class has: 0 until they are made.
    #[inline(always)]
    pub fn count(&self, class: usize) -> i64
        ensures { result ≡ pos (length (records_in (slice_get self.now.permanents class))) }
    {
        match self.made.get(class) {
            Some(Some(count)) => *count,
            _ => 0,
        }
    }

    /// Whether the entities of a permanent class are made.
    #[inline(always)]
    pub fn is_made(&self, class: usize) -> bool
        ensures { result ≡ is_made self.now class }
    {
        matches!(self.made.get(class), Some(Some(_)))
    }
}

// How many classes a layout has.
fn class_count(layout: &Layout) -> usize
    ensures { result ≡ length layout.now.classes }
{
    layout.classes.len()
}

// How many sets a layout has.
fn set_count(layout: &Layout) -> usize
    ensures { result ≡ length layout.now.sets }
{
    layout.sets.len()
}

// A number that was looked at, if there was no fault.
fn number_if_ok(number: Result<i64, FaultKind>) -> Option<i64>
    ensures { result ≡ result_ok number }
{
    match number {
        Ok(number) => Some(number),
        Err(_) => None,
    }
}

// Nothing is made of so many classes.
fn none_made(alloc: Global, classes: usize) -> Result<Vec<Option<i64>>, AllocError>
    ensures { IfOk result (λ made. made.items ≡ replicate classes None) }
{
    let mut made = Vec::new(alloc);
    for _ in 0..classes {
        made.push(None)?;
    }
    Ok(made)
}

// Notes how many entities of a class are made.
fn note(made: &mut Vec<Option<i64>>, class: usize, count: i64)
    ensures { made.new.items ≡ slice_set made.old.items class (Some count) }
{
    if class < made.len() {
        made[class] = Some(count);
    }
}
