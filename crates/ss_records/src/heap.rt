ghost use Rattle.std.specs.Prelude.{◌≡◌, ◌+◌, ◌*◌, ◌^◌, ◌<◌, ◌≤◌, true, false, if◌then◌else◌, length, pos, MatchResult, IfOk, IfSome, Ok, Err, Some, None, IsOk, slice_get, nat_abs, ⊤, ℕ};
ghost use Rattle.ss_base.specs.Arithmetic.{plus_of, minus_of};
ghost use Rattle.ss_base.specs.Layout.{mode_of};
ghost use Rattle.ss_base.specs.declared.fault.FaultKind.{FaultKind as FaultSeen};
ghost use Rattle.ss_base.specs.declared.layout.Owner.TheVariants.{System, Class};
ghost use Rattle.ss_world.specs.State.{State, first_state, numbered_record, known_in, known_notice_in, kind_of, modes_of, value_in, time_in, created, created_all, destroyed, assigned, timed, no_value, IsRefusalOf, living_numbers, living_records};
ghost use Rattle.ss_world.specs.Disciplines.{first_removed, last_removed, member_test, owned};
ghost use Rattle.ss_world.specs.Sets.{member_class, joiner, owner, owner_kind, first_in, last_in, count_in, next_in, previous_in, owner_of_member, filed_first, filed_last, filed_before, filed_after, removed, AreMembersApart};
ghost use Rattle.ss_records_entities.specs.Attributes.{IsAssigned, IsChanged, changed_number};
ghost use Rattle.ss_records_entities.specs.Classed.{HasClass};
ghost use Rattle.ss_records_words.specs.Kept.{IsPermanent};
ghost use Rattle.ss_records_words.specs.Shape.{set_places};
ghost use Rattle.ss_records_entities.specs.Skimming.{IsSkimmed};
ghost use Rattle.ss_records_entities.specs.Passing.{ranks_past, first_where, before_where};

use ss_base::{Alpha, FaultKind, Layout, Mode, Refused, Value};
use ss_records_entities::records::Records;
use ss_records_entities::sets::{Member, WholeMember};
use ss_records_entities::skimming::{Filter, SetWalk, Skimmed};
use std::alloc::{AllocError, Global};
use std::marker::Model;

/// The entities of a simulation and the sets that they are in.
///
/// A contract sees its state (`specs/State.antt`): a record for each creation number, the permanent
/// entities of each class by index, and the members of each set. Classes, attributes and sets are named by
/// their numbers in the layout, entities by creation number or index. After a fault or where memory was refused,
/// the state is as it was.
pub struct Heap {
    alloc: Global,
    records: Records,
}

impl Model for Heap {
    ghost use Rattle.ss_world.specs.State.{Heaped};
    ghost use Rattle.ss_records_entities.specs.Parts.{IsKept, heaped};

    ghost Value = { Heaped };

    ghost view = { λ h. heaped h.records };

    ghost invariant = { λ h. IsKept h.records };
}

impl Drop for Heap {
    fn drop(self) {
        let Heap { alloc, records } = self;
        records.close(&alloc);
    }
}

impl Heap {
    /// A heap without entities, all sets empty: three touches for each set of THE SYSTEM. The error comes where memory was
    /// refused.
    pub fn new(alloc: Global, layout: Layout) -> Result<Heap, AllocError>
        ensures state { MatchResult result (λ h. h.state ≡ first_state layout) (λ _. ⊤) }
        ensures touches { IfOk result (λ h. (h.touches ≡ 3 * set_places layout System) × (h.total ≡ h.touches)) }
    {
        let records = Records::new(alloc, layout)?;
        Ok(Heap { alloc, records })
    }

    /// Whether r is an entity of a class. Faults: 1 to 4, or 5 for a permanent class.
    #[inline(always)]
    pub fn known(&self, class: usize, r: i64) -> Result<(), FaultKind>
        requires class { class < length self.now.state.layout.classes }
        ensures { result ≡ known_in self.now.state class r }
    {
        match self.records.find(class, r) {
            Ok(_) => Ok(()),
            Err(fault) => Err(fault),
        }
    }

    /// Whether r is an event notice of any class. Faults: 1 to 4.
    pub fn known_notice(&self, r: i64) -> Result<(), FaultKind>
        ensures { result ≡ known_notice_in self.now.state r }
    {
        match self.records.find_notice(r) {
            Ok(_) => Ok(()),
            Err(fault) => Err(fault),
        }
    }

    /// Remembers an entity by its creation number, so that it is found sooner. Nothing else changes.
    #[inline(always)]
    pub fn meet(&mut self, r: i64)
        ensures { self.new ≡ self.old }
    {
        self.records.meet(r);
    }

    /// The class of a temporary entity or a notice by its creation number: none where no entity of that number is living.
    #[inline(always)]
    pub fn class_of(&self, r: i64) -> Option<usize>
        ensures found { IfSome result (λ c. HasClass self.now.state r c) }
        ensures none { result ≡ None → (kind : FaultSeen) × (numbered_record self.now.state r ≡ Err kind) }
    {
        self.records.class_of(r)
    }

    /// The time of a notice. Faults: 1 to 4.
    pub fn time_a(&self, r: i64) -> Result<i64, FaultKind>
        ensures { result ≡ time_in self.now.state r }
    {
        self.records.time(r)
    }

    /// Sets the time of a notice. Faults: 1 to 4.
    pub fn set_time_a(&mut self, r: i64, t: i64) -> Result<(), FaultKind>
        ensures done { MatchResult result (λ _. timed self.old.state r t ≡ Ok self.new.state) (λ e. (timed self.old.state r t ≡ Err e) × (self.new.state ≡ self.old.state)) }
        ensures touches { (self.new.touches ≡ 0) × (self.new.total ≡ self.old.total) }
    {
        self.records.start();
        self.records.set_time(r, t)
    }

    /// The value of an attribute. Faults: 1 to 5.
    pub fn value(&self, class: usize, field: usize, r: i64) -> Result<Value, FaultKind>
        requires class { class < length self.now.state.layout.classes }
        requires field { field < length (modes_of self.now.state.layout class) }
        ensures { result ≡ value_in self.now.state class field r }
    {
        self.records.value(class, field, r)
    }

    /// Sets the value of an attribute, which has its mode. Faults: 1 to 5.
    pub fn set_value(
        &mut self,
        class: usize,
        field: usize,
        r: i64,
        value: Value,
    ) -> Result<(), FaultKind>
        requires class { class < length self.old.state.layout.classes }
        requires mode { slice_get (modes_of self.old.state.layout class) field ≡ Some (mode_of value) }
        ensures done { MatchResult result (λ _. assigned self.old.state class field r value ≡ Ok self.new.state) (λ e. (assigned self.old.state class field r value ≡ Err e) × (self.new.state ≡ self.old.state)) }
        ensures touches { (self.new.touches ≡ 0) × (self.new.total ≡ self.old.total) }
    {
        self.records.start();
        self.records.set_value(class, field, r, value)
    }

    /// The whole number that an attribute is. Faults: 1 to 5.
    #[inline(always)]
    pub fn whole(&self, class: usize, field: usize, r: i64) -> Result<i64, FaultKind>
        requires class { class < length self.now.state.layout.classes }
        requires mode { slice_get (modes_of self.now.state.layout class) field ≡ Some Mode.Integer }
        ensures { MatchResult result (λ n. value_in self.now.state class field r ≡ Ok (Value.Whole n)) (λ e. value_in self.now.state class field r ≡ Err e) }
    {
        self.records.whole(class, field, r)
    }

    /// The text that an attribute is. Faults: 1 to 5.
    #[inline(never)]
    pub fn text(&self, class: usize, field: usize, r: i64) -> Result<Alpha, FaultKind>
        requires class { class < length self.now.state.layout.classes }
        requires mode { slice_get (modes_of self.now.state.layout class) field ≡ Some Mode.Alpha }
        ensures { MatchResult result (λ t. value_in self.now.state class field r ≡ Ok (Value.Text t)) (λ e. value_in self.now.state class field r ≡ Err e) }
    {
        self.records.text(class, field, r)
    }

    /// Sets an attribute of texts. Faults: 1 to 5.
    #[inline(never)]
    pub fn set_text(
        &mut self,
        class: usize,
        field: usize,
        r: i64,
        text: Alpha,
    ) -> Result<(), FaultKind>
        requires class { class < length self.old.state.layout.classes }
        requires mode { slice_get (modes_of self.old.state.layout class) field ≡ Some Mode.Alpha }
        ensures done { MatchResult result (λ _. assigned self.old.state class field r (Value.Text text) ≡ Ok self.new.state) (λ e. (assigned self.old.state class field r (Value.Text text) ≡ Err e) × (self.new.state ≡ self.old.state)) }
        ensures touches { (self.new.touches ≡ 0) × (self.new.total ≡ self.old.total) }
    {
        self.records.start();
        self.records.set_value(class, field, r, Value::Text(text))
    }

    /// Sets an attribute of whole numbers. Faults: 1 to 5.
    #[inline(always)]
    pub fn set_whole(&mut self, class: usize, field: usize, r: i64, n: i64) -> Result<(), FaultKind>
        requires class { class < length self.old.state.layout.classes }
        requires mode { slice_get (modes_of self.old.state.layout class) field ≡ Some Mode.Integer }
        ensures done { MatchResult result (λ _. IsAssigned self.old.state class field r n self.new.state) (λ e. (assigned self.old.state class field r (Value.Whole n) ≡ Err e) × (self.new.state ≡ self.old.state)) }
        ensures touches { (self.new.touches ≡ 0) × (self.new.total ≡ self.old.total) }
    {
        self.records.start();
        self.records.set_whole(class, field, r, n)
    }

    /// Adds a number to an attribute of whole numbers. Faults: 1 to 5, then 14 where the sum does not fit 64 bits.
    #[inline(always)]
    pub fn add_whole(&mut self, class: usize, field: usize, r: i64, n: i64) -> Result<(), FaultKind>
        requires class { class < length self.old.state.layout.classes }
        requires mode { slice_get (modes_of self.old.state.layout class) field ≡ Some Mode.Integer }
        ensures done { MatchResult result (λ _. IsChanged (λ z. plus_of z n) self.old.state class field r self.new.state) (λ e. (changed_number (λ z. plus_of z n) (value_in self.old.state class field r) ≡ Err e) × (self.new.state ≡ self.old.state)) }
        ensures touches { (self.new.touches ≡ 0) × (self.new.total ≡ self.old.total) }
    {
        self.records.start();
        self.records.change_whole(class, field, r, n, false)
    }

    /// Subtracts a number from an attribute of whole numbers. Faults: 1 to 5, then 14 where the difference does not fit 64 bits.
    #[inline(always)]
    pub fn subtract_whole(
        &mut self,
        class: usize,
        field: usize,
        r: i64,
        n: i64,
    ) -> Result<(), FaultKind>
        requires class { class < length self.old.state.layout.classes }
        requires mode { slice_get (modes_of self.old.state.layout class) field ≡ Some Mode.Integer }
        ensures done { MatchResult result (λ _. IsChanged (λ z. minus_of z n) self.old.state class field r self.new.state) (λ e. (changed_number (λ z. minus_of z n) (value_in self.old.state class field r) ≡ Err e) × (self.new.state ≡ self.old.state)) }
        ensures touches { (self.new.touches ≡ 0) × (self.new.total ≡ self.old.total) }
    {
        self.records.start();
        self.records.change_whole(class, field, r, n, true)
    }

    /// Whether a class owns a set.
    #[inline(always)]
    pub fn owns_set(&self, class: usize) -> bool
        requires { class < length self.now.state.layout.classes }
        ensures { result ≡ false → (set : ℕ) → owner_kind self.now.state.layout set ≡ Class class → ⊥ }
    {
        self.records.owns_set(class)
    }

    /// Whether `create` makes an entity where memory is not refused. Faults: 14 after the last creation number.
    pub fn may_create(&self) -> Result<(), FaultKind>
        ensures { (class : ℕ) → result ≡ no_value (created self.now.state class) }
    {
        self.records.may_create()
    }

    /// Whether `create_all` makes so many entities of a permanent class where memory is not refused. Faults: 18 where they are
    /// made, then 22 for a bad count.
    pub fn may_create_all(&self, class: usize, n: i64) -> Result<(), FaultKind>
        ensures { result ≡ no_value (created_all self.now.state class n) }
    {
        self.records.may_create_all(class, n)
    }

    /// A new entity of a temporary class or a class of notices, with first values, in no set: its creation
    /// number. It takes three touches for each set that its class may join, and for each that it owns. Faults: 14 after the last
    /// creation number. `Memory` is answered only where no fault is due.
    #[inline(always)]
    pub fn create(&mut self, class: usize) -> Result<i64, Refused>
        requires class { class < length self.old.state.layout.classes }
        requires kind { IsPermanent (kind_of self.old.state.layout class) → ⊥ }
        ensures done { MatchResult result (λ n. created self.old.state class ≡ Ok (n, self.new.state)) (λ e. (self.new.state ≡ self.old.state) × IsRefusalOf (created self.old.state class) e) }
        ensures touches { self.new.total ≡ self.old.total + self.new.touches }
        ensures links { MatchResult result (λ _. self.new.touches ≡ 3 * set_places self.old.state.layout (Class class)) (λ _. self.new.touches ≡ 0) }
    {
        self.records.start();
        self.records.create(&self.alloc, class)
    }

    /// All n entities of a permanent class, with first values, in no set; they are known by their indices from 1 to n.
    /// Faults: 18 where this was done before, then 22 where n is below 0 or above 1,048,576. `Memory` is answered only where no
    /// fault is due.
    pub fn create_all(&mut self, class: usize, n: i64) -> Result<(), Refused>
        requires class { class < length self.old.state.layout.classes }
        requires kind { IsPermanent (kind_of self.old.state.layout class) }
        ensures done { MatchResult result (λ _. created_all self.old.state class n ≡ Ok self.new.state) (λ e. (self.new.state ≡ self.old.state) × IsRefusalOf (created_all self.old.state class n) e) }
        ensures touches { self.new.total ≡ self.old.total + self.new.touches }
        ensures links { MatchResult result (λ _. self.new.touches ≡ nat_abs n * (3 * set_places self.old.state.layout (Class class))) (λ _. self.new.touches ≡ 0) }
    {
        self.records.start();
        self.records.create_all(&self.alloc, class, n)
    }

    /// Whether `destroy` destroys an entity. Faults: those of `destroy`.
    pub fn may_destroy(&mut self, class: usize, r: i64) -> Result<(), FaultKind>
        requires class { class < length self.old.state.layout.classes }
        requires kind { IsPermanent (kind_of self.old.state.layout class) → ⊥ }
        ensures value { result ≡ no_value (destroyed self.old.state class r) }
        ensures same { self.new.state ≡ self.old.state }
        ensures touches { self.new.total ≡ self.old.total + self.new.touches }
        ensures looked { self.new.touches ≤ set_places self.old.state.layout (Class class) }
    {
        self.records.start();
        self.records.may_destroy(class, r)
    }

    /// Destroys an entity that is in no set and has no members. It takes at most one touch for each set that its class may join,
    /// and for each that it owns. Faults: 1 to 4, then 9, then 10.
    #[inline(always)]
    pub fn destroy(&mut self, class: usize, r: i64) -> Result<(), FaultKind>
        requires class { class < length self.old.state.layout.classes }
        requires kind { IsPermanent (kind_of self.old.state.layout class) → ⊥ }
        ensures done { MatchResult result (λ _. destroyed self.old.state class r ≡ Ok self.new.state) (λ e. (destroyed self.old.state class r ≡ Err e) × (self.new.state ≡ self.old.state)) }
        ensures touches { self.new.total ≡ self.old.total + self.new.touches }
        ensures looked { self.new.touches ≤ set_places self.old.state.layout (Class class) }
    {
        self.records.start();
        self.records.destroy(&self.alloc, class, r)
    }

    /// The first member of the set of an owner, 0 where there is none. THE SYSTEM is the owner 0. Faults: 1 to
    /// 5.
    pub fn first(&mut self, set: usize, o: i64) -> Result<i64, FaultKind>
        requires set { set < length self.old.state.layout.sets }
        ensures value { result ≡ first_in self.old.state set o }
        ensures same { self.new.state ≡ self.old.state }
        ensures touches { (self.new.touches ≤ 1) × (IsOk result → 1 ≤ self.new.touches) × (self.new.total ≡ self.old.total + self.new.touches) }
    {
        self.records.start();
        self.records.end(set, o, false)
    }

    /// The last member of the set of an owner, 0 where there is none. Faults: 1 to 5.
    pub fn last(&mut self, set: usize, o: i64) -> Result<i64, FaultKind>
        requires set { set < length self.old.state.layout.sets }
        ensures value { result ≡ last_in self.old.state set o }
        ensures same { self.new.state ≡ self.old.state }
        ensures touches { (self.new.touches ≤ 1) × (IsOk result → 1 ≤ self.new.touches) × (self.new.total ≡ self.old.total + self.new.touches) }
    {
        self.records.start();
        self.records.end(set, o, true)
    }

    /// How many members the set of an owner has. Faults: 1 to 5.
    #[inline(always)]
    pub fn count(&mut self, set: usize, o: i64) -> Result<i64, FaultKind>
        requires set { set < length self.old.state.layout.sets }
        ensures value { result ≡ count_in self.old.state set o }
        ensures same { self.new.state ≡ self.old.state }
        ensures touches { (self.new.touches ≤ 1) × (IsOk result → 1 ≤ self.new.touches) × (self.new.total ≡ self.old.total + self.new.touches) }
    {
        self.records.count(set, o)
    }

    /// Whether x may be in a set. Faults: 1 to 5.
    #[inline(always)]
    pub fn look_member(&self, set: usize, x: i64) -> Result<(), FaultKind>
        requires set { set < length self.now.state.layout.sets }
        ensures { result ≡ no_value (joiner self.now.state set x) }
    {
        self.records.look_member(set, x)
    }

    /// Whether o is an owner of a set. Faults: 1 to 5.
    #[inline(always)]
    pub fn look_owner(&self, set: usize, o: i64) -> Result<(), FaultKind>
        requires set { set < length self.now.state.layout.sets }
        ensures { result ≡ no_value (owner self.now.state set o) }
    {
        self.records.look_owner(set, o)
    }

    /// The member that follows x in its set, 0 where there is none or x is in no set. Faults: 1 to 5.
    pub fn next(&mut self, set: usize, x: i64) -> Result<i64, FaultKind>
        requires set { set < length self.old.state.layout.sets }
        ensures value { result ≡ next_in self.old.state set x }
        ensures same { self.new.state ≡ self.old.state }
        ensures touches { (self.new.touches ≤ 1) × (IsOk result → 1 ≤ self.new.touches) × (self.new.total ≡ self.old.total + self.new.touches) }
    {
        self.records.start();
        self.records.next_to(set, x, false)
    }

    /// The value of an attribute of x, of the class of the members of a set, and the member that follows x in its set,
    /// 0 where there is none or x is in no set: a value and a `next` with one look for x. Faults: 1 to 5.
    pub fn member(&mut self, set: usize, field: usize, x: i64) -> Result<Member, FaultKind>
        requires set { set < length self.old.state.layout.sets }
        requires field { field < length (modes_of self.old.state.layout (member_class self.old.state.layout set)) }
        ensures found { MatchResult result (λ m. (value_in self.old.state (member_class self.old.state.layout set) field x ≡ Ok m.value) × (next_in self.old.state set x ≡ Ok m.next)) (λ e. next_in self.old.state set x ≡ Err e) }
        ensures same { self.new.state ≡ self.old.state }
        ensures touches { (self.new.touches ≤ 1) × (IsOk result → 1 ≤ self.new.touches) × (self.new.total ≡ self.old.total + self.new.touches) }
    {
        self.records.start();
        self.records.member(set, field, x)
    }

    /// The value of an attribute of whole numbers of x, and the next member, as `member` gives them. Faults: 1 to 5.
    pub fn whole_member(
        &mut self,
        set: usize,
        field: usize,
        x: i64,
    ) -> Result<WholeMember, FaultKind>
        requires set { set < length self.old.state.layout.sets }
        requires mode { slice_get (modes_of self.old.state.layout (member_class self.old.state.layout set)) field ≡ Some Mode.Integer }
        ensures found { MatchResult result (λ m. (value_in self.old.state (member_class self.old.state.layout set) field x ≡ Ok (Value.Whole m.value)) × (next_in self.old.state set x ≡ Ok m.next)) (λ e. next_in self.old.state set x ≡ Err e) }
        ensures same { self.new.state ≡ self.old.state }
        ensures touches { (self.new.touches ≤ 1) × (IsOk result → 1 ≤ self.new.touches) × (self.new.total ≡ self.old.total + self.new.touches) }
    {
        self.records.start();
        self.records.whole_member(set, field, x)
    }

    /// The first member of the set of an owner that ranks strictly after a number by an attribute of whole numbers, 0 where
    /// there is none: where the high come first, one whose own number is lower, else one whose own is higher. It touches the
    /// members before it once each. Faults: 1 to 5 of the owner.
    pub fn first_past(
        &mut self,
        set: usize,
        o: i64,
        field: usize,
        own: i64,
        high: bool,
    ) -> Result<i64, FaultKind>
        requires set { set < length self.old.state.layout.sets }
        requires mode { slice_get (modes_of self.old.state.layout (member_class self.old.state.layout set)) field ≡ Some Mode.Integer }
        ensures found { MatchResult result (λ y. IsOk (owner self.old.state set o) × (y ≡ pos (first_where (ranks_past self.old.state (member_class self.old.state.layout set) field high (Value.Whole own)) (owned self.old.state set o)))) (λ e. owner self.old.state set o ≡ Err e) }
        ensures same { self.new.state ≡ self.old.state }
        ensures touches { (self.new.touches ≤ 1 + before_where (ranks_past self.old.state (member_class self.old.state.layout set) field high (Value.Whole own)) (owned self.old.state set o)) × (self.new.total ≡ self.old.total + self.new.touches) }
    {
        self.records.start();
        self.records.first_past(set, o, field, own, high)
    }

    /// The member that precedes x in its set, 0 where there is none or x is in no set. Faults: 1 to 5.
    pub fn previous(&mut self, set: usize, x: i64) -> Result<i64, FaultKind>
        requires set { set < length self.old.state.layout.sets }
        ensures value { result ≡ previous_in self.old.state set x }
        ensures same { self.new.state ≡ self.old.state }
        ensures touches { (self.new.touches ≤ 1) × (IsOk result → 1 ≤ self.new.touches) × (self.new.total ≡ self.old.total + self.new.touches) }
    {
        self.records.start();
        self.records.next_to(set, x, true)
    }

    /// The member that follows x in the set of an owner, or in reverse the one that precedes it, 0 where there is none: an
    /// `is_in` and a `next` or `previous` with one look for x. None where x is not in that set, or there is a fault. The system
    /// is the owner 0.
    #[inline(always)]
    pub fn onward(&mut self, set: usize, o: i64, x: i64, reverse: bool) -> Option<i64>
        requires set { set < length self.old.state.layout.sets }
        ensures found { IfSome result (λ y. (member_test self.old.state set o x ≡ Ok true) × ((if reverse then previous_in self.old.state set x else next_in self.old.state set x) ≡ Ok y)) }
        ensures gone { (owner_kind self.old.state.layout set ≡ System → o ≡ pos 0) → result ≡ None → member_test self.old.state set o x ≡ Ok true → ⊥ }
        ensures same { self.new.state ≡ self.old.state }
        ensures touches { (self.new.touches ≤ 2) × (self.new.total ≡ self.old.total + self.new.touches) }
    {
        self.records.start();
        self.records.onward(set, o, x, reverse)
    }

    /// Walks along a set from the member x on, past members that a filter passes over. It looks at `most` members at most, the
    /// one where it stops among them: an `onward` and a `value` for each, with one search for x. None where x is not in that
    /// set or not of the class of the filter, or there is a fault, and it may give up elsewhere too.
    #[inline(always)]
    pub fn skim(&mut self, walk: SetWalk, x: i64, filter: &Filter, most: u64) -> Option<Skimmed>
        requires set { walk.set < length self.old.state.layout.sets }
        requires mode { slice_get (modes_of self.old.state.layout filter.now.class) filter.now.field ≡ Some Mode.Integer }
        requires some { 1 ≤ most }
        requires few { most < 2 ^ 32 }
        ensures found { IfSome result (λ k. IsSkimmed self.old.state walk.set walk.owner walk.reverse filter.now x k) }
        ensures within { IfSome result (λ k. k.passed < most) }
        ensures same { self.new.state ≡ self.old.state }
        ensures touches { (self.new.touches ≤ 2 * most) × (self.new.total ≡ self.old.total + self.new.touches) }
    {
        self.records.start();
        self.records.skim(walk, x, filter, most)
    }

    /// The owner whose set of this name x is in, if any. Faults: 1 to 5.
    pub fn owner_in(&mut self, set: usize, x: i64) -> Result<Option<i64>, FaultKind>
        requires set { set < length self.old.state.layout.sets }
        ensures value { result ≡ owner_of_member self.old.state set x }
        ensures same { self.new.state ≡ self.old.state }
        ensures touches { (self.new.touches ≤ 2) × (IsOk result → 1 ≤ self.new.touches) × (self.new.total ≡ self.old.total + self.new.touches) }
    {
        self.records.start();
        self.records.owner_in(set, x)
    }

    /// Files x as the first member of the set of an owner. Faults: those of x (1 to 5), then those of the owner,
    /// then 6 where x is in some set of this name.
    pub fn file_first(&mut self, set: usize, o: i64, x: i64) -> Result<(), FaultKind>
        requires set { set < length self.old.state.layout.sets }
        ensures done { MatchResult result (λ _. filed_first self.old.state set o x ≡ Ok self.new.state) (λ e. (filed_first self.old.state set o x ≡ Err e) × (self.new.state ≡ self.old.state)) }
        ensures touches { (self.new.touches ≤ 12) × (IsOk result → 4 ≤ self.new.touches) × (self.new.total ≡ self.old.total + self.new.touches) }
    {
        self.records.file_end(set, o, x, false)
    }

    /// Files x as the last member of the set of an owner. Faults: those of x (1 to 5), then those of the owner,
    /// then 6 where x is in some set of this name.
    #[inline(always)]
    pub fn file_last(&mut self, set: usize, o: i64, x: i64) -> Result<(), FaultKind>
        requires set { set < length self.old.state.layout.sets }
        ensures done { MatchResult result (λ _. filed_last self.old.state set o x ≡ Ok self.new.state) (λ e. (filed_last self.old.state set o x ≡ Err e) × (self.new.state ≡ self.old.state)) }
        ensures touches { (self.new.touches ≤ 12) × (IsOk result → 4 ≤ self.new.touches) × (self.new.total ≡ self.old.total + self.new.touches) }
    {
        self.records.file_end(set, o, x, true)
    }

    /// Files x directly before y in the set of an owner. Faults: those of x (1 to 5), of y, of the owner, then 6
    /// where x is in some set of this name, then 7 where y isn't in this one.
    pub fn file_before(&mut self, set: usize, o: i64, x: i64, y: i64) -> Result<(), FaultKind>
        requires set { set < length self.old.state.layout.sets }
        ensures done { MatchResult result (λ _. filed_before self.old.state set o x y ≡ Ok self.new.state) (λ e. (filed_before self.old.state set o x y ≡ Err e) × (self.new.state ≡ self.old.state)) }
        ensures touches { (self.new.touches ≤ 12) × (IsOk result → 4 ≤ self.new.touches) × (self.new.total ≡ self.old.total + self.new.touches) }
    {
        self.records.start();
        self.records.file_beside(set, o, x, y, true)
    }

    /// Files x directly after y in the set of an owner. Faults: those of x (1 to 5), of y, of the owner, then 6
    /// where x is in some set of this name, then 7 where y isn't in this one.
    pub fn file_after(&mut self, set: usize, o: i64, x: i64, y: i64) -> Result<(), FaultKind>
        requires set { set < length self.old.state.layout.sets }
        ensures done { MatchResult result (λ _. filed_after self.old.state set o x y ≡ Ok self.new.state) (λ e. (filed_after self.old.state set o x y ≡ Err e) × (self.new.state ≡ self.old.state)) }
        ensures touches { (self.new.touches ≤ 12) × (IsOk result → 4 ≤ self.new.touches) × (self.new.total ≡ self.old.total + self.new.touches) }
    {
        self.records.start();
        self.records.file_beside(set, o, x, y, false)
    }

    /// Takes x out of the set of an owner. Faults: those of x (1 to 5), of the owner, then 7 where x isn't in this
    /// set.
    pub fn remove(&mut self, set: usize, o: i64, x: i64) -> Result<(), FaultKind>
        requires set { set < length self.old.state.layout.sets }
        ensures done { MatchResult result (λ _. removed self.old.state set o x ≡ Ok self.new.state) (λ e. (removed self.old.state set o x ≡ Err e) × (self.new.state ≡ self.old.state)) }
        ensures touches { (self.new.touches ≤ 12) × (IsOk result → 4 ≤ self.new.touches) × (self.new.total ≡ self.old.total + self.new.touches) }
    {
        self.records.start();
        self.records.remove(set, o, x)
    }

    /// Takes the first member out of the set of an owner, and answers it: a `first` and a `remove` with one look for the
    /// owner. Faults: 1 to 5, then 8 where there is none.
    #[inline(always)]
    pub fn remove_first(&mut self, set: usize, o: i64) -> Result<i64, FaultKind>
        requires set { set < length self.old.state.layout.sets }
        ensures done { MatchResult result (λ x. first_removed self.old.state set o ≡ Ok (x, self.new.state)) (λ e. (first_removed self.old.state set o ≡ Err e) × (self.new.state ≡ self.old.state)) }
        ensures touches { (self.new.touches ≤ 12) × (self.new.total ≡ self.old.total + self.new.touches) }
    {
        self.records.remove_end(set, o, false)
    }

    /// Takes the last member out of the set of an owner, and answers it: a `last` and a `remove` with one look for the
    /// owner. Faults: 1 to 5, then 8 where there is none.
    pub fn remove_last(&mut self, set: usize, o: i64) -> Result<i64, FaultKind>
        requires set { set < length self.old.state.layout.sets }
        ensures done { MatchResult result (λ x. last_removed self.old.state set o ≡ Ok (x, self.new.state)) (λ e. (last_removed self.old.state set o ≡ Err e) × (self.new.state ≡ self.old.state)) }
        ensures touches { (self.new.touches ≤ 12) × (self.new.total ≡ self.old.total + self.new.touches) }
    {
        self.records.remove_end(set, o, true)
    }

    /// Whether x is in the set of an owner. Faults: those of x (1 to 5), then those of the owner.
    pub fn is_in(&mut self, set: usize, o: i64, x: i64) -> Result<bool, FaultKind>
        requires set { set < length self.old.state.layout.sets }
        ensures value { result ≡ member_test self.old.state set o x }
        ensures same { self.new.state ≡ self.old.state }
        ensures touches { (self.new.touches ≤ 2) × (self.new.total ≡ self.old.total + self.new.touches) }
    {
        self.records.start();
        self.records.has(set, o, x)
    }

    /// A law, for contracts: members are entities of their class, and none is twice in a set or in two sets of a
    /// name. It does nothing.
    pub fn sets_are_apart(&self)
        ensures { AreMembersApart self.now.state }
    {
        self.records.law();
    }

    /// The classes and sets that it was made for.
    pub fn layout(&self) -> &Layout
        ensures { result.now ≡ self.now.state.layout }
    {
        self.records.layout.layout()
    }

    /// How many links, ends and counts of members the last call that takes `&mut self` read and wrote.
    pub fn touches(&self) -> u64
        ensures { result ≡ self.now.touches }
    {
        self.records.touches()
    }

    /// How many pages of 256 numbers the directory of creation numbers holds: at most one more than entities with a
    /// creation number are living.
    pub fn pages(&self) -> usize
        ensures value { result ≡ self.now.pages }
        ensures bound { result ≤ living_numbers self.now.state.records + 1 }
    {
        self.records.pages()
    }

    /// How many blocks of memory are held: one for each living entity, and one for the system.
    pub fn blocks(&self) -> u64
        ensures { result ≡ living_records self.now.state + 1 }
    {
        self.records.placed()
    }
}
