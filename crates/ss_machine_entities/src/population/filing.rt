//! Filing and removing.

ghost use Rattle.std.specs.Prelude.{◌≡◌, ◌<◌, ◌≤◌, ◌^◌, length, pos, true, IfSome, MatchResult, Ok, Err, None, Some, slice_get};
ghost use Rattle.ss_base.specs.declared.layout.Mode.TheVariants.{Integer};
ghost use Rattle.ss_base.specs.declared.layout.Owner.TheVariants.{System};
ghost use Rattle.ss_meaning.specs.Sets.{beside};
ghost use Rattle.ss_records.specs.Sets.{owner_kind, filed_first, filed_last, filed_before, filed_after, removed};
ghost use Rattle.ss_records.specs.Skimming.{IsSkimmed};
ghost use Rattle.ss_records.specs.State.{modes_of};
ghost use Rattle.ss_sets.specs.Disciplines.{HasMemberKeys, filed, first_removed, last_removed, member_test};

use crate::population::Population;
use ss_base::{Discipline, FaultKind};
use ss_records::{Filter, SetWalk, Skimmed};
use ss_sets::file;

impl Population {
    /// Files x in the set of an owner by a discipline. Faults: those of x (1 to 5), those of the owner, then 6 where x
    /// is in some set of this name.
    #[inline(always)]
    pub fn file(
        &mut self,
        discipline: &Discipline,
        set: usize,
        o: i64,
        x: i64,
    ) -> Result<(), FaultKind>
        requires set { set < length self.old.layout.sets }
        requires keys { HasMemberKeys self.old.layout set discipline.now }
        ensures done { MatchResult result (λ _. filed self.old discipline.now set o x ≡ Ok self.new) (λ e. (filed self.old discipline.now set o x ≡ Err e) × (self.new ≡ self.old)) }
        ensures layout { self.new.layout ≡ self.old.layout }
    {
        file(&mut self.heap, discipline, set, o, x)
    }

    /// Files x as the first member of the set of an owner. Faults: those of x (1 to 5), those of the owner, then 6
    /// where x is in some set of this name.
    #[inline(always)]
    pub fn file_first(&mut self, set: usize, o: i64, x: i64) -> Result<(), FaultKind>
        requires set { set < length self.old.layout.sets }
        ensures done { MatchResult result (λ _. filed_first self.old set o x ≡ Ok self.new) (λ e. (filed_first self.old set o x ≡ Err e) × (self.new ≡ self.old)) }
        ensures layout { self.new.layout ≡ self.old.layout }
    {
        self.heap.file_first(set, o, x)
    }

    /// Files x as the last member of the set of an owner. Faults: those of x (1 to 5), those of the owner, then 6
    /// where x is in some set of this name.
    #[inline(always)]
    pub fn file_last(&mut self, set: usize, o: i64, x: i64) -> Result<(), FaultKind>
        requires set { set < length self.old.layout.sets }
        ensures done { MatchResult result (λ _. filed_last self.old set o x ≡ Ok self.new) (λ e. (filed_last self.old set o x ≡ Err e) × (self.new ≡ self.old)) }
        ensures layout { self.new.layout ≡ self.old.layout }
    {
        self.heap.file_last(set, o, x)
    }

    /// Files x directly before y in the set of an owner. Faults: those of x (1 to 5), of y, of the owner, then 6
    /// where x is in some set of this name, then 7 where y is not in this one.
    #[inline(always)]
    pub fn file_before(&mut self, set: usize, o: i64, x: i64, y: i64) -> Result<(), FaultKind>
        requires set { set < length self.old.layout.sets }
        ensures done { MatchResult result (λ _. filed_before self.old set o x y ≡ Ok self.new) (λ e. (filed_before self.old set o x y ≡ Err e) × (self.new ≡ self.old)) }
        ensures layout { self.new.layout ≡ self.old.layout }
    {
        self.heap.file_before(set, o, x, y)
    }

    /// Files x directly after y in the set of an owner. Faults: those of x (1 to 5), of y, of the owner, then 6
    /// where x is in some set of this name, then 7 where y is not in this one.
    #[inline(always)]
    pub fn file_after(&mut self, set: usize, o: i64, x: i64, y: i64) -> Result<(), FaultKind>
        requires set { set < length self.old.layout.sets }
        ensures done { MatchResult result (λ _. filed_after self.old set o x y ≡ Ok self.new) (λ e. (filed_after self.old set o x y ≡ Err e) × (self.new ≡ self.old)) }
        ensures layout { self.new.layout ≡ self.old.layout }
    {
        self.heap.file_after(set, o, x, y)
    }

    /// Takes x out of the set of an owner. Faults: those of x (1 to 5), those of the owner, then 7 where x is not in
    /// this set.
    #[inline(always)]
    pub fn remove(&mut self, set: usize, o: i64, x: i64) -> Result<(), FaultKind>
        requires set { set < length self.old.layout.sets }
        ensures done { MatchResult result (λ _. removed self.old set o x ≡ Ok self.new) (λ e. (removed self.old set o x ≡ Err e) × (self.new ≡ self.old)) }
        ensures layout { self.new.layout ≡ self.old.layout }
    {
        self.heap.remove(set, o, x)
    }

    /// Takes the first member out of the set of an owner, and answers it. Faults: 1 to 5, then 8 where there is none.
    #[inline(always)]
    pub fn remove_first(&mut self, set: usize, o: i64) -> Result<i64, FaultKind>
        requires set { set < length self.old.layout.sets }
        ensures done { MatchResult result (λ x. first_removed self.old set o ≡ Ok (x, self.new)) (λ e. (first_removed self.old set o ≡ Err e) × (self.new ≡ self.old)) }
        ensures layout { self.new.layout ≡ self.old.layout }
    {
        self.heap.remove_first(set, o)
    }

    /// Takes the last member out of the set of an owner, and answers it. Faults: 1 to 5, then 8 where there is none.
    #[inline(always)]
    pub fn remove_last(&mut self, set: usize, o: i64) -> Result<i64, FaultKind>
        requires set { set < length self.old.layout.sets }
        ensures done { MatchResult result (λ x. last_removed self.old set o ≡ Ok (x, self.new)) (λ e. (last_removed self.old set o ≡ Err e) × (self.new ≡ self.old)) }
        ensures layout { self.new.layout ≡ self.old.layout }
    {
        self.heap.remove_last(set, o)
    }

    /// Whether x is in the set of an owner. Faults: those of x (1 to 5), then those of the owner.
    #[inline(always)]
    pub fn is_in(&mut self, set: usize, o: i64, x: i64) -> Result<bool, FaultKind>
        requires set { set < length self.old.layout.sets }
        ensures value { result ≡ member_test self.old set o x }
        ensures same { self.new ≡ self.old }
    {
        self.heap.is_in(set, o, x)
    }

    /// The member that comes next to x in the set of an owner, after it or in reverse before it, 0 for none. None where x is
    /// not in that set, or there is a fault. The system is the owner 0.
    #[inline(always)]
    pub fn onward(&mut self, set: usize, o: i64, n: i64, reverse: bool) -> Option<i64>
        requires set { set < length self.old.layout.sets }
        ensures found { IfSome result (λ y. (member_test self.old set o n ≡ Ok true) × (beside reverse self.old set n ≡ Ok y)) }
        ensures gone { (owner_kind self.old.layout set ≡ System → o ≡ pos 0) → result ≡ None → member_test self.old set o n ≡ Ok true → ⊥ }
        ensures same { self.new ≡ self.old }
    {
        self.heap.onward(set, o, n, reverse)
    }

    /// Walks along a set from the member x on, past members that a filter passes over, and at most `most` of all, the one that it
    /// ends at among them. None where x is not in that set or not of the class of the filter, or there is a fault, and it may
    /// give up elsewhere too.
    #[inline(always)]
    pub fn skim(&mut self, walk: SetWalk, n: i64, filter: &Filter, most: u64) -> Option<Skimmed>
        requires set { walk.set < length self.old.layout.sets }
        requires mode { slice_get (modes_of self.old.layout filter.now.class) filter.now.field ≡ Some Integer }
        requires some { 1 ≤ most }
        requires few { most < 2 ^ 32 }
        ensures found { IfSome result (λ k. IsSkimmed self.old walk.set walk.owner walk.reverse filter.now n k) }
        ensures within { IfSome result (λ k. k.passed < most) }
        ensures same { self.new ≡ self.old }
    {
        self.heap.skim(walk, n, filter, most)
    }
}
