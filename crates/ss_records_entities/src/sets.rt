// The sets: their ends, the neighbours of a member, and its owner.
ghost use Rattle.std.specs.Prelude.{◌≡◌, ℕ, ◌+◌, ◌-◌, ◌^◌, ◌<◌, ◌≤◌, length, slice_get, not, true, false, if◌then◌else◌, ℤ, pos, MatchResult, IfSome, IsOk, Ok, Err, Some, None};
ghost use Rattle.std.specs.Ordering.{match_ordering, int_cmp};
ghost use Rattle.ss_world.specs.State.{State, is_filed, members_of, kind_of, modes_of, value_in, no_value};
ghost use Rattle.ss_base.specs.declared.layout.Owner.TheVariants.{System};
ghost use Rattle.ss_world.specs.Sets.{joiner, owner, owner_kind, member_class, first_in, last_in, count_in, next_in, previous_in, owner_of_member, AreMembersApart};
ghost use Rattle.ss_world.specs.Disciplines.{member_test, owned};
ghost use Rattle.ss_records_words.specs.Kept.{IsPermanent};
ghost use Rattle.ss_records_entities.specs.Parts.{IsKept, state, IsOwnerBlock, CanJoin};
ghost use Rattle.ss_records_entities.specs.Passing.{ranks_past, first_where, before_where};

use crate::finding::Hint;
use crate::records::Records;
use ss_base::{FaultKind, Mode, Owner, Value};
use ss_records_blocks::{Directory, EntityBlock, NUMBER};
use ss_records_words::attributes;
use ss_records_words::plan::LayoutPlan;
use ss_records_words::shape::value_start;

/// What is read of a member of a set at once.
#[derive(Clone, Copy)]
pub struct Member {
    /// The value of one of its attributes.
    pub value: Value,
    /// The member that follows it, 0 where there is none.
    pub next: i64,
}

/// What is read of a member of a set at once, where the attribute is a whole number.
#[derive(Clone, Copy)]
pub struct WholeMember {
    /// The number.
    pub value: i64,
    /// The member that follows it, 0 where there is none.
    pub next: i64,
}

// One that may be in a set, and the member that comes next to it.
#[derive(Clone, Copy)]
struct FoundMember {
    member: EntityBlock,
    // 0 where there is none.
    next: i64,
}

impl Records {
    /// What holds of the sets.
    pub fn law(&self)
        requires kept { IsKept self.now }
        ensures { AreMembersApart (state self.now) }
    {}

    /// The owner of a set that o refers to: the system where the set is one of its own.
    #[inline(always)]
    pub fn owner(&self, s: usize, o: i64) -> Result<EntityBlock, FaultKind>
        requires kept { IsKept self.now }
        requires set { s < length self.now.layout.sets }
        ensures found { MatchResult result (λ e. IsOwnerBlock self.now s e × (owner (state self.now) s o ≡ Ok e.number)) (λ f. owner (state self.now) s o ≡ Err f) }
    {
        if self.layout.is_of_system(s) {
            return Ok(EntityBlock {
                place: self.system,
                number: 0,
            });
        }
        match self.layout.owner_class(s) {
            Owner::System => Err(FaultKind::NoEntity),
            Owner::Class(class) => match self.find(class, o) {
                Ok(place) => Ok(EntityBlock {
                    place,
                    number: self.blocks.number(place, NUMBER),
                }),
                Err(fault) => Err(fault),
            },
        }
    }

    /// The entity that x refers to, which may be in a set.
    #[inline(always)]
    pub fn joiner(&self, s: usize, x: i64) -> Result<EntityBlock, FaultKind>
        requires kept { IsKept self.now }
        requires set { s < length self.now.layout.sets }
        ensures found { MatchResult result (λ e. CanJoin self.now s e × (joiner (state self.now) s x ≡ Ok e.number)) (λ f. joiner (state self.now) s x ≡ Err f) }
    {
        match self.find(self.layout.member_class(s), x) {
            Ok(place) => Ok(EntityBlock {
                place,
                number: self.blocks.number(place, NUMBER),
            }),
            Err(fault) => Err(fault),
        }
    }

    /// Whether an entity is in a set of the name: a touch.
    pub fn is_filed(&mut self, s: usize, x: EntityBlock) -> bool
        requires kept { IsKept self.old }
        requires set { s < length self.old.layout.sets }
        requires joins { CanJoin self.old s x }
        requires touches { self.old.blocks.touches ≤ 16 }
        ensures value { result ≡ is_filed self.old.notes.lists s x.number }
        ensures same { self.new ≡ record self.old { blocks = self.new.blocks } }
        ensures cells { self.new.blocks.cells ≡ self.old.blocks.cells }
        ensures touches { (self.new.blocks.touches ≡ self.old.blocks.touches + 1) × (self.new.blocks.total ≡ self.old.blocks.total + 1) }
    {
        let base = self.layout.member_base(s);
        let next = self.blocks.follow(x.place, base);
        next.number != x.number
    }

    /// The first member of a set, or the last, 0 where there is none: a touch.
    pub fn end(&mut self, s: usize, o: i64, is_last: bool) -> Result<i64, FaultKind>
        requires kept { IsKept self.old }
        requires set { s < length self.old.layout.sets }
        requires touches { self.old.blocks.touches ≡ 0 }
        ensures value { result ≡ (if is_last then last_in (state self.old) s o else first_in (state self.old) s o) }
        ensures kept { IsKept self.new }
        ensures same { state self.new ≡ state self.old }
        ensures touches { (self.new.blocks.touches ≤ 1) × (IsOk result → 1 ≤ self.new.blocks.touches) × (self.new.blocks.total ≡ self.old.blocks.total + self.new.blocks.touches) }
    {
        match self.owner(s, o) {
            Ok(owner) => {
                let base = self.layout.owner_base(s);
                let end = self.blocks.follow(owner.place, beside(base, is_last));
                Ok(end.number as i64)
            }
            Err(fault) => Err(fault),
        }
    }

    /// How many members a set has: a touch.
    #[inline(always)]
    pub fn count(&mut self, s: usize, o: i64) -> Result<i64, FaultKind>
        requires kept { IsKept self.old }
        requires set { s < length self.old.layout.sets }
        ensures value { result ≡ count_in (state self.old) s o }
        ensures kept { IsKept self.new }
        ensures same { state self.new ≡ state self.old }
        ensures touches { (self.new.blocks.touches ≤ 1) × (IsOk result → 1 ≤ self.new.blocks.touches) × (self.new.blocks.total ≡ self.old.blocks.total + self.new.blocks.touches) }
    {
        match self.owner(s, o) {
            Ok(owner) => {
                let base = self.layout.owner_base(s);
                let count = self.blocks.peek_count(owner.place, base + 2);
                self.blocks.start_at(1);
                Ok(count as i64)
            }
            Err(fault) => {
                self.blocks.start();
                Err(fault)
            }
        }
    }

    // The entity that x refers to, which may be in a set, and the member that follows it, or in reverse precedes it: a touch.
    #[inline(always)]
    fn read_beside(&mut self, s: usize, x: i64, reverse: bool) -> Result<FoundMember, FaultKind>
        requires kept { IsKept self.old }
        requires set { s < length self.old.layout.sets }
        requires touches { self.old.blocks.touches ≡ 0 }
        ensures found { MatchResult result (λ b. CanJoin self.old s b.member × (joiner (state self.old) s x ≡ Ok b.member.number) × ((if reverse then previous_in (state self.old) s x else next_in (state self.old) s x) ≡ Ok b.next)) (λ e. (if reverse then previous_in (state self.old) s x else next_in (state self.old) s x) ≡ Err e) }
        ensures same { self.new ≡ record self.old { blocks = self.new.blocks } }
        ensures cells { self.new.blocks.cells ≡ self.old.blocks.cells }
        ensures touches { (self.new.blocks.touches ≤ 1) × (IsOk result → 1 ≤ self.new.blocks.touches) × (self.new.blocks.total ≡ self.old.blocks.total + self.new.blocks.touches) }
    {
        match self.joiner(s, x) {
            Ok(member) => {
                let base = self.layout.member_base(s);
                let next = self.blocks.follow(member.place, beside(base, reverse));
                Ok(FoundMember {
                    member,
                    next: other_than(next.number, member.number) as i64,
                })
            }
            Err(fault) => Err(fault),
        }
    }

    /// The member that follows x in its set, or in reverse the one that precedes it, 0 where there is none: a touch.
    pub fn next_to(&mut self, s: usize, x: i64, reverse: bool) -> Result<i64, FaultKind>
        requires kept { IsKept self.old }
        requires set { s < length self.old.layout.sets }
        requires touches { self.old.blocks.touches ≡ 0 }
        ensures value { result ≡ (if reverse then previous_in (state self.old) s x else next_in (state self.old) s x) }
        ensures kept { IsKept self.new }
        ensures same { state self.new ≡ state self.old }
        ensures touches { (self.new.blocks.touches ≤ 1) × (IsOk result → 1 ≤ self.new.blocks.touches) × (self.new.blocks.total ≡ self.old.blocks.total + self.new.blocks.touches) }
    {
        match self.read_beside(s, x, reverse) {
            Ok(found) => Ok(found.next),
            Err(fault) => Err(fault),
        }
    }

    /// The value of an attribute of x and the member that follows it in its set, 0 where there is none: a touch.
    pub fn member(&mut self, s: usize, field: usize, x: i64) -> Result<Member, FaultKind>
        requires kept { IsKept self.old }
        requires set { s < length self.old.layout.sets }
        requires field { field < length (modes_of self.old.layout (member_class self.old.layout s)) }
        requires touches { self.old.blocks.touches ≡ 0 }
        ensures found { MatchResult result (λ m. (value_in (state self.old) (member_class self.old.layout s) field x ≡ Ok m.value) × (next_in (state self.old) s x ≡ Ok m.next)) (λ e. next_in (state self.old) s x ≡ Err e) }
        ensures kept { IsKept self.new }
        ensures same { state self.new ≡ state self.old }
        ensures touches { (self.new.blocks.touches ≤ 1) × (IsOk result → 1 ≤ self.new.blocks.touches) × (self.new.blocks.total ≡ self.old.blocks.total + self.new.blocks.touches) }
    {
        match self.read_beside(s, x, false) {
            Ok(found) => {
                let class = self.layout.member_class(s);
                let mode = self.layout.mode(class, field);
                let k = value_start(field);
                let value = attributes::value(&self.blocks, found.member.place, k, mode);
                Ok(Member {
                    value,
                    next: found.next,
                })
            }
            Err(fault) => Err(fault),
        }
    }

    /// The value of an attribute of whole numbers of x, and the member that follows x, as `member` gives them: a touch.
    pub fn whole_member(&mut self, s: usize, field: usize, x: i64) -> Result<WholeMember, FaultKind>
        requires kept { IsKept self.old }
        requires set { s < length self.old.layout.sets }
        requires mode { slice_get (modes_of self.old.layout (member_class self.old.layout s)) field ≡ Some Mode.Integer }
        requires touches { self.old.blocks.touches ≡ 0 }
        ensures found { MatchResult result (λ m. (value_in (state self.old) (member_class self.old.layout s) field x ≡ Ok (Value.Whole m.value)) × (next_in (state self.old) s x ≡ Ok m.next)) (λ e. next_in (state self.old) s x ≡ Err e) }
        ensures kept { IsKept self.new }
        ensures same { state self.new ≡ state self.old }
        ensures touches { (self.new.blocks.touches ≤ 1) × (IsOk result → 1 ≤ self.new.blocks.touches) × (self.new.blocks.total ≡ self.old.blocks.total + self.new.blocks.touches) }
    {
        match self.read_beside(s, x, false) {
            Ok(found) => {
                let k = value_start(field);
                let value = attributes::whole(&self.blocks, found.member.place, k);
                Ok(WholeMember {
                    value,
                    next: found.next,
                })
            }
            Err(fault) => Err(fault),
        }
    }

    /// The first member of a set that ranks strictly after a number by an attribute of whole numbers, 0 where there is none: a touch
    /// for each member before it, and one.
    pub fn first_past(
        &mut self,
        s: usize,
        o: i64,
        field: usize,
        own: i64,
        high: bool,
    ) -> Result<i64, FaultKind>
        requires kept { IsKept self.old }
        requires set { s < length self.old.layout.sets }
        requires mode { slice_get (modes_of self.old.layout (member_class self.old.layout s)) field ≡ Some Mode.Integer }
        requires touches { self.old.blocks.touches ≡ 0 }
        ensures found { MatchResult result (λ y. IsOk (owner (state self.old) s o) × (y ≡ pos (first_where (ranks_past (state self.old) (member_class self.old.layout s) field high (Value.Whole own)) (owned (state self.old) s o)))) (λ e. owner (state self.old) s o ≡ Err e) }
        ensures kept { IsKept self.new }
        ensures same { state self.new ≡ state self.old }
        ensures touches { (self.new.blocks.touches ≤ 1 + before_where (ranks_past (state self.old) (member_class self.old.layout s) field high (Value.Whole own)) (owned (state self.old) s o)) × (self.new.blocks.total ≡ self.old.blocks.total + self.new.blocks.touches) }
    {
        match self.owner(s, o) {
            Ok(owner) => Ok(self.past(s, owner, field, own, high) as i64),
            Err(fault) => Err(fault),
        }
    }

    // Does the work of `first_past` for an owner that is there.
    fn past(&mut self, s: usize, owner: EntityBlock, field: usize, own: i64, high: bool) -> u64
        requires kept { IsKept self.old }
        requires set { s < length self.old.layout.sets }
        requires owns { IsOwnerBlock self.old s owner }
        requires mode { slice_get (modes_of self.old.layout (member_class self.old.layout s)) field ≡ Some Mode.Integer }
        requires touches { self.old.blocks.touches ≡ 0 }
        ensures value { result ≡ first_where (ranks_past (state self.old) (member_class self.old.layout s) field high (Value.Whole own)) (members_of self.old.notes.lists s owner.number) }
        ensures small { result < 2 ^ 62 }
        ensures same { self.new ≡ record self.old { blocks = self.new.blocks } }
        ensures cells { self.new.blocks.cells ≡ self.old.blocks.cells }
        ensures touches { (self.new.blocks.touches ≤ 1 + before_where (ranks_past (state self.old) (member_class self.old.layout s) field high (Value.Whole own)) (members_of self.old.notes.lists s owner.number)) × (self.new.blocks.total ≡ self.old.blocks.total + self.new.blocks.touches) }
    {
        let first = self.layout.owner_base(s);
        let next = self.layout.member_base(s);
        let mut member = self.blocks.follow(owner.place, first);
        'members: while member.number != 0 {
            if self.is_past(s, member, field, own, high) {
                return member.number;
            }
            member = self.blocks.follow(member.place, next);
        }
        0
    }

    // Whether a member ranks strictly after a number by an attribute of whole numbers.
    #[inline(always)]
    fn is_past(&self, s: usize, member: EntityBlock, field: usize, own: i64, high: bool) -> bool
        requires kept { IsKept self.now }
        requires set { s < length self.now.layout.sets }
        requires joins { CanJoin self.now s member }
        requires mode { slice_get (modes_of self.now.layout (member_class self.now.layout s)) field ≡ Some Mode.Integer }
        ensures { result ≡ ranks_past (state self.now) (member_class self.now.layout s) field high (Value.Whole own) member.number }
    {
        let k = value_start(field);
        is_after(attributes::whole(&self.blocks, member.place, k), own, high)
    }

    /// The member that follows x in the set of an owner, or in reverse the one that precedes it, 0 where there is none: at most
    /// two touches. None where x is not in that set, or there is a fault. The system is the owner 0.
    #[inline(always)]
    pub fn onward(&mut self, s: usize, o: i64, x: i64, reverse: bool) -> Option<i64>
        requires kept { IsKept self.old }
        requires set { s < length self.old.layout.sets }
        requires touches { self.old.blocks.touches ≡ 0 }
        ensures found { IfSome result (λ y. (member_test (state self.old) s o x ≡ Ok true) × ((if reverse then previous_in (state self.old) s x else next_in (state self.old) s x) ≡ Ok y)) }
        ensures gone { (owner_kind self.old.layout s ≡ System → o ≡ pos 0) → result ≡ None → member_test (state self.old) s o x ≡ Ok true → ⊥ }
        ensures kept { IsKept self.new }
        ensures same { state self.new ≡ state self.old }
        ensures touches { (self.new.blocks.touches ≤ 2) × (self.new.blocks.total ≡ self.old.blocks.total + self.new.blocks.touches) }
    {
        match self.expected_joiner(s, x) {
            Some(member) => self.neighbour(s, o, member, reverse),
            None => self.onward_apart(s, o, x, reverse),
        }
    }

    // Does the work of `onward` where it may take a search for x.
    #[inline(never)]
    fn onward_apart(&mut self, s: usize, o: i64, x: i64, reverse: bool) -> Option<i64>
        requires kept { IsKept self.old }
        requires set { s < length self.old.layout.sets }
        requires touches { self.old.blocks.touches ≡ 0 }
        ensures found { IfSome result (λ y. (member_test (state self.old) s o x ≡ Ok true) × ((if reverse then previous_in (state self.old) s x else next_in (state self.old) s x) ≡ Ok y)) }
        ensures gone { (owner_kind self.old.layout s ≡ System → o ≡ pos 0) → result ≡ None → member_test (state self.old) s o x ≡ Ok true → ⊥ }
        ensures kept { IsKept self.new }
        ensures same { state self.new ≡ state self.old }
        ensures touches { (self.new.blocks.touches ≤ 2) × (self.new.blocks.total ≡ self.old.blocks.total + self.new.blocks.touches) }
    {
        match self.joiner(s, x) {
            Ok(member) => self.neighbour(s, o, member, reverse),
            Err(_) => None,
        }
    }

    // The entity that x refers to, which may be in a set, where it is likely to come next.
    #[inline(always)]
    pub fn expected_joiner(&self, s: usize, x: i64) -> Option<EntityBlock>
        requires kept { IsKept self.now }
        requires set { s < length self.now.layout.sets }
        ensures { IfSome result (λ e. CanJoin self.now s e × (joiner (state self.now) s x ≡ Ok e.number)) }
    {
        match self.hinted_of_class(self.layout.member_class(s), x, Hint::Next) {
            Some(place) => Some(EntityBlock {
                place,
                number: self.blocks.number(place, NUMBER),
            }),
            None => None,
        }
    }

    /// Whether x refers to an entity that may be in a set.
    #[inline(always)]
    pub fn look_member(&self, s: usize, x: i64) -> Result<(), FaultKind>
        requires kept { IsKept self.now }
        requires set { s < length self.now.layout.sets }
        ensures { result ≡ no_value (joiner (state self.now) s x) }
    {
        match self.joiner(s, x) {
            Ok(_) => Ok(()),
            Err(fault) => Err(fault),
        }
    }

    /// Whether o refers to an owner of a set.
    #[inline(always)]
    pub fn look_owner(&self, s: usize, o: i64) -> Result<(), FaultKind>
        requires kept { IsKept self.now }
        requires set { s < length self.now.layout.sets }
        ensures { result ≡ no_value (owner (state self.now) s o) }
    {
        match self.owner(s, o) {
            Ok(_) => Ok(()),
            Err(fault) => Err(fault),
        }
    }

    // The member that comes next to one in the set of an owner, 0 where there is none: at most two touches. None where it is
    // not in that set.
    #[inline(always)]
    fn neighbour(&mut self, s: usize, o: i64, member: EntityBlock, reverse: bool) -> Option<i64>
        requires kept { IsKept self.old }
        requires set { s < length self.old.layout.sets }
        requires joins { CanJoin self.old s member }
        requires touches { self.old.blocks.touches ≡ 0 }
        ensures found { IfSome result (λ y. (x : ℤ) → joiner (state self.old) s x ≡ Ok member.number → (member_test (state self.old) s o x ≡ Ok true) × ((if reverse then previous_in (state self.old) s x else next_in (state self.old) s x) ≡ Ok y)) }
        ensures gone { (owner_kind self.old.layout s ≡ System → o ≡ pos 0) → result ≡ None → (x : ℤ) → joiner (state self.old) s x ≡ Ok member.number → member_test (state self.old) s o x ≡ Ok true → ⊥ }
        ensures kept { IsKept self.new }
        ensures same { state self.new ≡ state self.old }
        ensures touches { (self.new.blocks.touches ≤ 2) × (self.new.blocks.total ≡ self.old.blocks.total + self.new.blocks.touches) }
    {
        let base = self.layout.member_base(s);
        let neighbour = self.blocks.follow(member.place, beside(base, reverse));
        if neighbour.number == member.number {
            return None;
        }
        let owner = self.blocks.follow(member.place, base + 2);
        if owner.number as i64 != o {
            return None;
        }
        self.pass(s, member, neighbour);
        Some(neighbour.number as i64)
    }

    // Remembers a member of a set, and that the one that follows it, if there is one, is likely to come next: where their class
    // is not permanent.
    #[inline(always)]
    pub fn pass(&mut self, s: usize, member: EntityBlock, next: EntityBlock)
        requires kept { IsKept self.old }
        requires set { s < length self.old.layout.sets }
        requires joins { CanJoin self.old s member }
        requires next { (next.number ≡ 0 → ⊥) → CanJoin self.old s next }
        ensures { self.new ≡ self.old }
    {
        if self.layout.holds_permanent(s) {
            return;
        }
        self.directory
            .remember(member.number as usize - 1, member.place);
        if next.number != 0 {
            self.directory.expect(next.number as usize - 1, next.place);
        }
    }

    /// Whose set x is in: at most two touches.
    pub fn owner_in(&mut self, s: usize, x: i64) -> Result<Option<i64>, FaultKind>
        requires kept { IsKept self.old }
        requires set { s < length self.old.layout.sets }
        requires touches { self.old.blocks.touches ≡ 0 }
        ensures value { result ≡ owner_of_member (state self.old) s x }
        ensures kept { IsKept self.new }
        ensures same { state self.new ≡ state self.old }
        ensures touches { (self.new.blocks.touches ≤ 2) × (IsOk result → 1 ≤ self.new.blocks.touches) × (self.new.blocks.total ≡ self.old.blocks.total + self.new.blocks.touches) }
    {
        match self.joiner(s, x) {
            Ok(member) => {
                if !self.is_filed(s, member) {
                    return Ok(None);
                }
                let base = self.layout.member_base(s);
                let owner = self.blocks.follow(member.place, base + 2);
                Ok(Some(owner.number as i64))
            }
            Err(fault) => Err(fault),
        }
    }
}

// Whether a number ranks strictly after another: the high come first, or the low.
#[inline(always)]
fn is_after(its: i64, own: i64, high: bool) -> bool
    ensures { result ≡ match_ordering (int_cmp its own) high false (not high) }
{
    if its < own {
        return high;
    }
    if own < its {
        return !high;
    }
    false
}

// Of two words side by side the first, which links to what comes first or follows, or in reverse the second.
#[inline(always)]
pub fn beside(base: usize, reverse: bool) -> usize
    requires { base < 2 ^ 32 }
    ensures { result ≡ (if reverse then base + 1 else base) }
{
    if reverse { base + 1 } else { base }
}

// A number, or 0 where it is that of the member itself: then it is in no set.
fn other_than(number: u64, member: u64) -> u64
    ensures same { number ≡ member → result ≡ 0 }
    ensures other { (number ≡ member → ⊥) → result ≡ number }
{
    if number == member { 0 } else { number }
}

/// Remembers a member of a set, where its class is not permanent.
#[inline(always)]
pub fn keep(directory: &mut Directory, layout: &LayoutPlan, s: usize, member: EntityBlock)
    requires set { s < length layout.now.sets }
    requires number { member.number ≡ 0 → ⊥ }
    requires entry { (IsPermanent (kind_of layout.now (member_class layout.now s)) → ⊥) → slice_get directory.old.places (member.number - 1) ≡ Some (Some member.place) }
    ensures { directory.new ≡ directory.old }
{
    if layout.holds_permanent(s) {
        return;
    }
    directory.remember(member.number as usize - 1, member.place);
}
