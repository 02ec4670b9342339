// Filing and removing.
ghost use Rattle.std.specs.Prelude.{◌≡◌, ℕ, ◌+◌, ◌<◌, ◌≤◌, ℤ, List, ◌∷◌, ◌++◌, length, false, true, if◌then◌else◌, Result, MatchResult, IsOk, Ok, Err};
ghost use Rattle.ss_world.specs.State.{State, and_then, is_filed, contains, members_of};
ghost use Rattle.ss_world.specs.Disciplines.{first_removed, last_removed, member_test};
ghost use Rattle.ss_world.specs.Sets.{joiner, owner, less, with_list_of, put_in, put_beside, taken_out, filed_first, filed_last, filed_before, filed_after, removed};
ghost use Rattle.ss_records_entities.specs.Parts.{IsKept, state, uncounted, IsOwnerBlock, CanJoin, AreNeighbours, before_end, after_end};

use crate::records::Records;
use crate::sets;
use ss_base::FaultKind;
use ss_records_blocks::{EntityBlock, LinkPosition};

// An owner of a set, and one that may be in the set.
#[derive(Clone, Copy)]
struct OwnerAndMember {
    owner: EntityBlock,
    x: EntityBlock,
}

// An owner of a set, and two that may be in the set.
#[derive(Clone, Copy)]
struct Triple {
    owner: EntityBlock,
    x: EntityBlock,
    y: EntityBlock,
}

// Two neighbours in a set between which there is a place for one more.
#[derive(Clone, Copy)]
struct Neighbours {
    before: EntityBlock,
    after: EntityBlock,
}

// The gap before a member, or after it, by the neighbour on that side. Either of the two may be the end of the set.
#[inline(always)]
fn gap_beside(member: EntityBlock, neighbour: EntityBlock, is_before: bool) -> Neighbours
    ensures before { result.before ≡ (if is_before then neighbour else member) }
    ensures after { result.after ≡ (if is_before then member else neighbour) }
{
    if is_before {
        return Neighbours {
            before: neighbour,
            after: member,
        };
    }
    Neighbours {
        before: member,
        after: neighbour,
    }
}

impl Records {
    // The entities that x and then o refer to.
    #[inline(always)]
    fn pair(&self, s: usize, o: i64, x: i64) -> Result<OwnerAndMember, FaultKind>
        requires kept { IsKept self.now }
        requires set { s < length self.now.layout.sets }
        ensures found { MatchResult result (λ p. IsOwnerBlock self.now s p.owner × CanJoin self.now s p.x × (joiner (state self.now) s x ≡ Ok p.x.number) × (owner (state self.now) s o ≡ Ok p.owner.number)) (λ f. (g : ℕ → ℕ → Result State FaultKind) → and_then (joiner (state self.now) s x) (λ n. and_then (owner (state self.now) s o) (g n)) ≡ Err f) }
    {
        match self.joiner(s, x) {
            Ok(x) => match self.owner(s, o) {
                Ok(owner) => Ok(OwnerAndMember { owner, x }),
                Err(fault) => Err(fault),
            },
            Err(fault) => Err(fault),
        }
    }

    // The entities that x, then y and then o refer to.
    fn triple(&self, s: usize, o: i64, x: i64, y: i64) -> Result<Triple, FaultKind>
        requires kept { IsKept self.now }
        requires set { s < length self.now.layout.sets }
        ensures found { MatchResult result (λ p. IsOwnerBlock self.now s p.owner × CanJoin self.now s p.x × CanJoin self.now s p.y × (joiner (state self.now) s x ≡ Ok p.x.number) × (joiner (state self.now) s y ≡ Ok p.y.number) × (owner (state self.now) s o ≡ Ok p.owner.number)) (λ f. (g : ℕ → ℕ → ℕ → Result State FaultKind) → and_then (joiner (state self.now) s x) (λ n. and_then (joiner (state self.now) s y) (λ k. and_then (owner (state self.now) s o) (g n k))) ≡ Err f) }
    {
        match self.joiner(s, x) {
            Ok(x) => match self.pair(s, o, y) {
                Ok(pair) => Ok(Triple {
                    owner: pair.owner,
                    x,
                    y: pair.x,
                }),
                Err(fault) => Err(fault),
            },
            Err(fault) => Err(fault),
        }
    }

    // Whether x is in the set of this owner: at most two touches.
    fn is_in(&mut self, s: usize, owner: EntityBlock, x: EntityBlock) -> bool
        requires kept { IsKept self.old }
        requires set { s < length self.old.layout.sets }
        requires owns { IsOwnerBlock self.old s owner }
        requires joins { CanJoin self.old s x }
        requires touches { self.old.blocks.touches ≤ 8 }
        ensures value { result ≡ contains (members_of self.old.notes.lists s owner.number) x.number }
        ensures same { self.new ≡ record self.old { blocks = self.new.blocks } }
        ensures cells { self.new.blocks.cells ≡ self.old.blocks.cells }
        ensures touches { (self.new.blocks.touches ≤ self.old.blocks.touches + 2) × (self.new.blocks.total + self.old.blocks.touches ≡ self.old.blocks.total + self.new.blocks.touches) }
    {
        if !self.is_filed(s, x) {
            return false;
        }
        let base = self.layout.member_base(s);
        let its_owner = self.blocks.follow(x.place, base + 2);
        its_owner.number == owner.number
    }

    // Links x into the set of an owner between two neighbours: seven touches.
    fn link_in(
        &mut self,
        s: usize,
        owner: EntityBlock,
        before: EntityBlock,
        x: EntityBlock,
        after: EntityBlock,
    )
        requires kept { IsKept self.old }
        requires set { s < length self.old.layout.sets }
        requires owns { IsOwnerBlock self.old s owner }
        requires joins { CanJoin self.old s x }
        requires free { is_filed self.old.notes.lists s x.number ≡ false }
        requires between { (xs : List ℕ) × (ys : List ℕ) × AreNeighbours self.old s owner.number before after xs ys }
        requires touches { self.old.blocks.touches ≤ 16 }
        ensures kept { IsKept self.new }
        ensures done { (xs : List ℕ) (ys : List ℕ) → AreNeighbours self.old s owner.number before after xs ys → state self.new ≡ with_list_of (state self.old) s owner.number (xs ++ x.number ∷ ys) }
        ensures touches { (self.new.blocks.touches ≡ self.old.blocks.touches + 7) × (self.new.blocks.total ≡ self.old.blocks.total + 7) }
    {
        let member = self.layout.member_base(s);
        let set = self.layout.owner_base(s);
        let count = self.blocks.count(owner.place, set + 2);
        let position = LinkPosition {
            owner: owner.place,
            before: before.place,
            is_first: before.number == 0,
            after: after.place,
            is_last: after.number == 0,
            count,
        };
        self.blocks.link_between(member, set, x.place, &position);
        self.notes
            .put_before(s, owner.number, x.number, after.number);
    }

    /// Files x last, or first.
    #[inline(always)]
    pub fn file_end(&mut self, s: usize, o: i64, x: i64, is_last: bool) -> Result<(), FaultKind>
        requires kept { IsKept self.old }
        requires set { s < length self.old.layout.sets }
        ensures kept { IsKept self.new }
        ensures done { MatchResult result (λ _. (if is_last then filed_last else filed_first) (state self.old) s o x ≡ Ok (state self.new)) (λ e. ((if is_last then filed_last else filed_first) (state self.old) s o x ≡ Err e) × (state self.new ≡ state self.old)) }
        ensures touches { (self.new.blocks.touches ≤ 12) × (IsOk result → 4 ≤ self.new.blocks.touches) × (self.new.blocks.total ≡ self.old.blocks.total + self.new.blocks.touches) }
    {
        match self.pair(s, o, x) {
            Ok(both) => self.put_end(s, both.owner, both.x, is_last),
            Err(fault) => {
                self.blocks.start();
                Err(fault)
            }
        }
    }

    /// Files x directly before y, or after it.
    pub fn file_beside(
        &mut self,
        s: usize,
        o: i64,
        x: i64,
        y: i64,
        is_before: bool,
    ) -> Result<(), FaultKind>
        requires kept { IsKept self.old }
        requires set { s < length self.old.layout.sets }
        requires touches { self.old.blocks.touches ≡ 0 }
        ensures kept { IsKept self.new }
        ensures done { MatchResult result (λ _. (if is_before then filed_before else filed_after) (state self.old) s o x y ≡ Ok (state self.new)) (λ e. ((if is_before then filed_before else filed_after) (state self.old) s o x y ≡ Err e) × (state self.new ≡ state self.old)) }
        ensures touches { (self.new.blocks.touches ≤ 12) × (IsOk result → 4 ≤ self.new.blocks.touches) × (self.new.blocks.total ≡ self.old.blocks.total + self.new.blocks.touches) }
    {
        match self.triple(s, o, x, y) {
            Ok(triple) => {
                let base = self.layout.member_base(s);
                if self.is_filed(s, triple.x) {
                    return Err(FaultKind::FiledTwice);
                }
                if !self.is_in(s, triple.owner, triple.y) {
                    return Err(FaultKind::NotFiled);
                }
                let word = sets::beside(base, is_before);
                let neighbour = self.blocks.follow(triple.y.place, word);
                let gap = gap_beside(triple.y, neighbour, is_before);
                self.link_in(s, triple.owner, gap.before, triple.x, gap.after);
                Ok(())
            }
            Err(fault) => Err(fault),
        }
    }

    /// Takes x out of a set.
    pub fn remove(&mut self, s: usize, o: i64, x: i64) -> Result<(), FaultKind>
        requires kept { IsKept self.old }
        requires set { s < length self.old.layout.sets }
        requires touches { self.old.blocks.touches ≡ 0 }
        ensures kept { IsKept self.new }
        ensures done { MatchResult result (λ _. removed (state self.old) s o x ≡ Ok (state self.new)) (λ e. (removed (state self.old) s o x ≡ Err e) × (state self.new ≡ state self.old)) }
        ensures touches { (self.new.blocks.touches ≤ 12) × (IsOk result → 4 ≤ self.new.blocks.touches) × (self.new.blocks.total ≡ self.old.blocks.total + self.new.blocks.touches) }
    {
        match self.pair(s, o, x) {
            Ok(pair) => {
                if !self.is_in(s, pair.owner, pair.x) {
                    return Err(FaultKind::NotFiled);
                }
                self.cut_out(s, pair.owner, pair.x);
                Ok(())
            }
            Err(fault) => Err(fault),
        }
    }

    // Takes a member out of the set that it is in: nine touches.
    fn cut_out(&mut self, s: usize, owner: EntityBlock, x: EntityBlock)
        requires kept { IsKept self.old }
        requires set { s < length self.old.layout.sets }
        requires owns { IsOwnerBlock self.old s owner }
        requires joins { CanJoin self.old s x }
        requires there { contains (members_of self.old.notes.lists s owner.number) x.number ≡ true }
        requires touches { self.old.blocks.touches ≤ 8 }
        ensures kept { IsKept self.new }
        ensures done { state self.new ≡ with_list_of (state self.old) s owner.number (less x.number (members_of self.old.notes.lists s owner.number)) }
        ensures touches { (self.new.blocks.touches ≡ self.old.blocks.touches + 9) × (self.new.blocks.total ≡ self.old.blocks.total + 9) }
    {
        let member = self.layout.member_base(s);
        let set = self.layout.owner_base(s);
        let before = self.blocks.follow(x.place, member + 1);
        let after = self.blocks.follow(x.place, member);
        let count = self.blocks.count(owner.place, set + 2);
        let position = LinkPosition {
            owner: owner.place,
            before: before.place,
            is_first: before.number == 0,
            after: after.place,
            is_last: after.number == 0,
            count,
        };
        self.blocks.unlink(member, set, x.place, &position);
        self.notes.take_out(s, owner.number, x.number);
    }

    /// Takes the last member out of a set, or the first, and answers it.
    #[inline(always)]
    pub fn remove_end(&mut self, s: usize, o: i64, is_last: bool) -> Result<i64, FaultKind>
        requires kept { IsKept self.old }
        requires set { s < length self.old.layout.sets }
        ensures kept { IsKept self.new }
        ensures done { MatchResult result (λ x. (if is_last then last_removed else first_removed) (state self.old) s o ≡ Ok (x, state self.new)) (λ e. ((if is_last then last_removed else first_removed) (state self.old) s o ≡ Err e) × (state self.new ≡ state self.old)) }
        ensures touches { (self.new.blocks.touches ≤ 12) × (self.new.blocks.total ≡ self.old.blocks.total + self.new.blocks.touches) }
    {
        match self.owner(s, o) {
            Ok(owner) => self.draw_end(s, owner, is_last),
            Err(fault) => {
                self.blocks.start();
                Err(fault)
            }
        }
    }

    // Links x in at an end of the set of an owner: after the last member, or before the first. Faults: 6 where it is in some set of the
    // name. The touches are counted at once.
    #[inline(always)]
    fn put_end(
        &mut self,
        s: usize,
        owner: EntityBlock,
        x: EntityBlock,
        is_last: bool,
    ) -> Result<(), FaultKind>
        requires kept { IsKept self.old }
        requires set { s < length self.old.layout.sets }
        requires owns { IsOwnerBlock self.old s owner }
        requires joins { CanJoin self.old s x }
        ensures kept { IsKept self.new }
        ensures done { MatchResult result (λ _. (is_filed self.old.notes.lists s x.number ≡ false) × (state self.new ≡ with_list_of (state self.old) s owner.number (before_end is_last (members_of self.old.notes.lists s owner.number) ++ x.number ∷ after_end is_last (members_of self.old.notes.lists s owner.number)))) (λ e. (e ≡ FaultKind.FiledTwice) × (is_filed self.old.notes.lists s x.number ≡ true) × (state self.new ≡ state self.old)) }
        ensures touches { (self.new.blocks.touches ≤ 12) × (IsOk result → 4 ≤ self.new.blocks.touches) × (self.new.blocks.total ≡ self.old.blocks.total + self.new.blocks.touches) }
    {
        let member = self.layout.member_base(s);
        let set = self.layout.owner_base(s);
        let next = self.blocks.look(x.place, member);
        if next.number != x.number {
            self.blocks.start_at(1);
            return Err(FaultKind::FiledTwice);
        }
        let word = sets::beside(set, is_last);
        let end = self.blocks.look(owner.place, word);
        let count = self.blocks.peek_count(owner.place, set + 2);
        let none = EntityBlock {
            place: self.system,
            number: 0,
        };
        let gap = gap_beside(none, end, is_last);
        let position = LinkPosition {
            owner: owner.place,
            before: gap.before.place,
            is_first: gap.before.number == 0,
            after: gap.after.place,
            is_last: gap.after.number == 0,
            count,
        };
        self.blocks.start_at(3);
        self.blocks.link_between(member, set, x.place, &position);
        self.notes
            .put_before(s, owner.number, x.number, gap.after.number);
        Ok(())
    }

    // Takes the member at an end out of the set of an owner, remembers it and answers it. Faults: 8 where there is none. The touches are
    // counted at once.
    #[inline(always)]
    fn draw_end(&mut self, s: usize, home: EntityBlock, is_last: bool) -> Result<i64, FaultKind>
        requires kept { IsKept self.old }
        requires set { s < length self.old.layout.sets }
        requires owns { IsOwnerBlock self.old s home }
        ensures kept { IsKept self.new }
        ensures done { MatchResult result (λ x. (o : ℤ) → owner (state self.old) s o ≡ Ok home.number → (if is_last then last_removed else first_removed) (state self.old) s o ≡ Ok (x, state self.new)) (λ e. ((o : ℤ) → owner (state self.old) s o ≡ Ok home.number → (if is_last then last_removed else first_removed) (state self.old) s o ≡ Err e) × (state self.new ≡ state self.old)) }
        ensures touches { (self.new.blocks.touches ≤ 12) × (self.new.blocks.total ≡ self.old.blocks.total + self.new.blocks.touches) }
    {
        let set = self.layout.owner_base(s);
        let member = self.layout.member_base(s);
        let word = sets::beside(set, is_last);
        let end = self.blocks.look(home.place, word);
        if end.number == 0 {
            self.blocks.start_at(1);
            return Err(FaultKind::EmptySet);
        }
        sets::keep(&mut self.directory, &self.layout, s, end);
        let link = sets::beside(member, is_last);
        let next = self.blocks.look(end.place, link);
        let count = self.blocks.peek_count(home.place, set + 2);
        let none = EntityBlock {
            place: self.system,
            number: 0,
        };
        let gap = gap_beside(none, next, is_last);
        let position = LinkPosition {
            owner: home.place,
            before: gap.before.place,
            is_first: gap.before.number == 0,
            after: gap.after.place,
            is_last: gap.after.number == 0,
            count,
        };
        self.blocks.start_at(3);
        self.blocks.unlink(member, set, end.place, &position);
        self.notes.take_out(s, home.number, end.number);
        Ok(end.number as i64)
    }

    /// Whether x is in the set of an owner: at most two touches.
    pub fn has(&mut self, s: usize, o: i64, x: i64) -> Result<bool, FaultKind>
        requires kept { IsKept self.old }
        requires set { s < length self.old.layout.sets }
        requires touches { self.old.blocks.touches ≡ 0 }
        ensures value { result ≡ member_test (state self.old) s o x }
        ensures kept { IsKept self.new }
        ensures same { state self.new ≡ state self.old }
        ensures touches { (self.new.blocks.touches ≤ 2) × (self.new.blocks.total ≡ self.old.blocks.total + self.new.blocks.touches) }
    {
        match self.pair(s, o, x) {
            Ok(pair) => Ok(self.is_in(s, pair.owner, pair.x)),
            Err(fault) => Err(fault),
        }
    }
}
