// Where the block of an entity lies, by its number.
ghost use Rattle.std.specs.Prelude.{◌≡◌, ℕ, suc, ◌+◌, ◌^◌, ◌<◌, ◌≤◌, length, MatchResult, MatchOption, IfSome, IsErr, Ok, Err, Some, None, false, slice_get};
ghost use Rattle.ss_base.specs.declared.fault.FaultKind.{FaultKind as FaultSeen};
ghost use Rattle.ss_world.specs.State.{entity_in, notice, numbered_record, and_then, of_class, kind_of, is_notice, in_a_set, owns_members, destroyed};
ghost use Rattle.ss_records_blocks.specs.Cells.{words_at};
ghost use Rattle.ss_records_words.specs.Reading.{record_of};
ghost use Rattle.ss_records_words.specs.Shape.{count_sets, joins, owned_by, set_places};
ghost use Rattle.ss_records_blocks.specs.Places.{row_in};
ghost use Rattle.ss_records_words.specs.Kept.{numbered_place, indexed_place, IsPermanent};
ghost use Rattle.ss_records_words.specs.Places.{class_at_place};
ghost use Rattle.ss_records_entities.specs.Parts.{IsKept, state, IsEntityPlace, IsNoticePlace};
ghost use Rattle.ss_records_entities.specs.Classed.{HasClass};

use crate::records::Records;
use ss_base::{ClassKind, FaultKind, Owner};
use ss_records_blocks::{BlockPlace, CLASS};

/// Where the block of an entity is looked for without a search.
#[derive(Clone, Copy)]
pub enum Hint {
    /// Wherever its number is found without one.
    Near,
    /// Where an entity was met last.
    Last,
    /// Where one is likely to come next.
    Next,
}

impl Records {
    // The block of a creation number.
    #[inline(always)]
    fn numbered(&self, r: i64) -> Result<BlockPlace, FaultKind>
        requires kept { IsKept self.now }
        ensures { result ≡ numbered_place self.now.directory.places r }
    {
        match self.hinted(r, Hint::Near) {
            Some(place) => Ok(place),
            None => self.numbered_apart(r),
        }
    }

    // Does the work of `numbered` where it may take a search, or there is a fault.
    #[cold]
    #[inline(never)]
    fn numbered_apart(&self, r: i64) -> Result<BlockPlace, FaultKind>
        ensures { result ≡ numbered_place self.now.directory.places r }
    {
        if r == 0 {
            return Err(FaultKind::NoEntity);
        }
        if r < 0 {
            return Err(FaultKind::NeverCreated);
        }
        let i = r as usize - 1;
        if i >= self.directory.len() {
            return Err(FaultKind::NeverCreated);
        }
        match self.directory.get(i) {
            Some(place) => Ok(place),
            None => Err(FaultKind::DestroyedEntity),
        }
    }

    /// The block of an entity of a class. What is out of line answers one word: the block that a search finds, or the fault.
    #[inline(always)]
    pub fn find(&self, class: usize, r: i64) -> Result<BlockPlace, FaultKind>
        requires kept { IsKept self.now }
        requires class { class < length self.now.layout.classes }
        ensures found { MatchResult result (λ p. IsEntityPlace self.now class r p) (λ e. entity_in (state self.now) class r ≡ Err e) }
    {
        match self.hinted_of_class(class, r, Hint::Last) {
            Some(place) => Ok(place),
            None => match self.layout.kind(class) {
                ClassKind::Permanent => self.indexed(class, r),
                ClassKind::Temporary | ClassKind::Notice => match self.search(class, r) {
                    Some(place) => Ok(place),
                    None => Err(self.missing(class, r)),
                },
            },
        }
    }

    // The block of an entity of a class whose entities come and go one by one, if there is one.
    #[inline(never)]
    fn search(&self, class: usize, r: i64) -> Option<BlockPlace>
        requires kept { IsKept self.now }
        ensures { MatchOption result (IsErr (and_then (numbered_record (state self.now) r) (of_class class))) (λ p. IsEntityPlace self.now class r p) }
    {
        match self.of_class(class, r) {
            Ok(place) => Some(place),
            Err(_) => None,
        }
    }

    // The fault of a number that is no entity of a class whose entities come and go one by one.
    #[cold]
    #[inline(never)]
    fn missing(&self, class: usize, r: i64) -> FaultKind
        requires kept { IsKept self.now }
        requires none { IsErr (and_then (numbered_record (state self.now) r) (of_class class)) }
        ensures { and_then (numbered_record (state self.now) r) (of_class class) ≡ Err result }
    {
        match self.of_class(class, r) {
            Ok(_) => FaultKind::NoEntity,
            Err(fault) => fault,
        }
    }

    // Whether an entity is in a set.
    #[inline(always)]
    fn in_a_set(&mut self, class: usize, place: BlockPlace, number: u64) -> bool
        requires kept { IsKept self.old }
        requires entry { (i : ℕ) × (slice_get self.old.directory.places i ≡ Some (Some place)) × (number ≡ suc i) }
        requires class { class_at_place self.old.blocks.cells place ≡ class }
        requires touches { self.old.blocks.touches ≤ 2 ^ 32 }
        ensures value { result ≡ in_a_set self.old.layout.sets 0 self.old.notes.lists class number }
        ensures same { self.new ≡ record self.old { blocks = self.new.blocks } }
        ensures cells { self.new.blocks.cells ≡ self.old.blocks.cells }
        ensures touches { (self.new.blocks.touches ≤ self.old.blocks.touches + 1048576) × (self.new.blocks.total + self.old.blocks.touches ≡ self.old.blocks.total + self.new.blocks.touches) }
        ensures looked { self.new.blocks.touches ≤ self.old.blocks.touches + count_sets (joins class) self.old.layout.sets }
    {
        let end = self.layout.owned_start(Owner::Class(class));
        let mut k = self.layout.links_start(class);
        'links: while k < end {
            let next = self.blocks.follow(place, k);
            if next.number != number {
                return true;
            }
            k += 3;
        }
        false
    }

    // Whether an entity has members in a set.
    #[inline(always)]
    fn owns_members(&mut self, class: usize, place: BlockPlace, number: u64) -> bool
        requires kept { IsKept self.old }
        requires entry { (i : ℕ) × (slice_get self.old.directory.places i ≡ Some (Some place)) × (number ≡ suc i) }
        requires class { class_at_place self.old.blocks.cells place ≡ class }
        requires touches { self.old.blocks.touches ≤ 2 ^ 33 }
        ensures value { result ≡ owns_members self.old.layout.sets 0 self.old.notes.lists class number }
        ensures same { self.new ≡ record self.old { blocks = self.new.blocks } }
        ensures cells { self.new.blocks.cells ≡ self.old.blocks.cells }
        ensures touches { (self.new.blocks.touches ≤ self.old.blocks.touches + 1048576) × (self.new.blocks.total + self.old.blocks.touches ≡ self.old.blocks.total + self.new.blocks.touches) }
        ensures looked { self.new.blocks.touches ≤ self.old.blocks.touches + count_sets (owned_by (Owner.Class class)) self.old.layout.sets }
    {
        let mut left = self.layout.owned_count(Owner::Class(class));
        if left == 0 {
            return false;
        }
        for s in 0..self.layout.names() {
            if self.layout.is_owner(s, class) {
                if self.owns_in(s, place, number) {
                    return true;
                }
                left -= 1;
                if left == 0 {
                    return false;
                }
            }
        }
        false
    }

    // The block of an entity that is in no set and has no members, of a class whose entities come and go one by one.
    #[inline(always)]
    pub(crate) fn find_free(&mut self, class: usize, r: i64) -> Result<BlockPlace, FaultKind>
        requires kept { IsKept self.old }
        requires class { class < length self.old.layout.classes }
        requires kind { IsPermanent (kind_of self.old.layout class) → ⊥ }
        requires touches { self.old.blocks.touches ≡ 0 }
        ensures found { MatchResult result (λ p. (f : IsEntityPlace self.old class r p) × (in_a_set self.old.layout.sets 0 self.old.notes.lists class (suc f.index) ≡ false) × (owns_members self.old.layout.sets 0 self.old.notes.lists class (suc f.index) ≡ false)) (λ e. destroyed (state self.old) class r ≡ Err e) }
        ensures same { self.new ≡ record self.old { blocks = self.new.blocks } }
        ensures cells { self.new.blocks.cells ≡ self.old.blocks.cells }
        ensures touches { self.new.blocks.total + self.old.blocks.touches ≡ self.old.blocks.total + self.new.blocks.touches }
        ensures looked { self.new.blocks.touches ≤ set_places self.old.layout (Owner.Class class) }
    {
        match self.find(class, r) {
            Ok(place) => {
                let number = r as u64;
                if self.in_a_set(class, place, number) {
                    return Err(FaultKind::InASet);
                }
                if self.owns_members(class, place, number) {
                    return Err(FaultKind::OwnsMembers);
                }
                Ok(place)
            }
            Err(fault) => Err(fault),
        }
    }

    // The block of an index of a permanent class.
    #[inline(always)]
    fn indexed(&self, class: usize, r: i64) -> Result<BlockPlace, FaultKind>
        requires class { class < length self.now.permanents.items }
        ensures { result ≡ indexed_place (row_in (slice_get self.now.permanents.items class)) r }
    {
        if r < 1 {
            return Err(FaultKind::Index);
        }
        let places = self.permanents[class].places();
        match places.get(r as usize - 1) {
            Some(place) => Ok(*place),
            None => Err(FaultKind::Index),
        }
    }

    // The block of a creation number of a class.
    #[inline(always)]
    fn of_class(&self, class: usize, r: i64) -> Result<BlockPlace, FaultKind>
        requires kept { IsKept self.now }
        ensures found { MatchResult result (λ p. (numbered_place self.now.directory.places r ≡ Ok p) × (class_at_place self.now.blocks.cells p ≡ class) × (and_then (numbered_record (state self.now) r) (of_class class) ≡ Ok (record_of self.now.layout (words_at self.now.blocks.cells p.at)))) (λ e. and_then (numbered_record (state self.now) r) (of_class class) ≡ Err e) }
    {
        match self.numbered(r) {
            Ok(place) => {
                if self.blocks.number(place, CLASS) == class as u64 {
                    Ok(place)
                } else {
                    Err(FaultKind::WrongClass)
                }
            }
            Err(fault) => Err(fault),
        }
    }

    /// The class of the entity of a creation number, if it is living.
    #[inline(always)]
    pub fn class_of(&self, r: i64) -> Option<usize>
        requires kept { IsKept self.now }
        ensures found { IfSome result (λ c. HasClass (state self.now) r c) }
        ensures none { result ≡ None → (kind : FaultSeen) × (numbered_record (state self.now) r ≡ Err kind) }
    {
        match self.hinted(r, Hint::Last) {
            Some(place) => Some(self.blocks.number(place, CLASS) as usize),
            None => self.class_apart(r),
        }
    }

    // Does the work of `class_of` where it takes a search.
    #[cold]
    #[inline(never)]
    fn class_apart(&self, r: i64) -> Option<usize>
        requires kept { IsKept self.now }
        ensures found { IfSome result (λ c. HasClass (state self.now) r c) }
        ensures none { result ≡ None → (kind : FaultSeen) × (numbered_record (state self.now) r ≡ Err kind) }
    {
        match self.numbered(r) {
            Ok(place) => Some(self.blocks.number(place, CLASS) as usize),
            Err(_) => None,
        }
    }

    /// The block of a creation number of a class, where a hint leads to it.
    #[inline(always)]
    pub fn hinted_of_class(&self, class: usize, r: i64, hint: Hint) -> Option<BlockPlace>
        requires kept { IsKept self.now }
        requires class { class < length self.now.layout.classes }
        ensures { IfSome result (λ p. IsEntityPlace self.now class r p) }
    {
        match self.hinted(r, hint) {
            Some(place) => {
                if self.blocks.number(place, CLASS) == class as u64 {
                    Some(place)
                } else {
                    None
                }
            }
            None => None,
        }
    }

    // The block of a creation number, where a hint leads to it.
    #[inline(always)]
    fn hinted(&self, r: i64, hint: Hint) -> Option<BlockPlace>
        requires kept { IsKept self.now }
        ensures { IfSome result (λ p. numbered_place self.now.directory.places r ≡ Ok p) }
    {
        let i = r.cast_unsigned().wrapping_sub(1);
        match hint {
            Hint::Near => self.directory.near(i as usize),
            Hint::Last => self.directory.remembered(i as usize),
            Hint::Next => self.directory.expected(i as usize),
        }
    }

    /// Remembers the entity of a number, if it is found without a search.
    #[inline(always)]
    pub fn meet(&mut self, r: i64)
        ensures { self.new ≡ self.old }
    {
        let i = r.cast_unsigned().wrapping_sub(1);
        self.directory.meet(i as usize);
    }

    /// The block of a notice of any class.
    pub fn find_notice(&self, r: i64) -> Result<BlockPlace, FaultKind>
        requires kept { IsKept self.now }
        ensures found { MatchResult result (λ p. IsNoticePlace self.now r p) (λ e. notice (state self.now) r ≡ Err e) }
    {
        match self.numbered(r) {
            Ok(place) => {
                if self.is_notice(self.blocks.number(place, CLASS)) {
                    Ok(place)
                } else {
                    Err(FaultKind::WrongClass)
                }
            }
            Err(fault) => Err(fault),
        }
    }

    /// The block of a notice of any class, where it is found without a search.
    #[inline(always)]
    pub fn near_notice(&self, r: i64) -> Option<BlockPlace>
        requires kept { IsKept self.now }
        ensures { IfSome result (λ p. IsNoticePlace self.now r p) }
    {
        match self.hinted(r, Hint::Near) {
            Some(place) => {
                if self.is_notice(self.blocks.number(place, CLASS)) {
                    Some(place)
                } else {
                    None
                }
            }
            None => None,
        }
    }

    // Whether a class is one of notices.
    fn is_notice(&self, class: u64) -> bool
        ensures { result ≡ is_notice (kind_of self.now.layout class) }
    {
        let layout = self.layout.layout();
        match layout.classes.get(class as usize) {
            Some(class) => matches!(class.kind, ClassKind::Notice),
            None => false,
        }
    }
}
