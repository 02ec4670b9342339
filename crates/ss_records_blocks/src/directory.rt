// Where the block of each creation number lies, and two numbers whose places are remembered.
ghost use Rattle.std.specs.Prelude.{◌≡◌, ℕ, ◌+◌, ◌*◌, ◌/◌, ◌^◌, ◌<◌, ◌≤◌, ◌++◌, [], ◌∷◌, length, false, Some, None, IfSome, slice_get, slice_set, MatchResult, ⊤};
ghost use Rattle.ss_records_blocks.specs.declared.store.BlockPlace.{BlockPlace};
ghost use Rattle.ss_records_blocks.specs.Places.{living_count};
ghost use Rattle.ss_records_blocks.specs.Pages.{in_page};

use crate::register::Register;
use crate::store::BlockPlace;
use std::alloc::{AllocError, Global};
use std::marker::Model;
use std::ptr;

/// A contract sees the place of each number, none where it is destroyed. The number that was met last is remembered with its
/// place, and one that is likely to come next: both are a matter of speed alone, and no contract sees them.
#[derive(Drop)]
pub struct Directory {
    register: Register,
    recent: usize,
    is_met: bool,
    place: BlockPlace,
    coming: usize,
    is_expected: bool,
    next_place: BlockPlace,
}

impl Model for Directory {
    ghost use Rattle.std.specs.Prelude.{◌≡◌, Some, true, slice_get};
    ghost use Rattle.ss_records_blocks.specs.Pages.{Listed};

    ghost Value = { Listed };

    ghost view = { λ d. d.register };

    ghost invariant = { λ d. (d.is_met ≡ true → slice_get d.register.places d.recent ≡ Some (Some d.place)) × (d.is_expected ≡ true → slice_get d.register.places d.coming ≡ Some (Some d.next_place)) };
}

impl Directory {
    /// No number. The error comes where memory was refused.
    pub fn new(alloc: Global) -> Result<Directory, AllocError>
        ensures { MatchResult result (λ d. d.places ≡ []) (λ _. ⊤) }
    {
        let register = Register::new(alloc)?;
        Ok(Directory {
            register,
            recent: 0,
            is_met: false,
            place: BlockPlace {
                at: ptr::null_mut(),
            },
            coming: 0,
            is_expected: false,
            next_place: BlockPlace {
                at: ptr::null_mut(),
            },
        })
    }

    /// How many numbers were issued.
    pub fn len(&self) -> usize
        ensures { result ≡ length self.now.places }
    {
        self.register.len()
    }

    /// How many pages are held: at most one more than numbers are living.
    pub fn pages(&self) -> usize
        ensures value { result ≡ self.now.pages }
        ensures bound { result ≤ living_count self.now.places + 1 }
    {
        self.register.pages()
    }

    /// How many stretches of a page's numbers hold all numbers.
    pub fn stretches(&self) -> usize
        ensures all { length self.now.places ≤ result * 256 }
        ensures few { result * 256 ≤ length self.now.places + 256 }
    {
        self.register.stretches()
    }

    /// Whether the page of a stretch is held: where it is not, no number of it is living.
    pub fn holds(&self, stretch: usize) -> bool
        ensures { result ≡ false → (i : ℕ) → i / 256 ≡ stretch → in_page (slice_get self.now.places i) ≡ None }
    {
        self.register.holds(stretch)
    }

    /// The place of a number, none also where it was not issued.
    pub fn place_of(&self, i: usize) -> Option<BlockPlace>
        ensures { result ≡ in_page (slice_get self.now.places i) }
    {
        self.register.place_of(i)
    }

    /// The entry i, from 0 on.
    #[inline(always)]
    pub fn get(&self, i: usize) -> Option<BlockPlace>
        requires { i < length self.now.places }
        ensures { slice_get self.now.places i ≡ Some result }
    {
        self.register.get(i)
    }

    /// The entry i, from 0 on, where it is the one that was met last, and is not destroyed.
    #[inline(always)]
    pub fn remembered(&self, i: usize) -> Option<BlockPlace>
        ensures { IfSome result (λ p. slice_get self.now.places i ≡ Some (Some p)) }
    {
        if i == self.recent && self.is_met {
            Some(self.place)
        } else {
            None
        }
    }

    /// The entry i, from 0 on, where it is the one that is likely to come next, and is not destroyed.
    #[inline(always)]
    pub fn expected(&self, i: usize) -> Option<BlockPlace>
        ensures { IfSome result (λ p. slice_get self.now.places i ≡ Some (Some p)) }
    {
        if i == self.coming && self.is_expected {
            Some(self.next_place)
        } else {
            None
        }
    }

    /// The entry i, from 0 on, where it is found without a search and is not destroyed.
    #[inline(always)]
    pub fn near(&self, i: usize) -> Option<BlockPlace>
        ensures { IfSome result (λ p. slice_get self.now.places i ≡ Some (Some p)) }
    {
        match self.remembered(i) {
            Some(place) => Some(place),
            None => self.register.near(i),
        }
    }

    /// Remembers the entry i, which is met.
    #[inline(always)]
    pub fn remember(&mut self, i: usize, place: BlockPlace)
        requires { slice_get self.old.places i ≡ Some (Some place) }
        ensures { self.new ≡ self.old }
    {
        self.recent = i;
        self.is_met = true;
        self.place = place;
    }

    /// Remembers the entry i, which is likely to come next.
    #[inline(always)]
    pub fn expect(&mut self, i: usize, place: BlockPlace)
        requires { slice_get self.old.places i ≡ Some (Some place) }
        ensures { self.new ≡ self.old }
    {
        self.coming = i;
        self.is_expected = true;
        self.next_place = place;
    }

    /// Remembers the entry i, from 0 on, where it is found without a search and is not destroyed.
    #[inline(always)]
    pub fn meet(&mut self, i: usize)
        ensures { self.new ≡ self.old }
    {
        if let Some(place) = self.near(i) {
            self.remember(i, place);
        }
    }

    /// The place of the next number, which is remembered. After the error, which comes where memory was refused, the
    /// places are as they were.
    #[inline(always)]
    pub fn push(&mut self, place: BlockPlace) -> Result<(), AllocError>
        requires room { length self.old.places < 2 ^ 62 }
        ensures { MatchResult result (λ _. self.new.places ≡ self.old.places ++ Some place ∷ []) (λ _. self.new.places ≡ self.old.places) }
    {
        let i = self.register.len();
        self.register.push(place)?;
        self.recent = i;
        self.is_met = true;
        self.place = place;
        Ok(())
    }

    /// Removes the entry i. Its number still counts as issued.
    #[inline(always)]
    pub fn clear(&mut self, i: usize)
        requires { (p : BlockPlace) × (slice_get self.old.places i ≡ Some (Some p)) }
        ensures { self.new.places ≡ slice_set self.old.places i None }
    {
        self.register.clear(i);
        if i == self.recent {
            self.is_met = false;
        }
        if i == self.coming {
            self.is_expected = false;
        }
    }
}
