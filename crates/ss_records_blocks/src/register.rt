// Where the block of each creation number lies, in pages.
ghost use Rattle.std.specs.Prelude.{◌≡◌, ℕ, ◌+◌, ◌*◌, ◌/◌, ◌^◌, ◌<◌, ◌≤◌, ◌++◌, [], ◌∷◌, length, nat_eq, false, Some, None, IfSome, slice_get, slice_set, MatchResult, ⊤};
ghost use Rattle.ss_records_blocks.specs.declared.store.BlockPlace.{BlockPlace};
ghost use Rattle.ss_records_blocks.specs.Places.{living_count};
ghost use Rattle.ss_records_blocks.specs.Pages.{in_page};

use crate::page::{PAGE, Page};
use crate::pages::PageMap;
use crate::store::BlockPlace;
use std::alloc::{AllocError, Global};
use std::marker::Model;

/// A contract sees the place of each number, none where it is destroyed. The page of the next number is held
/// always, an earlier one as long as one of its numbers is living.
#[derive(Drop)]
pub(crate) struct Register {
    alloc: Global,
    earlier: PageMap,
    current: Page,
    start: usize,
    issued: usize,
}

impl Model for Register {
    ghost use Rattle.std.specs.Prelude.{◌+◌, length};
    ghost use Rattle.ss_records_blocks.specs.Pages.{Listed, IsPaged, entry, tabulate};

    ghost Value = { Listed };

    ghost view = { λ d. record { places = tabulate (entry d.earlier d.current d.start) d.issued; pages = length d.earlier + 1; start = d.start } };

    ghost invariant = { λ d. IsPaged d.earlier d.current d.start d.issued };
}

impl Register {
    /// A directory without a number.
    pub(crate) fn new(alloc: Global) -> Result<Register, AllocError>
        ensures { MatchResult result (λ d. d.places ≡ []) (λ _. ⊤) }
    {
        let current = Page::new(alloc)?;
        Ok(Register {
            alloc,
            earlier: PageMap::new(alloc),
            current,
            start: 0,
            issued: 0,
        })
    }

    /// How many numbers were issued.
    pub(crate) fn len(&self) -> usize
        ensures { result ≡ length self.now.places }
    {
        self.issued
    }

    /// How many pages are held: at most one more than numbers are living.
    pub(crate) fn pages(&self) -> usize
        ensures value { result ≡ self.now.pages }
        ensures bound { result ≤ living_count self.now.places + 1 }
    {
        self.earlier.len() + 1
    }

    /// How many stretches of a page's numbers hold all numbers.
    pub(crate) fn stretches(&self) -> usize
        ensures all { length self.now.places ≤ result * 256 }
        ensures few { result * 256 ≤ length self.now.places + 256 }
    {
        self.issued / PAGE + 1
    }

    /// Whether the page of a stretch is held: where it is not, no number of it is living.
    #[inline(never)]
    pub(crate) fn holds(&self, stretch: usize) -> bool
        ensures { result ≡ false → (i : ℕ) → i / 256 ≡ stretch → in_page (slice_get self.now.places i) ≡ None }
    {
        if stretch >= self.start / PAGE {
            return true;
        }
        match self.earlier.get(stretch) {
            Some(_) => true,
            None => false,
        }
    }

    /// The place of a number, none also where it was not issued.
    pub(crate) fn place_of(&self, i: usize) -> Option<BlockPlace>
        ensures { result ≡ in_page (slice_get self.now.places i) }
    {
        if i >= self.issued {
            return None;
        }
        self.get(i)
    }

    /// The entry i, from 0 on.
    #[inline(always)]
    pub(crate) fn get(&self, i: usize) -> Option<BlockPlace>
        requires { i < length self.now.places }
        ensures { slice_get self.now.places i ≡ Some result }
    {
        if i >= self.start {
            return self.current.get(i - self.start);
        }
        match self.earlier.get(i / PAGE) {
            Some(page) => page.get(i % PAGE),
            None => None,
        }
    }

    /// The entry i, from 0 on, where it is found without a search and is not destroyed.
    #[inline(always)]
    pub(crate) fn near(&self, i: usize) -> Option<BlockPlace>
        ensures { IfSome result (λ p. slice_get self.now.places i ≡ Some (Some p)) }
    {
        let k = i.wrapping_sub(self.start);
        if k < PAGE {
            return self.current.get(k);
        }
        match self.earlier.near(i / PAGE) {
            Some(page) => page.get(i % PAGE),
            None => None,
        }
    }

    /// The place of the next number.
    #[inline(always)]
    pub(crate) fn push(&mut self, place: BlockPlace) -> Result<(), AllocError>
        requires room { length self.old.places < 2 ^ 62 }
        ensures { MatchResult result (λ _. self.new.places ≡ self.old.places ++ Some place ∷ []) (λ _. self.new.places ≡ self.old.places) }
    {
        if self.is_full() {
            self.turn()?;
        }
        self.note(place);
        Ok(())
    }

    // Whether the current page has taken its last number.
    fn is_full(&self) -> bool
        ensures value { result ≡ nat_eq (length self.now.places) (self.now.start + 256) }
        ensures bound { length self.now.places ≤ self.now.start + 256 }
    {
        self.issued - self.start == PAGE
    }

    // Notes the place of the next number, where the current page has room.
    fn note(&mut self, place: BlockPlace)
        requires free { length self.old.places < self.old.start + 256 }
        requires room { length self.old.places < 2 ^ 62 }
        ensures { self.new.places ≡ self.old.places ++ Some place ∷ [] }
    {
        let k = self.issued - self.start;
        self.current.set(k, place);
        self.issued += 1;
    }

    // Makes the page of the next number, where the current one is full. One without a living number serves again.
    #[inline(never)]
    fn turn(&mut self) -> Result<(), AllocError>
        requires full { length self.old.places ≡ self.old.start + 256 }
        requires room { length self.old.places < 2 ^ 62 }
        ensures { MatchResult result (λ _. (self.new.places ≡ self.old.places) × (length self.new.places < self.new.start + 256)) (λ _. self.new.places ≡ self.old.places) }
    {
        if self.current.is_empty() {
            self.start += PAGE;
            return Ok(());
        }
        let page = Page::new(self.alloc)?;
        self.earlier
            .push(self.start / PAGE, &mut self.current, page)?;
        self.start += PAGE;
        Ok(())
    }

    /// Removes the entry i.
    #[inline(always)]
    pub(crate) fn clear(&mut self, i: usize)
        requires { (p : BlockPlace) × (slice_get self.old.places i ≡ Some (Some p)) }
        ensures { self.new.places ≡ slice_set self.old.places i None }
    {
        if i >= self.start {
            self.clear_current(i);
        } else {
            self.clear_earlier(i);
        }
    }

    // Removes an entry of the current page.
    #[inline(always)]
    fn clear_current(&mut self, i: usize)
        requires there { (p : BlockPlace) × (slice_get self.old.places i ≡ Some (Some p)) }
        requires current { self.old.start ≤ i }
        ensures { self.new.places ≡ slice_set self.old.places i None }
    {
        let k = i - self.start;
        self.current.clear(k);
    }

    // Removes an entry of an earlier page, and gives the page back where none of its numbers is living.
    #[inline(always)]
    fn clear_earlier(&mut self, i: usize)
        requires there { (p : BlockPlace) × (slice_get self.old.places i ≡ Some (Some p)) }
        requires earlier { i < self.old.start }
        ensures { self.new.places ≡ slice_set self.old.places i None }
    {
        let number = i / PAGE;
        if self.earlier.clear(number, i % PAGE) {
            self.earlier.remove(number);
        }
    }
}
