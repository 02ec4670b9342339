// The pages of a directory by their numbers.
ghost use Rattle.std.specs.Prelude.{◌≡◌, ℕ, ◌+◌, ◌^◌, ◌<◌, ◌++◌, [], ◌∷◌, List, length, cond, true, nat_eq, Option, Some, None, IfSome, slice_get, slice_set, MatchOption, MatchResult, option_copied};
ghost use Rattle.std.specs.Ordering.{nat_cmp};
ghost use Rattle.std.specs.BTreeMap.{is_at};
ghost use Rattle.std.specs.Map.{set_value, remove_entry};
ghost use Rattle.ss_records_blocks.specs.Pages.{page_of, under, pages_held, AreRising};
ghost use Rattle.ss_records_blocks.specs.declared.store.BlockPlace.{BlockPlace};
ghost use Rattle.ss_records_blocks.specs.Places.{living_count};

use crate::page::Page;
use std::alloc::{AllocError, Global};
use std::marker::Model;
use std::mem;

/// An ordered map from numbers to pages. A contract sees the list of both. Its pages are in a row of spots in rising order of
/// their numbers. A page that is given back leaves an empty spot, so that no other page moves. Empty spots go before a new page
/// comes, once they are more than half.
#[derive(Drop)]
pub(crate) struct PageMap {
    spots: Vec<(usize, Option<Page>)>,
    missing: usize,
    empty: usize,
}

impl Model for PageMap {
    ghost use Rattle.std.specs.Prelude.{◌≡◌, ◌+◌, length};
    ghost use Rattle.ss_records_blocks.specs.Pages.{Pages, AreRising, pages_held};

    ghost Value = { Pages };

    ghost view = { λ m. pages_held m.spots.items };

    ghost invariant = { λ m. AreRising m.spots.items × (m.empty + length (pages_held m.spots.items) ≡ length m.spots.items) };
}

impl PageMap {
    /// A map without a page.
    pub(crate) fn new(alloc: Global) -> PageMap
        ensures { result ≡ [] }
    {
        PageMap {
            spots: Vec::new(alloc),
            missing: 0,
            empty: 0,
        }
    }

    /// How many pages there are.
    pub(crate) fn len(&self) -> usize
        ensures value { result ≡ length self.now }
        ensures small { result < 2 ^ 63 }
        ensures found { (k q : ℕ) (page : List (Option BlockPlace)) → slice_get self.now k ≡ Some (q, page) → page_of self.now q ≡ Some page }
    {
        self.spots.len() - self.empty
    }

    /// The page of a number.
    #[inline(always)]
    pub(crate) fn get(&self, number: usize) -> Option<&Page>
        ensures { option_copied result ≡ page_of self.now number }
    {
        match spot(&self.spots, self.missing, number) {
            Some(k) => self.spots[k].1.as_ref(),
            None => None,
        }
    }

    /// The page of a number, where one of two guesses finds it.
    #[inline(always)]
    pub(crate) fn near(&self, number: usize) -> Option<&Page>
        ensures { IfSome (option_copied result) (λ page. page_of self.now number ≡ Some page) }
    {
        match guessed(&self.spots, self.missing, number) {
            Some(k) => self.spots[k].1.as_ref(),
            None => None,
        }
    }

    /// Takes in a page with a number above all others, and leaves the next page in its place. After an error all is as
    /// it was.
    pub(crate) fn push(
        &mut self,
        number: usize,
        page: &mut Page,
        next: Page,
    ) -> Result<(), AllocError>
        requires above { (q : ℕ) (p : List (Option BlockPlace)) → page_of self.old q ≡ Some p → q < number }
        ensures { MatchResult result (λ _. (self.new ≡ self.old ++ (number, page.old) ∷ []) × (page.new ≡ next)) (λ _. (self.new ≡ self.old) × (page.new ≡ page.old)) }
    {
        self.empty = tidy(&mut self.spots, self.empty, number);
        self.spots.reserve(1)?;
        let full = mem::replace(page, next);
        self.missing = number.wrapping_sub(self.spots.len());
        self.spots.push_reserved((number, Some(full)));
        Ok(())
    }

    /// Removes the entry k of a page, and says whether the page is empty then.
    #[inline(always)]
    pub(crate) fn clear(&mut self, number: usize, k: usize) -> bool
        requires there { (page : List (Option BlockPlace)) × (p : BlockPlace) × (page_of self.old number ≡ Some page) × (slice_get page k ≡ Some (Some p)) }
        ensures cleared { (page : List (Option BlockPlace)) → page_of self.old number ≡ Some page → (self.new ≡ set_value (is_at (nat_cmp number)) self.old (slice_set page k None)) × ((q : ℕ) → page_of self.new q ≡ cond (is_at (nat_cmp number) q) (Some (slice_set page k None)) (page_of self.old q)) }
        ensures empty { (page : List (Option BlockPlace)) → page_of self.old number ≡ Some page → result ≡ nat_eq (living_count (slice_set page k None)) 0 }
    {
        match spot(&self.spots, self.missing, number) {
            Some(at) => clear_in(&mut self.spots[at].1, k),
            None => false,
        }
    }

    /// Gives a page back. Its spot is empty then.
    #[inline(never)]
    pub(crate) fn remove(&mut self, number: usize)
        ensures entries { self.new ≡ remove_entry (is_at (nat_cmp number)) self.old }
        ensures updates { (q : ℕ) → page_of self.new q ≡ cond (is_at (nat_cmp number) q) None (page_of self.old q) }
    {
        if let Some(at) = spot(&self.spots, self.missing, number) {
            if let Some(_page) = self.spots[at].1.take() {
                self.empty += 1;
            }
        }
    }
}

// Removes the entry k of the page of a spot, and says whether the page is empty then.
#[inline(always)]
fn clear_in(page: &mut Option<Page>, k: usize) -> bool
    requires { (p : List (Option BlockPlace)) × (a : BlockPlace) × (page.old ≡ Some p) × (slice_get p k ≡ Some (Some a)) }
    ensures cleared { (p : List (Option BlockPlace)) → page.old ≡ Some p → page.new ≡ Some (slice_set p k None) }
    ensures empty { (p : List (Option BlockPlace)) → page.old ≡ Some p → result ≡ nat_eq (living_count (slice_set p k None)) 0 }
{
    match page {
        Some(page) => {
            page.clear(k);
            page.is_empty()
        }
        None => false,
    }
}

// Where the spot of a number is. Mostly few numbers are missing between the first and the last, so two guesses come before the
// search.
#[inline(always)]
fn spot(spots: &[(usize, Option<Page>)], missing: usize, number: usize) -> Option<usize>
    requires { AreRising spots.now }
    ensures { MatchOption result (under spots.now number ≡ None) (λ k. (page : Option (List (Option BlockPlace))) × (slice_get spots.now k ≡ Some (number, page))) }
{
    match guessed(spots, missing, number) {
        Some(k) => Some(k),
        None => searched(spots, number),
    }
}

// Where the spot of a number is, if no number is missing from it on, or none up to it. `missing` is how many are missing before
// the last.
#[inline(always)]
fn guessed(spots: &[(usize, Option<Page>)], missing: usize, number: usize) -> Option<usize>
    ensures { IfSome result (λ k. (page : Option (List (Option BlockPlace))) × (slice_get spots.now k ≡ Some (number, page))) }
{
    let k = number.wrapping_sub(missing);
    if has(spots, k, number) {
        return Some(k);
    }
    let k = from_first(spots, number);
    if has(spots, k, number) {
        return Some(k);
    }
    None
}

// Where the spot of a number is, if none is missing up to it. It is a guess.
#[inline(always)]
fn from_first(spots: &[(usize, Option<Page>)], number: usize) -> usize {
    match spots.first() {
        Some(first) => number.wrapping_sub(first.0),
        None => 0,
    }
}

// Whether the spot k is that of a number.
#[inline(always)]
fn has(spots: &[(usize, Option<Page>)], k: usize, number: usize) -> bool
    ensures { result ≡ true → (page : Option (List (Option BlockPlace))) × (slice_get spots.now k ≡ Some (number, page)) }
{
    match spots.get(k) {
        Some(spot) => spot.0 == number,
        None => false,
    }
}

// Where the spot of a number is, among any numbers.
#[inline(never)]
fn searched(spots: &[(usize, Option<Page>)], number: usize) -> Option<usize>
    requires { AreRising spots.now }
    ensures { MatchOption result (under spots.now number ≡ None) (λ k. (page : Option (List (Option BlockPlace))) × (slice_get spots.now k ≡ Some (number, page))) }
{
    match spots.binary_search_by_key(&number, |spot| spot.0) {
        Ok(k) => Some(k),
        Err(_) => None,
    }
}

// Takes the empty spots out where they are more than half, or one of them has no lower number than a new page will have. It answers
// how many are left.
fn tidy(spots: &mut Vec<(usize, Option<Page>)>, empty: usize, number: usize) -> usize
    requires rises { AreRising spots.old.items }
    requires count { empty + length (pages_held spots.old.items) ≡ length spots.old.items }
    requires above { (q : ℕ) (p : List (Option BlockPlace)) → page_of (pages_held spots.old.items) q ≡ Some p → q < number }
    ensures rises { AreRising spots.new.items }
    ensures count { result + length (pages_held spots.new.items) ≡ length spots.new.items }
    ensures pages_held { pages_held spots.new.items ≡ pages_held spots.old.items }
    ensures above { (k q : ℕ) (page : Option (List (Option BlockPlace))) → slice_get spots.new.items k ≡ Some (q, page) → q < number }
{
    if empty <= spots.len() / 2 && are_below(spots, number) {
        return empty;
    }
    spots.retain(|spot| spot.1.is_some());
    shrink(spots);
    0
}

// Whether all numbers are below one.
fn are_below(spots: &[(usize, Option<Page>)], number: usize) -> bool
    requires { AreRising spots.now }
    ensures { result ≡ true → (k q : ℕ) (page : Option (List (Option BlockPlace))) → slice_get spots.now k ≡ Some (q, page) → q < number }
{
    match spots.last() {
        Some(last) => last.0 < number,
        None => true,
    }
}

// Gives back half of the room where less than a quarter is needed.
fn shrink(spots: &mut Vec<(usize, Option<Page>)>)
    ensures { spots.new.items ≡ spots.old.items }
{
    let room = spots.capacity();
    if spots.len() < room / 4 {
        spots.shrink_to(room / 2);
    }
}
