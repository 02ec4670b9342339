// A page of the directory.
ghost use Rattle.std.specs.Prelude.{◌≡◌, ◌<◌, List, length, replicate, slice_get, slice_set, nat_eq, Option, Some, None, MatchResult, ⊤};
ghost use Rattle.ss_records_blocks.specs.declared.store.BlockPlace.{BlockPlace};
ghost use Rattle.ss_records_blocks.specs.Places.{living_count};

use crate::store::BlockPlace;
use std::alloc::{AllocError, Global};
use std::marker::Model;

/// How many numbers in a row a page has.
pub const PAGE: usize = 256;

/// Where the blocks of the numbers of a page lie. A contract sees it as the list of these places, none where
/// a number was not issued or is destroyed.
#[derive(Drop)]
pub(crate) struct Page {
    places: Vec<Option<BlockPlace>>,
    count: usize,
}

impl Model for Page {
    ghost use Rattle.std.specs.Prelude.{◌≡◌, List, Option, length};
    ghost use Rattle.ss_records_blocks.specs.declared.store.BlockPlace.{BlockPlace};
    ghost use Rattle.ss_records_blocks.specs.Places.{living_count};

    ghost Value = { List (Option BlockPlace) };

    ghost view = { λ p. p.places.items };

    ghost invariant = { λ p. (length p.places.items ≡ 256) × (p.count ≡ living_count p.places.items) };
}

impl Page {
    /// A page without a place.
    pub(crate) fn new(alloc: Global) -> Result<Page, AllocError>
        ensures { MatchResult result (λ p. p ≡ replicate 256 None) (λ _. ⊤) }
    {
        let places = vec![in alloc; None; PAGE]?;
        Ok(Page { places, count: 0 })
    }

    /// The place of the number k of the page.
    #[inline(always)]
    pub(crate) fn get(&self, k: usize) -> Option<BlockPlace>
        requires { k < 256 }
        ensures { slice_get self.now k ≡ Some result }
    {
        self.places[k]
    }

    /// Notes the place of a number that had none.
    pub(crate) fn set(&mut self, k: usize, place: BlockPlace)
        requires { slice_get self.old k ≡ Some None }
        ensures { self.new ≡ slice_set self.old k (Some place) }
    {
        self.places[k] = Some(place);
        self.count += 1;
    }

    /// Removes the place of a number.
    pub(crate) fn clear(&mut self, k: usize)
        requires { (p : BlockPlace) × (slice_get self.old k ≡ Some (Some p)) }
        ensures { self.new ≡ slice_set self.old k None }
    {
        self.places[k] = None;
        self.count -= 1;
    }

    /// Whether no number has a place.
    pub(crate) fn is_empty(&self) -> bool
        ensures length { length self.now ≡ 256 }
        ensures value { result ≡ nat_eq (living_count self.now) 0 }
    {
        self.count == 0
    }
}
