//! Blocks of one size that are placed and given back together.
ghost use Rattle.std.specs.Prelude.{◌≡◌, ℕ, ◌+◌, ◌*◌, ◌^◌, ◌<◌, [], ◌∷◌, ◌++◌, length, Some, slice_get, MatchResult};
ghost use denote.RawPtr.{Ptr};
ghost use Rattle.ss_records_blocks.specs.declared.store.BlockPlace.{BlockPlace};
ghost use Rattle.ss_records_blocks.specs.Cells.{words_at, blanks};
ghost use Rattle.ss_records_blocks.specs.Writes.{HasNoneAt, ArePlaced, AreUnchanged};

use crate::store::{BlockPlace, Blocks};
use std::alloc::{AllocError, Global};

/// Gives back the blocks at these places, of so many words each. The others stay as they are.
pub fn give_places_back(blocks: &mut Blocks, alloc: &Global, places: &[BlockPlace], words: usize)
    requires words { 0 < words }
    requires size { (i : ℕ) (p : BlockPlace) → slice_get places.now i ≡ Some p → length (words_at blocks.old.cells p.at) ≡ words }
    requires apart { (i j : ℕ) (p q : BlockPlace) → slice_get places.now i ≡ Some p → slice_get places.now j ≡ Some q → p.at ≡ q.at → i ≡ j }
    ensures others { (q : Ptr) → HasNoneAt places.now q → words_at blocks.new.cells q ≡ words_at blocks.old.cells q }
    ensures count { length blocks.new.cells + length places.now ≡ length blocks.old.cells }
    ensures touches { (blocks.new.touches ≡ blocks.old.touches) × (blocks.new.total ≡ blocks.old.total) }
{
    for i in 0..places.len() {
        blocks.give_back(alloc, places[i], words);
    }
}

// Places one more block.
fn place_next(
    blocks: &mut Blocks,
    alloc: &Global,
    words: usize,
    places: &mut Vec<BlockPlace>,
) -> Result<(), AllocError>
    requires size { (0 < words) × (words * 8 < 2 ^ 63) }
    requires room { length blocks.old.cells + 1 < 2 ^ 64 }
    ensures placed { MatchResult result (λ _. (p : BlockPlace) × (words_at blocks.old.cells p.at ≡ []) × (blocks.new.cells ≡ (p.at, blanks words) ∷ blocks.old.cells) × (places.new.items ≡ places.old.items ++ p ∷ [])) (λ _. (blocks.new.cells ≡ blocks.old.cells) × (places.new.items ≡ places.old.items)) }
    ensures touches { (blocks.new.touches ≡ blocks.old.touches) × (blocks.new.total ≡ blocks.old.total) }
{
    let place = blocks.place(alloc, words)?;
    match places.push(place) {
        Ok(()) => Ok(()),
        Err(_) => {
            blocks.give_back(alloc, place, words);
            Err(AllocError)
        }
    }
}

/// Places so many blocks of so many words each, which are blank. After the error, which comes where memory was refused,
/// no block is left of them.
pub fn place_all(
    blocks: &mut Blocks,
    alloc: &Global,
    words: usize,
    count: usize,
) -> Result<Vec<BlockPlace>, AllocError>
    requires size { (0 < words) × (words * 8 < 2 ^ 63) }
    requires room { length blocks.old.cells + count < 2 ^ 64 }
    ensures placed { MatchResult result (λ ps. (length ps.items ≡ count) × ArePlaced blocks.old.cells blocks.new.cells words ps.items) (λ _. AreUnchanged blocks.old.cells blocks.new.cells) }
    ensures touches { (blocks.new.touches ≡ blocks.old.touches) × (blocks.new.total ≡ blocks.old.total) }
{
    let mut places = Vec::new(*alloc);
    for _n in 0..count {
        match place_next(blocks, alloc, words, &mut places) {
            Ok(()) => {}
            Err(error) => {
                give_places_back(blocks, alloc, &places, words);
                return Err(error);
            }
        }
    }
    Ok(places)
}
