//! The words of a block that is blank: its head, zeros, links, and sets without a member.
ghost use Rattle.std.specs.Prelude.{◌≡◌, ℕ, ◌+◌, ◌*◌, ◌^◌, ◌<◌, ◌≤◌, length};
ghost use Rattle.ss_records_blocks.specs.Cells.{blank, word_at, words_at};
ghost use Rattle.ss_records_blocks.specs.Writes.{IsFilled, head_word, zeros, links_to, owned_from};

use crate::head::{CLASS, NUMBER};
use crate::store::{BlockPlace, Blocks};

/// Zeros from one word up to another. The first few are written one by one, which takes less than a loop.
#[inline(always)]
pub fn fill_numbers(blocks: &mut Blocks, place: BlockPlace, from: usize, to: usize)
    requires order { from ≤ to }
    requires room { to ≤ length (words_at blocks.old.cells place.at) }
    requires blank { (k : ℕ) → from ≤ k → k < to → word_at blocks.old.cells place.at k ≡ blank }
    ensures filled { IsFilled blocks.old.cells blocks.new.cells place.at from to zeros }
    ensures touches { (blocks.new.touches ≡ blocks.old.touches) × (blocks.new.total ≡ blocks.old.total) }
{
    if from < to {
        blocks.set_number(place, from, 0);
        fill_second(blocks, place, from + 1, to);
    }
}

// Writes the words from the second on.
#[inline(always)]
fn fill_second(blocks: &mut Blocks, place: BlockPlace, from: usize, to: usize)
    requires order { from ≤ to }
    requires room { to ≤ length (words_at blocks.old.cells place.at) }
    requires blank { (k : ℕ) → from ≤ k → k < to → word_at blocks.old.cells place.at k ≡ blank }
    ensures filled { IsFilled blocks.old.cells blocks.new.cells place.at from to zeros }
    ensures touches { (blocks.new.touches ≡ blocks.old.touches) × (blocks.new.total ≡ blocks.old.total) }
{
    if from < to {
        blocks.set_number(place, from, 0);
        fill_third(blocks, place, from + 1, to);
    }
}

// Writes the words from the third on.
#[inline(always)]
fn fill_third(blocks: &mut Blocks, place: BlockPlace, from: usize, to: usize)
    requires order { from ≤ to }
    requires room { to ≤ length (words_at blocks.old.cells place.at) }
    requires blank { (k : ℕ) → from ≤ k → k < to → word_at blocks.old.cells place.at k ≡ blank }
    ensures filled { IsFilled blocks.old.cells blocks.new.cells place.at from to zeros }
    ensures touches { (blocks.new.touches ≡ blocks.old.touches) × (blocks.new.total ≡ blocks.old.total) }
{
    if from < to {
        blocks.set_number(place, from, 0);
        fill_fourth(blocks, place, from + 1, to);
    }
}

// Writes the words from the fourth on.
#[inline(always)]
fn fill_fourth(blocks: &mut Blocks, place: BlockPlace, from: usize, to: usize)
    requires order { from ≤ to }
    requires room { to ≤ length (words_at blocks.old.cells place.at) }
    requires blank { (k : ℕ) → from ≤ k → k < to → word_at blocks.old.cells place.at k ≡ blank }
    ensures filled { IsFilled blocks.old.cells blocks.new.cells place.at from to zeros }
    ensures touches { (blocks.new.touches ≡ blocks.old.touches) × (blocks.new.total ≡ blocks.old.total) }
{
    if from < to {
        blocks.set_number(place, from, 0);
        fill_on(blocks, place, from + 1, to);
    }
}

// Writes the words from the fifth on.
#[inline(always)]
fn fill_on(blocks: &mut Blocks, place: BlockPlace, from: usize, to: usize)
    requires order { from ≤ to }
    requires room { to ≤ length (words_at blocks.old.cells place.at) }
    requires blank { (k : ℕ) → from ≤ k → k < to → word_at blocks.old.cells place.at k ≡ blank }
    ensures filled { IsFilled blocks.old.cells blocks.new.cells place.at from to zeros }
    ensures touches { (blocks.new.touches ≡ blocks.old.touches) × (blocks.new.total ≡ blocks.old.total) }
{
    if from < to {
        fill_rest(blocks, place, from, to);
    }
}

// Writes many words.
#[inline(never)]
fn fill_rest(blocks: &mut Blocks, place: BlockPlace, from: usize, to: usize)
    requires order { from ≤ to }
    requires room { to ≤ length (words_at blocks.old.cells place.at) }
    requires blank { (k : ℕ) → from ≤ k → k < to → word_at blocks.old.cells place.at k ≡ blank }
    ensures filled { IsFilled blocks.old.cells blocks.new.cells place.at from to zeros }
    ensures touches { (blocks.new.touches ≡ blocks.old.touches) × (blocks.new.total ≡ blocks.old.total) }
{
    for k in from..to {
        blocks.set_number(place, k, 0);
    }
}

/// Links of so many sets that lead to one place, three words each: three touches each, which the caller counts.
#[inline(always)]
pub fn fill_links(
    blocks: &mut Blocks,
    place: BlockPlace,
    from: usize,
    count: usize,
    target: BlockPlace,
)
    requires room { from + 3 * count ≤ length (words_at blocks.old.cells place.at) }
    requires blank { (k : ℕ) → from ≤ k → k < from + 3 * count → word_at blocks.old.cells place.at k ≡ blank }
    requires small { from + 3 * count < 2 ^ 64 }
    ensures filled { IsFilled blocks.old.cells blocks.new.cells place.at from (from + 3 * count) (links_to target.at) }
    ensures touches { (blocks.new.touches ≡ blocks.old.touches) × (blocks.new.total ≡ blocks.old.total + 3 * count) }
{
    for i in 0..count {
        let k = from + 3 * i;
        blocks.set_link(place, k, target);
        blocks.set_link(place, k + 1, target);
        blocks.set_link(place, k + 2, target);
    }
}

/// Sets without a member, three words each: three touches each, which the caller counts.
#[inline(always)]
pub fn fill_owned(
    blocks: &mut Blocks,
    place: BlockPlace,
    from: usize,
    count: usize,
    end: BlockPlace,
)
    requires room { from + 3 * count ≤ length (words_at blocks.old.cells place.at) }
    requires blank { (k : ℕ) → from ≤ k → k < from + 3 * count → word_at blocks.old.cells place.at k ≡ blank }
    requires small { from + 3 * count < 2 ^ 64 }
    ensures filled { IsFilled blocks.old.cells blocks.new.cells place.at from (from + 3 * count) (owned_from end.at from) }
    ensures touches { (blocks.new.touches ≡ blocks.old.touches) × (blocks.new.total ≡ blocks.old.total + 3 * count) }
{
    for i in 0..count {
        let k = from + 3 * i;
        blocks.set_link(place, k, end);
        blocks.set_link(place, k + 1, end);
        blocks.set_count(place, k + 2, 0);
    }
}

/// Writes the class and the number, and nothing else.
#[inline(always)]
pub fn lay_head(blocks: &mut Blocks, place: BlockPlace, class: u64, number: u64)
    requires room { 2 ≤ length (words_at blocks.old.cells place.at) }
    requires blank { (k : ℕ) → word_at blocks.old.cells place.at k ≡ blank }
    ensures filled { IsFilled blocks.old.cells blocks.new.cells place.at 0 2 (head_word class number) }
    ensures touches { (blocks.new.touches ≡ blocks.old.touches) × (blocks.new.total ≡ blocks.old.total) }
{
    blocks.set_number(place, CLASS, class);
    blocks.set_number(place, NUMBER, number);
}
