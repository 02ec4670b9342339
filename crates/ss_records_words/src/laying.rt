// The words of a new block: its head, links that lead to itself, and empty sets.
ghost use Rattle.std.specs.Prelude.{◌≡◌, ℕ, ◌+◌, ◌*◌, ◌^◌, ◌<◌, ◌≤◌, length};
ghost use Rattle.ss_records_blocks.specs.Cells.{blank, word_at, words_at};
ghost use Rattle.ss_records_words.specs.Laid.{IsLaid, IsSystemLaid};
ghost use Rattle.ss_records_words.specs.Shape.{block_words, set_places};
ghost use Rattle.ss_records_words.specs.Kept.{IsSmall};

use crate::plan::LayoutPlan;
use crate::shape::VALUES;
use ss_base::Owner;
use ss_records_blocks::filling::{fill_links, fill_numbers, fill_owned, lay_head};
use ss_records_blocks::{BlockPlace, Blocks};

/// Makes a blank block that of a new entity, in no set and without members.
#[inline(always)]
pub fn lay(
    blocks: &mut Blocks,
    layout: &LayoutPlan,
    place: BlockPlace,
    class: usize,
    number: u64,
    end: BlockPlace,
)
    requires small { IsSmall layout.now }
    requires class { class < length layout.now.classes }
    requires room { length (words_at blocks.old.cells place.at) ≡ block_words layout.now (Owner.Class class) }
    requires blank { (k : ℕ) → word_at blocks.old.cells place.at k ≡ blank }
    requires touches { blocks.old.touches ≤ 2 ^ 60 }
    ensures laid { IsLaid layout.now blocks.old.cells blocks.new.cells end.at place.at class number }
    ensures touches { blocks.new.total + blocks.old.touches ≡ blocks.old.total + blocks.new.touches }
    ensures links { blocks.new.touches ≡ blocks.old.touches + 3 * set_places layout.now (Owner.Class class) }
    ensures few { blocks.new.touches ≤ blocks.old.touches + 8388608 }
{
    let links = layout.links_start(class);
    let joined = layout.joined_count(class);
    let owned = layout.owned_start(Owner::Class(class));
    let count = layout.owned_count(Owner::Class(class));
    let words = layout.block_words(Owner::Class(class));
    lay_head(blocks, place, class as u64, number);
    fill_numbers(blocks, place, VALUES, links);
    fill_links(blocks, place, links, joined, place);
    fill_owned(blocks, place, owned, count, end);
    blocks.expect((words - links) as u64);
}

/// Makes a blank block that of the system, without members.
pub fn lay_system(blocks: &mut Blocks, layout: &LayoutPlan, place: BlockPlace)
    requires small { IsSmall layout.now }
    requires room { length (words_at blocks.old.cells place.at) ≡ block_words layout.now Owner.System }
    requires blank { (k : ℕ) → word_at blocks.old.cells place.at k ≡ blank }
    requires touches { blocks.old.touches ≡ 0 }
    ensures laid { IsSystemLaid layout.now blocks.old.cells blocks.new.cells place.at }
    ensures touches { blocks.new.total ≡ blocks.old.total + blocks.new.touches }
    ensures links { blocks.new.touches ≡ 3 * set_places layout.now Owner.System }
{
    let count = layout.owned_count(Owner::System);
    lay_head(blocks, place, 0, 0);
    fill_owned(blocks, place, VALUES, count, place);
    blocks.expect(3 * count as u64);
}
