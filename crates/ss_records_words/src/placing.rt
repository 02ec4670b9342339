// The blocks of the permanent entities of a class, which lie together.
ghost use Rattle.std.specs.Prelude.{◌≡◌, ℕ, ◌+◌, ◌*◌, ◌^◌, ◌<◌, ◌≤◌, length, Some, slice_get};
ghost use Rattle.ss_base.specs.declared.layout.Owner.TheVariants.{Class};
ghost use Rattle.ss_records_blocks.specs.declared.store.BlockPlace.{BlockPlace};
ghost use Rattle.ss_records_blocks.specs.Cells.{words_at, blanks};
ghost use Rattle.ss_records_words.specs.Laid.{AreLaidTo};
ghost use Rattle.ss_records_words.specs.Shape.{block_words, set_places};
ghost use Rattle.ss_records_words.specs.Kept.{IsSmall};

use crate::laying;
use crate::plan::LayoutPlan;
use ss_records_blocks::{BlockPlace, Blocks};

/// Makes the blank blocks at these places those of the entities of a class.
pub fn lay_all(
    blocks: &mut Blocks,
    layout: &LayoutPlan,
    places: &[BlockPlace],
    class: usize,
    end: BlockPlace,
)
    requires small { IsSmall layout.now }
    requires class { class < length layout.now.classes }
    requires blank { (i : ℕ) (p : BlockPlace) → slice_get places.now i ≡ Some p → words_at blocks.old.cells p.at ≡ blanks (block_words layout.now (Class class)) }
    requires apart { (i j : ℕ) (p q : BlockPlace) → slice_get places.now i ≡ Some p → slice_get places.now j ≡ Some q → p.at ≡ q.at → i ≡ j }
    requires few { length places.now ≤ 2 ^ 20 }
    requires touches { blocks.old.touches ≡ 0 }
    ensures laid { AreLaidTo layout.now blocks.old.cells blocks.new.cells end.at places.now class (length places.now) }
    ensures touches { blocks.new.total ≡ blocks.old.total + blocks.new.touches }
    ensures links { blocks.new.touches ≡ length places.now * (3 * set_places layout.now (Class class)) }
{
    for i in 0..places.len() {
        let number = i as u64 + 1;
        laying::lay(blocks, layout, places[i], class, number, end);
    }
}
