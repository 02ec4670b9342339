// Which of the children of an entry comes first.
ghost use Rattle.std.specs.Prelude.{ℕ, ◌≡◌, ◌<◌, ◌≤◌, ◌+◌, ◌*◌, ◌^◌, length, MatchOption, is_some, if◌then◌else◌};
ghost use Rattle.ss_events_entries.specs.HeapOrder.{IsFirstOf, IsFirstAmong, IsFirstChild};
ghost use Rattle.ss_world.specs.Order.{comes_before};

use ss_events_entries::entry::EntryHeap;

/// The first child of the entry at a place. Counts at most three comparisons.
#[inline(always)]
pub fn first_child(heap: &mut EntryHeap, at: usize) -> Option<usize>
    requires within { at < length heap.old.entries }
    requires countable { heap.old.comparisons + 3 < 2 ^ 64 }
    ensures child { MatchOption result (length heap.old.entries ≤ 4 * at + 1) (IsFirstChild comes_before heap.old.entries at) }
    ensures entries { heap.new.entries ≡ heap.old.entries }
    ensures followers { heap.new.followers ≡ heap.old.followers }
    ensures comparisons { heap.new.comparisons ≤ heap.old.comparisons + (if is_some result then 3 else 0) }
    ensures moves { heap.new.moves ≡ heap.old.moves }
    ensures before { heap.new.before ≡ heap.old.before }
{
    let last = heap.len() - 1;
    if at < last / 4 {
        return Some(heap.first_of_four(4 * at + 1));
    }
    let many = last % 4;
    if at > last / 4 || many == 0 {
        return None;
    }
    Some(first_of_few(heap, 4 * at + 1, many))
}

// The first of the entries in a place, or two or three, from this one on.
fn first_of_few(heap: &mut EntryHeap, from: usize, many: usize) -> usize
    requires some { 0 < many }
    requires few { many < 4 }
    requires within { from + many ≤ length heap.old.entries }
    requires small { from + many < 2 ^ 64 }
    requires countable { heap.old.comparisons + 3 < 2 ^ 64 }
    ensures first { IsFirstAmong comes_before heap.old.entries from (from + many) result }
    ensures entries { heap.new.entries ≡ heap.old.entries }
    ensures followers { heap.new.followers ≡ heap.old.followers }
    ensures comparisons { heap.new.comparisons ≤ heap.old.comparisons + 3 }
    ensures moves { heap.new.moves ≡ heap.old.moves }
    ensures before { heap.new.before ≡ heap.old.before }
{
    if many == 1 {
        return from;
    }
    let left = first_of(heap, from, from + 1);
    if many == 2 {
        return left;
    }
    first_of(heap, left, from + 2)
}

// The first of the entries in two places, one left of the other. Counts a comparison. It is reckoned without a branch, which
// would go one way as often as the other.
#[inline(always)]
fn first_of(heap: &mut EntryHeap, left: usize, right: usize) -> usize
    requires apart { left < right }
    requires within { right < length heap.old.entries }
    requires countable { heap.old.comparisons + 1 < 2 ^ 64 }
    ensures first { IsFirstOf comes_before heap.old.entries left right result }
    ensures counted { heap.new ≡ record heap.old { comparisons = heap.old.comparisons + 1 } }
{
    let is_right = heap.is_before(right, left);
    left + usize::from(is_right) * (right - left)
}
