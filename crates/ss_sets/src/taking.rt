// Taking out the first or the last member, and the test of membership.
ghost use Rattle.std.specs.Prelude.{◌≡◌, ◌+◌, ◌<◌, ◌≤◌, length, MatchResult, Ok, Err};
ghost use Rattle.ss_world.specs.Disciplines.{first_removed, last_removed, member_test};

use ss_base::FaultKind;
use ss_records::Heap;

/// Takes the first member out of the set of an owner, and answers it. Faults: 1 to 5, then 8 where there is none;
/// after a fault the heap is as it was.
pub fn remove_first(heap: &mut Heap, set: usize, o: i64) -> Result<i64, FaultKind>
    requires set { set < length heap.old.state.layout.sets }
    ensures done { MatchResult result (λ x. first_removed heap.old.state set o ≡ Ok (x, heap.new.state)) (λ e. (first_removed heap.old.state set o ≡ Err e) × (heap.new.state ≡ heap.old.state)) }
    ensures touches { (heap.old.total ≤ heap.new.total) × (heap.new.total ≤ heap.old.total + 16) }
{
    heap.remove_first(set, o)
}

/// Takes the last member out of the set of an owner, and answers it. Faults: 1 to 5, then 8 where there is none;
/// after a fault the heap is as it was.
pub fn remove_last(heap: &mut Heap, set: usize, o: i64) -> Result<i64, FaultKind>
    requires set { set < length heap.old.state.layout.sets }
    ensures done { MatchResult result (λ x. last_removed heap.old.state set o ≡ Ok (x, heap.new.state)) (λ e. (last_removed heap.old.state set o ≡ Err e) × (heap.new.state ≡ heap.old.state)) }
    ensures touches { (heap.old.total ≤ heap.new.total) × (heap.new.total ≤ heap.old.total + 16) }
{
    heap.remove_last(set, o)
}

/// Whether x is in the set of an owner, in at most four touches. Faults: those of x (1 to 5), then those of the owner.
pub fn is_in(heap: &mut Heap, set: usize, o: i64, x: i64) -> Result<bool, FaultKind>
    requires set { set < length heap.old.state.layout.sets }
    ensures value { result ≡ member_test heap.old.state set o x }
    ensures same { heap.new.state ≡ heap.old.state }
    ensures touches { (heap.old.total ≤ heap.new.total) × (heap.new.total ≤ heap.old.total + 4) }
{
    heap.is_in(set, o, x)
}
