// How entries go into a heap in order and come out of it.
ghost use Rattle.std.specs.Prelude.{true, ◌≡◌, ◌<◌, ◌≤◌, ◌-◌, ◌/◌, ◌^◌, length, slice_index_or};
ghost use Rattle.ss_events_entries.specs.declared.entry.Entry.{Entry};
ghost use Rattle.ss_events_entries.specs.HeapEntries.{heap_lines, but_one, HasTakenOut};
ghost use Rattle.ss_events_entries.specs.HeapOrder.{IsHeap};
ghost use Rattle.ss_world.specs.Order.{comes_before};
ghost use Rattle.ss_events.specs.Sifting.{height, HasRaised, HasLowered, HasMended, HasClimbed, IsLogarithmic, IsTried, IsInsertion};

use crate::children::first_child;
use crate::pending::MOST_SCHEDULINGS;
use ss_events_entries::entry::{EntryHeap, Key, MANY, PLAIN_NUMBERS, PLAIN_RANKS};

/// Puts an entry of a notice into a heap in order, and says whether it did: not where there is one of that notice, where its number is
/// past that of the last scheduling, or where memory is refused. If not, the entries are what they were.
#[inline(always)]
pub fn insert(heap: &mut EntryHeap, key: Key, number: u64, notice: i64) -> bool
    requires order { IsHeap comes_before heap.old.entries }
    requires tried { IsTried heap.old }
    ensures { IsInsertion (record { key = key; number = number; notice = notice }) (heap_lines heap.old) heap.old.before heap.new result }
{
    if insert_at_once(heap, &key, number, notice) {
        return true;
    }
    insert_slowly(heap, key, number, notice)
}

// Puts an entry into a heap where that takes room, a search for its notice, or its ties.
#[cold]
#[inline(never)]
fn insert_slowly(heap: &mut EntryHeap, key: Key, number: u64, notice: i64) -> bool
    requires order { IsHeap comes_before heap.old.entries }
    requires tried { IsTried heap.old }
    ensures { IsInsertion (record { key = key; number = number; notice = notice }) (heap_lines heap.old) heap.old.before heap.new result }
{
    if number == MOST_SCHEDULINGS || heap.holds(notice) {
        return false;
    }
    let Ok(()) = heap.make_room() else {
        return false;
    };
    if insert_at_once(heap, &key, number, notice) {
        return true;
    }
    let place = heap.len();
    let Ok(()) = heap.push(key, number, notice) else {
        return false;
    };
    raise(heap, place);
    true
}

// Puts an entry into a heap, and says whether it did. It may say no where the entry has ties, where its rank or its number is great,
// where there is no room for it yet, where a search is needed to see that its notice is new, or after a comparison that was in vain.
#[inline(always)]
fn insert_at_once(heap: &mut EntryHeap, key: &Key, number: u64, notice: i64) -> bool
    requires order { IsHeap comes_before heap.old.entries }
    requires tried { IsTried heap.old }
    ensures { IsInsertion (record { key = key.now; number = number; notice = notice }) (heap_lines heap.old) heap.old.before heap.new result }
{
    let Some((time, rank)) = key.untied() else {
        return false;
    };
    if rank >= PLAIN_RANKS || number >= PLAIN_NUMBERS || heap.comparisons() > 0 {
        return false;
    }
    let place = heap.len();
    if place >= MANY && heap.append_plain(time, rank, number, notice) {
        return true;
    }
    if !heap.push_plain(time, rank, number, notice) {
        return false;
    }
    raise(heap, place);
    true
}

/// Takes the entry out of a place of a heap in order, and answers its time and its notice.
pub fn take_out(heap: &mut EntryHeap, at: usize) -> (i64, i64)
    requires order { IsHeap comes_before heap.old.entries }
    requires within { at < length heap.old.entries }
    requires uncompared { heap.old.comparisons ≡ 0 }
    requires unmoved { heap.old.moves ≡ 0 }
    ensures order { IsHeap comes_before heap.new.entries }
    ensures taken { HasTakenOut heap.old heap.new at result }
    ensures work { IsLogarithmic (length heap.old.entries) heap.new }
    ensures before { heap.new.before ≡ heap.old.before }
{
    let event = heap.remove(at);
    if at < heap.len() {
        mend(heap, at);
    }
    event
}

// Puts the entry at a place of a heap in order.
fn mend(heap: &mut EntryHeap, at: usize)
    requires within { at < length heap.old.entries }
    requires small { length heap.old.entries < 2 ^ 64 }
    requires comparisons { heap.old.comparisons ≤ 1 }
    requires moves { heap.old.moves ≤ 2 }
    ensures mends { HasMended heap.old.entries heap.new.entries at }
    ensures cost { HasClimbed 4 1 (height (length heap.old.entries - 1)) heap.old heap.new }
{
    if raise(heap, at) == at {
        lower(heap, at);
    }
}

// Lets the entry at a place rise until its parent doesn't come after it. Answers its place.
#[inline(always)]
fn raise(heap: &mut EntryHeap, at: usize) -> usize
    requires within { at < length heap.old.entries }
    requires comparisons { heap.old.comparisons < 2 ^ 32 }
    requires moves { heap.old.moves < 2 ^ 32 }
    ensures raises { HasRaised heap.old.entries heap.new.entries at result }
    ensures cost { HasClimbed 1 1 (height at) heap.old heap.new }
    ensures compared { 0 < at → heap.old.comparisons < heap.new.comparisons }
{
    if at == 0 {
        return at;
    }
    let parent = (at - 1) / 4;
    if !heap.is_before(at, parent) {
        return at;
    }
    raise_past(heap, at, parent)
}

// Lets an entry rise that comes before its parent, once the two were compared. Answers its place.
#[inline(never)]
fn raise_past(heap: &mut EntryHeap, mut at: usize, mut parent: usize) -> usize
    requires within { at < length heap.old.entries }
    requires some { 0 < at }
    requires parent { parent ≡ (at - 1) / 4 }
    requires before { (d : Entry) → comes_before (slice_index_or heap.old.entries at d) (slice_index_or heap.old.entries parent d) ≡ true }
    requires compared { 0 < heap.old.comparisons }
    requires comparisons { heap.old.comparisons ≤ 2 ^ 32 }
    requires moves { heap.old.moves < 2 ^ 32 }
    ensures raises { HasRaised heap.old.entries heap.new.entries at result }
    ensures cost { HasClimbed 1 1 (height at) (but_one heap.old) heap.new }
    ensures compared { heap.old.comparisons ≤ heap.new.comparisons }
{
    loop {
        heap.swap(at, parent);
        at = parent;
        if at == 0 {
            return at;
        }
        parent = (at - 1) / 4;
        if !heap.is_before(at, parent) {
            return at;
        }
    }
}

// Lets the entry at a place sink until no child comes before it.
fn lower(heap: &mut EntryHeap, mut at: usize)
    requires within { at < length heap.old.entries }
    requires small { length heap.old.entries < 2 ^ 64 }
    requires comparisons { heap.old.comparisons < 2 ^ 32 }
    requires moves { heap.old.moves < 2 ^ 32 }
    ensures lowers { HasLowered heap.old.entries heap.new.entries at }
    ensures cost { HasClimbed 4 (height at) (height (length heap.old.entries - 1)) heap.old heap.new }
{
    loop {
        let Some(child) = first_child(heap, at) else {
            return;
        };
        if !heap.is_before(child, at) {
            return;
        }
        heap.swap(at, child);
        at = child;
    }
}
