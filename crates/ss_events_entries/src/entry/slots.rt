// Slots, each with what is known of its entry; the nodes of places, which name slots; and the entries that are stored whole.
ghost use Rattle.std.specs.Prelude.{true, false, ℕ, ◌+◌, ◌^◌, ◌≢◌, ◌==◌, slice_set, ◌≡◌, ◌<◌, ◌≤◌, ◌++◌, ◌∷◌, [], length, swap, slice_index_or, vec_len, if◌then◌else◌, IfOk, OnOk, OnErr, MatchOption};
ghost use Rattle.ss_events_entries.specs.CallWork.{HasComparedOnce};
ghost use Rattle.ss_events_entries.specs.Slots.{no_entry, blank_slot, no_slot, no_node, following, not_plain, slot_at, node, IsTaken, AreLed, at_put, next_put, exchanged};

use super::counter::WorkCounter;
use super::directory::SlotDirectory;
use super::{Entry, Mark, NOT_PLAIN};
use std::alloc::AllocError;

// What no slot is.
pub(super) const NO_SLOT: usize = usize::MAX;

// What is added to the number of a slot to say that an entry follows the one there.
pub(super) const FOLLOWING: usize = 9_223_372_036_854_775_808;

// What is in a place of the heap: a slot, and the mark of its entry.
#[derive(Clone, Copy)]
pub(super) struct HeapNode {
    pub(super) mark: Mark,
    pub(super) slot: usize,
}

// What a slot records of its entry.
#[derive(Clone, Copy)]
pub(super) struct Slot {
    pub(super) notice: i64,
    pub(super) mark: Mark,
    // The slot of the next one in its line, or none.
    pub(super) next: usize,
    // Its place, or `FOLLOWING` and the slot of the one before it.
    pub(super) at: usize,
}

// The slot of an entry in a place, with none after it.
#[inline(always)]
pub(super) fn alone(notice: i64, mark: Mark, at: usize) -> Slot
    ensures { result ≡ record { notice = notice; mark = mark; next = no_slot; at = at } }
{
    Slot {
        notice,
        mark,
        next: NO_SLOT,
        at,
    }
}

// The slot of the entry of a notice.
#[inline(always)]
pub(super) fn slot_of(
    directory: &SlotDirectory,
    slots: &[Slot],
    count: usize,
    notice: i64,
) -> Option<usize>
    requires { AreLed directory.now count slots.now }
    ensures { MatchOption result ((s : ℕ) → s < length slots.now → IsTaken count (slot_at slots.now s) → (slot_at slots.now s).notice ≢ notice) (λ s. (s < length slots.now) × IsTaken count (slot_at slots.now s) × ((slot_at slots.now s).notice ≡ notice)) }
{
    let first = directory.first_guess(notice);
    if is_in(slots, count, first, notice) {
        return Some(first);
    }
    let second = directory.second_guess(notice);
    if is_in(slots, count, second, notice) {
        return Some(second);
    }
    None
}

// Whether the entry of a notice is in a slot.
#[inline(always)]
pub(super) fn is_in(slots: &[Slot], count: usize, slot: usize, notice: i64) -> bool
    ensures yes { result ≡ true → (slot < length slots.now) × IsTaken count (slot_at slots.now slot) × ((slot_at slots.now slot).notice ≡ notice) }
    ensures no { result ≡ false → slot < length slots.now → IsTaken count (slot_at slots.now slot) → (slot_at slots.now slot).notice ≢ notice }
{
    if slot >= slots.len() {
        return false;
    }
    let it = slots[slot];
    it.notice == notice && (it.at < count || it.at >= FOLLOWING)
}

// Whether the entry in a slot is the last of a line, comes at the time of a mark, and before it. Counts a comparison where there is
// such a last one.
#[inline(always)]
pub(super) fn is_last_before(
    slots: &[Slot],
    count: usize,
    slot: usize,
    mark: Mark,
    counter: &mut WorkCounter,
) -> bool
    requires { counter.old.comparisons + 1 < 2 ^ 64 }
    ensures within { result ≡ true → slot < length slots.now }
    ensures taken { result ≡ true → IsTaken count (slot_at slots.now slot) }
    ensures last { result ≡ true → (slot_at slots.now slot).next ≡ no_slot }
    ensures time { result ≡ true → (slot_at slots.now slot).mark.time ≡ mark.time }
    ensures order { result ≡ true → (slot_at slots.now slot).mark.order < mark.order }
    ensures counted { result ≡ true → counter.new ≡ record counter.old { comparisons = counter.old.comparisons + 1 } }
    ensures tried { HasComparedOnce counter.old counter.new }
{
    if slot >= slots.len() {
        return false;
    }
    let it = slots[slot];
    if it.at >= count && it.at < FOLLOWING {
        return false;
    }
    if it.next != NO_SLOT {
        return false;
    }
    counter.count_comparisons(1);
    it.mark.time == mark.time && it.mark.order < mark.order
}

// Puts a new entry into a slot, after that of another. Counts a move.
#[inline(always)]
pub(super) fn line_up(
    slots: &mut [Slot],
    before: usize,
    slot: usize,
    notice: i64,
    mark: Mark,
    counter: &mut WorkCounter,
)
    requires before { before < length slots.old }
    requires small { length slots.old < following }
    requires within { slot < length slots.old }
    requires countable { counter.old.moves + 1 < 2 ^ 64 }
    ensures slots { slots.new ≡ slice_set (next_put slots.old before slot) slot (record { notice = notice; mark = mark; next = no_slot; at = following + before }) }
    ensures moved { counter.new ≡ record counter.old { moves = counter.old.moves + 1 } }
{
    counter.count_moves(1);
    slots[before].next = slot;
    slots[slot] = alone(notice, mark, FOLLOWING + before);
}

// Puts the next of a line, or none, after the entry of a slot, where the one between goes. Counts a move where there is a next one.
#[inline(always)]
pub(super) fn close_up(slots: &mut [Slot], before: usize, next: usize, counter: &mut WorkCounter)
    requires small { length slots.old < following }
    requires before { before < length slots.old }
    requires next { next ≢ no_slot → next < length slots.old }
    requires countable { counter.old.moves + 1 < 2 ^ 64 }
    ensures moved { counter.new ≡ record counter.old { moves = counter.old.moves + (if next == no_slot then 0 else 1) } }
    ensures slots { slots.new ≡ (if next == no_slot then next_put slots.old before next else at_put (next_put slots.old before next) next (following + before)) }
{
    slots[before].next = next;
    if next != NO_SLOT {
        slots[next].at = FOLLOWING + before;
        counter.count_moves(1);
    }
}

// Puts the next of a line into the place of its first. Counts a move.
#[inline(always)]
pub(super) fn advance(
    nodes: &mut [HeapNode],
    slots: &mut [Slot],
    at: usize,
    next: usize,
    counter: &mut WorkCounter,
)
    requires at { at < length nodes.old }
    requires next { next < length slots.old }
    requires countable { counter.old.moves + 1 < 2 ^ 64 }
    ensures nodes { nodes.new ≡ slice_set nodes.old at (record { mark = (slot_at slots.old next).mark; slot = next }) }
    ensures slots { slots.new ≡ at_put slots.old next at }
    ensures moved { counter.new ≡ record counter.old { moves = counter.old.moves + 1 } }
{
    counter.count_moves(1);
    nodes[at] = HeapNode {
        mark: slots[next].mark,
        slot: next,
    };
    slots[next].at = at;
}

// Exchanges the nodes of two places, and writes into each of the two slots its new place. Counts two moves.
#[inline(always)]
pub(super) fn exchange(
    nodes: &mut [HeapNode],
    slots: &mut [Slot],
    a: usize,
    b: usize,
    counter: &mut WorkCounter,
)
    requires a_within { a < length nodes.old }
    requires b_within { b < length nodes.old }
    requires a_there { (node nodes.old a).slot < length slots.old }
    requires b_there { (node nodes.old b).slot < length slots.old }
    requires countable { counter.old.moves + 2 < 2 ^ 64 }
    ensures nodes { nodes.new ≡ swap nodes.old a b }
    ensures slots { slots.new ≡ exchanged nodes.old slots.old a b }
    ensures moved { counter.new ≡ record counter.old { moves = counter.old.moves + 2 } }
{
    counter.count_moves(2);
    let first = nodes[a];
    let second = nodes[b];
    nodes[a] = second;
    nodes[b] = first;
    slots[second.slot].at = a;
    slots[first.slot].at = b;
}

// Puts a slot that is free now after all other free slots.
#[inline(always)]
pub(super) fn release(nodes: &mut [HeapNode], slots: &mut [Slot], place: usize, slot: usize)
    requires place { place < length nodes.old }
    requires slot { slot < length slots.old }
    ensures nodes { nodes.new ≡ slice_set nodes.old place (record (node nodes.old place) { slot = slot }) }
    ensures slots { slots.new ≡ at_put slots.old slot place }
{
    nodes[place].slot = slot;
    slots[slot].at = place;
}

// How many slots are free, once there is a new one where none was. The new one comes after all places.
#[inline(always)]
pub(super) fn some_free(
    slots: &mut Vec<Slot>,
    nodes: &mut Vec<HeapNode>,
    count: usize,
    free: usize,
) -> Result<usize, AllocError>
    requires within { count ≤ vec_len nodes.old }
    ensures many { IfOk result (λ n. n ≡ (if free == 0 then 1 else free)) }
    ensures slots { OnOk result (slots.new.items ≡ (if free == 0 then slots.old.items ++ record blank_slot { at = count } ∷ [] else slots.old.items)) }
    ensures nodes { OnOk result (nodes.new.items ≡ (if free == 0 then slice_set (nodes.old.items ++ no_node ∷ []) count (record no_node { slot = vec_len slots.old }) else nodes.old.items)) }
    ensures small { OnOk result (free ≡ 0 → vec_len slots.old + 1 < following) }
    ensures err_slots { OnErr result (slots.new.items ≡ slots.old.items) }
    ensures err_nodes { OnErr result (nodes.new.items ≡ nodes.old.items) }
{
    if free != 0 {
        return Ok(free);
    }
    new_slot(slots, nodes, count)?;
    Ok(1)
}

// Adds a free slot, which comes after so many places.
#[inline(never)]
pub(super) fn new_slot(
    slots: &mut Vec<Slot>,
    nodes: &mut Vec<HeapNode>,
    count: usize,
) -> Result<(), AllocError>
    requires within { count ≤ vec_len nodes.old }
    ensures slots { OnOk result (slots.new.items ≡ slots.old.items ++ record blank_slot { at = count } ∷ []) }
    ensures nodes { OnOk result (nodes.new.items ≡ slice_set (nodes.old.items ++ no_node ∷ []) count (record no_node { slot = vec_len slots.old })) }
    ensures small { OnOk result (vec_len slots.old + 1 < following) }
    ensures err_slots { OnErr result (slots.new.items ≡ slots.old.items) }
    ensures err_nodes { OnErr result (nodes.new.items ≡ nodes.old.items) }
{
    slots.reserve(1)?;
    nodes.reserve(1)?;
    slots.push_reserved(Slot {
        notice: 0,
        mark: Mark::none(),
        next: NO_SLOT,
        at: count,
    });
    nodes.push_reserved(HeapNode {
        mark: Mark::none(),
        slot: 0,
    });
    nodes[count] = HeapNode {
        mark: Mark::none(),
        slot: slots.as_slice().len() - 1,
    };
    Ok(())
}

// Makes room for the entry of a slot, unless it is plain.
#[inline(always)]
pub(super) fn reach(entries: &mut Vec<Entry>, slot: usize, mark: Mark) -> Result<(), AllocError>
    ensures same { (s : ℕ) → slice_index_or entries.new.items s no_entry ≡ slice_index_or entries.old.items s no_entry }
    ensures within { OnOk result (mark.order ≡ not_plain → slot < vec_len entries.new) }
{
    if mark.order == NOT_PLAIN {
        lengthen(entries, slot)?;
    }
    Ok(())
}

// Makes room for the entry of a slot.
#[inline(never)]
pub(super) fn lengthen(entries: &mut Vec<Entry>, slot: usize) -> Result<(), AllocError>
    ensures same { (s : ℕ) → slice_index_or entries.new.items s no_entry ≡ slice_index_or entries.old.items s no_entry }
    ensures within { OnOk result (slot < vec_len entries.new) }
{
    while entries.len() <= slot {
        let none = Entry::none(*entries.allocator());
        entries.push(none)?;
    }
    Ok(())
}

// Stores the entry of a slot, unless it is plain.
#[inline(always)]
pub(super) fn keep(entries: &mut Vec<Entry>, slot: usize, entry: Entry, mark: Mark)
    requires { mark.order ≡ not_plain → slot < vec_len entries.old }
    ensures { entries.new.items ≡ (if mark.order == not_plain then slice_set entries.old.items slot entry else entries.old.items) }
{
    if mark.order == NOT_PLAIN {
        put(entries, slot, entry);
    }
}

// Drops the entry of a slot, unless it is plain.
#[inline(always)]
pub(super) fn clear(entries: &mut Vec<Entry>, slot: usize, mark: Mark)
    requires { mark.order ≡ not_plain → slot < vec_len entries.old }
    ensures { entries.new.items ≡ (if mark.order == not_plain then slice_set entries.old.items slot no_entry else entries.old.items) }
{
    if mark.order == NOT_PLAIN {
        let none = Entry::none(*entries.allocator());
        put(entries, slot, none);
    }
}

// Stores the entry of a slot.
#[inline(never)]
pub(super) fn put(entries: &mut Vec<Entry>, slot: usize, entry: Entry)
    requires { slot < vec_len entries.old }
    ensures { entries.new.items ≡ slice_set entries.old.items slot entry }
{
    entries[slot] = entry;
}
