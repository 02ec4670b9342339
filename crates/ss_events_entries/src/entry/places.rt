// Entries in lines, of which the first is in a place of the heap: no entry moves while lines change places.
ghost use Rattle.std.specs.Prelude.{true, false, ℕ, ◌+◌, ◌*◌, ◌^◌, ◌≢◌, ◌||◌, ◌≡◌, ◌<◌, ◌≤◌, ◌++◌, ◌∷◌, [], length, swap, slice_index_or, IfOk, OnOk, OnErr, position};
ghost use Rattle.std.specs.Ordering.{int_eq};
ghost use Rattle.std.specs.List.{list_any};
ghost use Rattle.std.specs.List.Sorted.{IsPermutation};
ghost use Rattle.ss_events_entries.specs.declared.entry.Entry.{Entry};
ghost use Rattle.ss_events_entries.specs.declared.entry.slots.HeapNode.{HeapNode as HeapNodeSeen};
ghost use Rattle.ss_events_entries.specs.CallWork.{HasComparedOnce, HasMoved};
ghost use Rattle.ss_events_entries.specs.HeapEntries.{notices_of, event_of, HasRemovedEntry, HasLostFollower, AreAfterHeads};
ghost use Rattle.ss_events_entries.specs.Slots.{mark_of, not_plain, order_of, IsBut, plain_entry, plain_ranks, plain_numbers, AreDistinct, AreLed};

use super::counter::WorkCounter;
use super::directory::SlotDirectory;
use super::hints::{HINTS, MANY, SlotHint, hinted, remember};
use super::slots::{
    FOLLOWING, HeapNode, NO_SLOT, Slot, advance, alone, clear, close_up, exchange, is_last_before,
    keep, line_up, reach, release, slot_of, some_free,
};
use super::{Entry, Mark, mark_of, plain_entry};
use std::alloc::{AllocError, Global};
use std::marker::Model;

/// Entries in lines. The first of each line is in a place, from 0 on, and the others follow it: they come at the same time,
/// one after another. A contract sees the list of those in places, and a list of all others.
///
/// An entry keeps its slot from when it comes until it goes. The slot is then free, and the next entry that comes takes it. A
/// directory says in which slots to look for a notice, and hints in which slot to look for the last of a line. A plain entry is
/// made from its mark and its notice, and is stored nowhere else. The mark of a head is in its slot and in the node of its place.
#[derive(Drop)]
pub struct Places {
    slots: Vec<Slot>,
    // By slot, as far as one was ever stored: its entry where that isn't plain, and elsewhere one without ties.
    entries: Vec<Entry>,
    // By place: the slot there. The free slots come after all places.
    nodes: Vec<HeapNode>,
    // How many places there are.
    count: usize,
    // How many slots are free.
    free: usize,
    hints: Vec<SlotHint>,
    directory: SlotDirectory,
    // What `look_ahead` read. Nothing depends on it.
    ahead: u64,
}

impl Model for Places {
    ghost use Rattle.ss_events_entries.specs.HeapEntries.{HeadsAndFollowers};
    ghost use Rattle.ss_events_entries.specs.Slots.{heads, followers, AreHeld};

    ghost Value = { HeadsAndFollowers };

    ghost view = { λ p. record { heads = heads p.count p.slots.items p.entries.items p.nodes.items; followers = followers p.slots.items } };

    ghost invariant = { λ p. AreHeld p.count p.free p.slots.items p.entries.items p.nodes.items p.directory };
}

impl Places {
    pub(crate) fn new(alloc: Global) -> Places
        ensures { result ≡ record { heads = []; followers = [] } }
    {
        Places {
            slots: Vec::new(alloc),
            entries: Vec::new(alloc),
            nodes: Vec::new(alloc),
            count: 0,
            free: 0,
            hints: Vec::new(alloc),
            directory: SlotDirectory::new(alloc),
            ahead: 0,
        }
    }

    /// How many places there are.
    #[inline(always)]
    pub(crate) fn len(&self) -> usize
        ensures { result ≡ length self.now.heads }
    {
        self.count
    }

    /// Does nothing. Its contract says that each follower comes after a head.
    #[inline(always)]
    pub(crate) fn are_after_heads(&self)
        ensures { AreAfterHeads self.now.heads self.now.followers }
    {
        let _ = &self.count;
    }

    /// The place of the entry of a notice, where it is the first of its line.
    pub(crate) fn find(&self, notice: i64) -> Option<usize>
        ensures { result ≡ position (int_eq notice) (notices_of self.now.heads) }
    {
        let slot = slot_of(&self.directory, &self.slots, self.count, notice)?;
        let at = self.slots[slot].at;
        if at < self.count { Some(at) } else { None }
    }

    /// Whether there is an entry of a notice.
    #[inline(always)]
    pub(crate) fn holds(&self, notice: i64) -> bool
        ensures { result ≡ (list_any (int_eq notice) (notices_of self.now.heads) || list_any (int_eq notice) (notices_of self.now.followers)) }
    {
        slot_of(&self.directory, &self.slots, self.count, notice).is_some()
    }

    /// The mark of the entry in a place.
    #[inline(always)]
    pub(crate) fn mark(&self, place: usize) -> Mark
        requires { place < length self.now.heads }
        ensures { (d : Entry) → result ≡ mark_of (slice_index_or self.now.heads place d) }
    {
        self.nodes[place].mark
    }

    /// The nodes of four places from this one on.
    #[inline(always)]
    pub(super) fn four(&self, from: usize) -> &[HeapNode]
        requires within { from + 4 ≤ length self.now.heads }
        requires small { from + 4 < 2 ^ 64 }
        ensures four { length result.now ≡ 4 }
        ensures marks { (k : ℕ) → k < 4 → (s : HeapNodeSeen) (d : Entry) → (slice_index_or result.now k s).mark ≡ mark_of (slice_index_or self.now.heads (from + k) d) }
    {
        &self.nodes[from..from + 4]
    }

    /// The time and the notice of the entry in a place.
    #[inline(always)]
    pub(crate) fn event(&self, place: usize) -> (i64, i64)
        requires { place < length self.now.heads }
        ensures { (d : Entry) → result ≡ event_of (slice_index_or self.now.heads place d) }
    {
        let node = self.nodes[place];
        (node.mark.time, self.slots[node.slot].notice)
    }

    /// Where there are many heads, reads the cell of the notice in the first place, and the slot that follows. They lie far apart, and
    /// are then in the processor's cache when the entry is taken out. Nothing else changes.
    #[inline(always)]
    pub(crate) fn look_ahead(&mut self)
        requires { 0 < length self.old.heads }
        ensures { self.new ≡ self.old }
    {
        if self.count < MANY {
            return;
        }
        let Slot { notice, next, .. } = self.slots[self.nodes[0].slot];
        let mut ahead = self.directory.first_guess(notice) as u64;
        if next < self.slots.len() {
            ahead ^= self.slots[next].mark.order;
        }
        self.ahead = ahead;
    }

    /// The entry in a place, but for its notice, where it isn't plain.
    pub(crate) fn whole(&self, place: usize) -> &Entry
        requires within { place < length self.now.heads }
        requires not_plain { (d : Entry) → order_of (slice_index_or self.now.heads place d) ≡ not_plain }
        ensures { (d : Entry) → IsBut result.now (slice_index_or self.now.heads place d) }
    {
        &self.entries[self.nodes[place].slot]
    }

    /// The entry in a place, but for its notice, where it is plain.
    pub(crate) fn plain(&self, place: usize) -> Entry
        requires within { place < length self.now.heads }
        requires plain { (d : Entry) → order_of (slice_index_or self.now.heads place d) ≢ not_plain }
        ensures { (d : Entry) → IsBut result (slice_index_or self.now.heads place d) }
    {
        plain_entry(*self.slots.allocator(), self.nodes[place].mark)
    }

    /// Makes room for one more entry.
    pub(crate) fn make_room(&mut self) -> Result<(), AllocError>
        ensures { self.new ≡ self.old }
    {
        make_cells(
            &mut self.directory,
            &mut self.hints,
            &self.slots,
            self.count,
            self.free,
        )?;
        self.free = some_free(&mut self.slots, &mut self.nodes, self.count, self.free)?;
        Ok(())
    }

    /// Puts an entry of a new notice into the next place, as a line of its own. Counts a move.
    pub(crate) fn push(&mut self, entry: Entry, counter: &mut WorkCounter) -> Result<(), AllocError>
        requires apart { list_any (int_eq entry.notice) (notices_of self.old.heads) ≡ false }
        requires fresh { list_any (int_eq entry.notice) (notices_of self.old.followers) ≡ false }
        requires countable { counter.old.moves + 1 < 2 ^ 64 }
        ensures ok { OnOk result (self.new ≡ record self.old { heads = self.old.heads ++ entry ∷ [] }) }
        ensures err { OnErr result (self.new ≡ self.old) }
        ensures moved { OnOk result (counter.new ≡ record counter.old { moves = counter.old.moves + 1 }) }
        ensures unmoved { OnErr result (counter.new ≡ counter.old) }
    {
        make_cells(
            &mut self.directory,
            &mut self.hints,
            &self.slots,
            self.count,
            self.free,
        )?;
        self.free = some_free(&mut self.slots, &mut self.nodes, self.count, self.free)?;
        let next = self.count;
        let slot = self.nodes[next].slot;
        let mark = mark_of(&entry);
        reach(&mut self.entries, slot, mark)?;
        self.directory.note(entry.notice, slot)?;
        counter.count_moves(1);
        self.nodes[next] = HeapNode { mark, slot };
        self.count = next + 1;
        self.free -= 1;
        self.slots[slot] = alone(entry.notice, mark, next);
        remember(&mut self.hints, next, mark, slot);
        keep(&mut self.entries, slot, entry, mark);
        Ok(())
    }

    /// Puts a plain entry into the next place, if there is room and its notice is found to be new at once, and says whether it did.
    /// Counts a move where it did. If not, nothing has changed.
    #[inline(always)]
    pub(crate) fn push_plain(&mut self, mark: Mark, notice: i64, counter: &mut WorkCounter) -> bool
        requires plain { mark.order < plain_ranks * plain_numbers }
        requires countable { counter.old.moves + 1 < 2 ^ 64 }
        ensures done { result ≡ true → self.new ≡ record self.old { heads = self.old.heads ++ plain_entry mark notice ∷ [] } }
        ensures apart { result ≡ true → list_any (int_eq notice) (notices_of self.old.heads) ≡ false }
        ensures fresh { result ≡ true → list_any (int_eq notice) (notices_of self.old.followers) ≡ false }
        ensures kept { result ≡ false → self.new ≡ self.old }
        ensures moved { result ≡ true → counter.new ≡ record counter.old { moves = counter.old.moves + 1 } }
        ensures unmoved { result ≡ false → counter.new ≡ counter.old }
    {
        if self.free == 0 || self.slots.len() - self.free >= self.directory.cells() / 4 {
            return false;
        }
        let next = self.count;
        let slot = self.nodes[next].slot;
        if !self.directory.note_at_once(notice, slot) {
            return false;
        }
        counter.count_moves(1);
        self.nodes[next] = HeapNode { mark, slot };
        self.count = next + 1;
        self.free -= 1;
        self.slots[slot] = alone(notice, mark, next);
        remember(&mut self.hints, next, mark, slot);
        true
    }

    /// The slot in which to look for the last of a line that a plain entry may join, or `NO_SLOT`. It is a guess.
    #[inline(always)]
    pub(crate) fn hint(&self, mark: Mark) -> usize {
        hinted(&self.hints, mark)
    }

    /// Puts a plain entry after the entry of a slot, if that is the last of a line of its time which comes before it, there is room for
    /// it, and its notice is found to be new at once; and says whether it did. If not, no entry has changed. Counts a comparison where
    /// there is room and the last of a line is in that slot, and a move where it did.
    #[inline(never)]
    pub(crate) fn append_to(
        &mut self,
        before: usize,
        mark: Mark,
        notice: i64,
        counter: &mut WorkCounter,
    ) -> bool
        requires plain { mark.order < plain_ranks * plain_numbers }
        requires comparable { counter.old.comparisons + 1 < 2 ^ 64 }
        requires countable { counter.old.moves + 1 < 2 ^ 64 }
        ensures heads { self.new.heads ≡ self.old.heads }
        ensures done { result ≡ true → IsPermutation (plain_entry mark notice ∷ self.old.followers) self.new.followers }
        ensures apart { result ≡ true → list_any (int_eq notice) (notices_of self.old.heads) ≡ false }
        ensures fresh { result ≡ true → list_any (int_eq notice) (notices_of self.old.followers) ≡ false }
        ensures kept { result ≡ false → self.new ≡ self.old }
        ensures counted { result ≡ true → counter.new ≡ record counter.old { comparisons = counter.old.comparisons + 1; moves = counter.old.moves + 1 } }
        ensures tried { result ≡ false → HasComparedOnce counter.old counter.new }
    {
        if self.free == 0 || self.slots.len() - self.free >= self.directory.cells() / 4 {
            return false;
        }
        if !is_last_before(&self.slots, self.count, before, mark, counter) {
            return false;
        }
        let last = self.count + self.free - 1;
        let slot = self.nodes[last].slot;
        if !self.directory.note_at_once(notice, slot) {
            return false;
        }
        self.free -= 1;
        line_up(&mut self.slots, before, slot, notice, mark, counter);
        remember(&mut self.hints, self.count, mark, slot);
        true
    }

    /// Lets the lines of two places change places. Counts two moves.
    #[inline(always)]
    pub(crate) fn swap(&mut self, a: usize, b: usize, counter: &mut WorkCounter)
        requires a_within { a < length self.old.heads }
        requires b_within { b < length self.old.heads }
        requires countable { counter.old.moves + 2 < 2 ^ 64 }
        ensures swapped { self.new ≡ record self.old { heads = swap self.old.heads a b } }
        ensures moved { counter.new ≡ record counter.old { moves = counter.old.moves + 2 } }
    {
        exchange(&mut self.nodes, &mut self.slots, a, b, counter);
    }

    /// Takes the entry out of a place, into which the next of its line comes, or else the last head, and answers its time and its
    /// notice. Counts the move of the next of the line, or the two by which the entry and the last head change places.
    pub(crate) fn remove(&mut self, at: usize, counter: &mut WorkCounter) -> (i64, i64)
        requires within { at < length self.old.heads }
        requires countable { counter.old.moves + 2 < 2 ^ 64 }
        ensures removed { HasRemovedEntry self.old self.new at result }
        ensures moved { HasMoved 1 2 counter.old counter.new }
    {
        let node = self.nodes[at];
        let Slot { notice, next, .. } = self.slots[node.slot];
        if next != NO_SLOT {
            advance(&mut self.nodes, &mut self.slots, at, next, counter);
            release(
                &mut self.nodes,
                &mut self.slots,
                self.count + self.free,
                node.slot,
            );
        } else {
            let last = self.count - 1;
            exchange(&mut self.nodes, &mut self.slots, at, last, counter);
            self.count = last;
            clear(&mut self.entries, node.slot, node.mark);
        }
        self.free += 1;
        self.directory.forget(notice, node.slot);
        (node.mark.time, notice)
    }

    /// Takes out the entry of a notice where it follows another one, and says whether it did. Counts a move where another one comes into
    /// its place in the line. If it did not, nothing has changed.
    pub(crate) fn remove_follower(&mut self, notice: i64, counter: &mut WorkCounter) -> bool
        requires countable { counter.old.moves + 1 < 2 ^ 64 }
        ensures found { result ≡ list_any (int_eq notice) (notices_of self.old.followers) }
        ensures left { result ≡ true → HasLostFollower self.old self.new notice }
        ensures kept { result ≡ false → self.new ≡ self.old }
        ensures moved { HasMoved 0 1 counter.old counter.new }
        ensures unmoved { result ≡ false → counter.new ≡ counter.old }
    {
        let Some(slot) = slot_of(&self.directory, &self.slots, self.count, notice) else {
            return false;
        };
        let Slot { next, at, .. } = self.slots[slot];
        if at < FOLLOWING {
            return false;
        }
        close_up(&mut self.slots, at - FOLLOWING, next, counter);
        release(
            &mut self.nodes,
            &mut self.slots,
            self.count + self.free,
            slot,
        );
        self.free += 1;
        self.directory.forget(notice, slot);
        true
    }
}

// Makes a directory of more cells, unless there are more than four for each slot that is taken: of notices that come and go in
// turn, the oldest still pending may be far from the newest.
#[inline(always)]
fn make_cells(
    directory: &mut SlotDirectory,
    hints: &mut Vec<SlotHint>,
    slots: &[Slot],
    count: usize,
    free: usize,
) -> Result<(), AllocError>
    requires some { free ≤ length slots.now }
    requires distinct { AreDistinct count slots.now }
    requires led { AreLed directory.old count slots.now }
    ensures { AreLed directory.new count slots.now }
{
    if slots.len() - free < directory.cells() / 4 {
        return Ok(());
    }
    make_twice_the_cells(directory, hints, slots, count)
}

// Makes a directory of twice as many cells; and hints, the first time.
#[inline(never)]
fn make_twice_the_cells(
    directory: &mut SlotDirectory,
    hints: &mut Vec<SlotHint>,
    slots: &[Slot],
    count: usize,
) -> Result<(), AllocError>
    requires distinct { AreDistinct count slots.now }
    requires led { AreLed directory.old count slots.now }
    ensures { AreLed directory.new count slots.now }
{
    let alloc = *hints.allocator();
    if hints.is_empty() {
        *hints = Vec::from_elem(
            alloc,
            SlotHint {
                time: 0,
                slot: NO_SLOT,
            },
            HINTS,
        )?;
    }
    *directory = noted(alloc, slots, count, directory.cells().saturating_mul(2))?;
    Ok(())
}

// A directory of so many cells that leads to each slot that is taken.
fn noted(
    alloc: Global,
    slots: &[Slot],
    count: usize,
    cells: usize,
) -> Result<SlotDirectory, AllocError>
    requires { AreDistinct count slots.now }
    ensures { IfOk result (λ d. AreLed d count slots.now) }
{
    let mut directory = SlotDirectory::of_cells(alloc, cells)?;
    for slot in 0..slots.len() {
        let it = slots[slot];
        if it.at < count || it.at >= FOLLOWING {
            directory.note(it.notice, slot)?;
        }
    }
    Ok(directory)
}
