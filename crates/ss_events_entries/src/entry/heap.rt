// The entries of the event list in the places of a heap.
ghost use Rattle.std.specs.Prelude.{true, false, ◌||◌, ◌*◌, ◌≤◌, ℕ, ◌≡◌, ◌<◌, ◌+◌, ◌++◌, ◌∷◌, ◌^◌, ◌==◌, if◌then◌else◌, [], length, swap, slice_get, slice_index_or, OnOk, OnErr, Some, None, IfSome, position, is_some};
ghost use Rattle.std.specs.Ordering.{int_eq};
ghost use Rattle.std.specs.List.{list_any};
ghost use Rattle.std.specs.List.Sorted.{IsPermutation};
ghost use Rattle.ss_events_entries.specs.declared.entry.Entry.{Entry};
ghost use Rattle.ss_events_entries.specs.CallWork.{HasComparedOnce, HasMoved};
ghost use Rattle.ss_events_entries.specs.CountedList.{no_work, with_work};
ghost use Rattle.ss_events_entries.specs.HeapEntries.{heap_lines, call_work_of, notices_of, event_of, HasRemovedEntry, HasLostFollower, AreAfterHeads};
ghost use Rattle.ss_events_entries.specs.HeapOrder.{IsFirstOf, IsFirstAmong};
ghost use Rattle.ss_world.specs.Order.{comes_before};
ghost use Rattle.ss_events_entries.specs.Slots.{mark_of, plain_ranks, plain_numbers};
ghost use Rattle.ss_events_entries.specs.declared.entry.slots.HeapNode.{HeapNode as HeapNodeSeen};

use super::counter::WorkCounter;
use super::order::comes_before;
use super::places::Places;
use super::slots::{HeapNode, NO_SLOT};
use super::{Entry, Key, Mark, NOT_PLAIN, PLAIN_NUMBERS};
use std::alloc::{AllocError, Global};
use std::marker::Model;

/// Entries in lines, whose heads are in places from 0 on.
///
/// It counts each comparison of two keys and each write of an entry into a place.
#[derive(Drop)]
pub struct EntryHeap {
    entries: Places,
    counter: WorkCounter,
}

impl Model for EntryHeap {
    ghost use Rattle.ss_events_entries.specs.HeapEntries.{HeapEntries};

    ghost Value = { HeapEntries };

    ghost view = { λ h. record { entries = h.entries.heads; followers = h.entries.followers; comparisons = h.counter.comparisons; moves = h.counter.moves; before = h.counter.before } };
}

impl EntryHeap {
    pub fn new(alloc: Global) -> EntryHeap
        ensures { result ≡ record { entries = []; followers = []; comparisons = 0; moves = 0; before = no_work } }
    {
        EntryHeap {
            entries: Places::new(alloc),
            counter: WorkCounter::new(),
        }
    }

    pub fn len(&self) -> usize
        ensures { result ≡ length self.now.entries }
    {
        self.entries.len()
    }

    /// The comparisons since the counts were reset.
    pub fn comparisons(&self) -> u64
        ensures { result ≡ self.now.comparisons }
    {
        self.counter.comparisons()
    }

    /// The moves since the counts were reset.
    pub fn moves(&self) -> u64
        ensures { result ≡ self.now.moves }
    {
        self.counter.moves()
    }

    /// Resets the comparisons and the moves of a call to 0, as the next call begins. The total of all calls stays as it is.
    #[inline(always)]
    pub fn reset_counts(&mut self)
        ensures { self.new ≡ record self.old { comparisons = 0; moves = 0; before = with_work self.old.before self.old.comparisons self.old.moves } }
    {
        self.counter.begin_call();
    }

    /// Does nothing. Its contract says that each follower comes after a head.
    #[inline(always)]
    pub fn are_after_heads(&self)
        ensures { AreAfterHeads self.now.entries self.now.followers }
    {
        self.entries.are_after_heads();
    }

    /// Whether there is an entry of a notice.
    #[inline(always)]
    pub fn holds(&self, notice: i64) -> bool
        ensures { result ≡ (list_any (int_eq notice) (notices_of self.now.entries) || list_any (int_eq notice) (notices_of self.now.followers)) }
    {
        self.entries.holds(notice)
    }

    /// The place of the entry of a notice, where it is the head of a line.
    pub fn find(&self, notice: i64) -> Option<usize>
        ensures place { result ≡ position (int_eq notice) (notices_of self.now.entries) }
        ensures found { is_some result ≡ list_any (int_eq notice) (notices_of self.now.entries) }
    {
        self.entries.find(notice)
    }

    /// The time and the notice of the entry in the first place.
    pub fn first(&self) -> (i64, i64)
        requires { 0 < length self.now.entries }
        ensures { (d : Entry) → result ≡ event_of (slice_index_or self.now.entries 0 d) }
    {
        self.entries.event(0)
    }

    /// Reads the slot that follows the entry in the first place, so that it is in the cache when that entry is taken out. Nothing
    /// changes.
    #[inline(always)]
    pub fn look_ahead(&mut self)
        requires { 0 < length self.old.entries }
        ensures { self.new ≡ self.old }
    {
        self.entries.look_ahead();
    }

    /// Whether the entry at place `a` comes out before that at `b`. Counts a comparison.
    #[inline(always)]
    pub fn is_before(&mut self, a: usize, b: usize) -> bool
        requires a_within { a < length self.old.entries }
        requires b_within { b < length self.old.entries }
        requires countable { self.old.comparisons + 1 < 2 ^ 64 }
        ensures value { (d : Entry) → result ≡ comes_before (slice_index_or self.old.entries a d) (slice_index_or self.old.entries b d) }
        ensures counted { self.new ≡ record self.old { comparisons = self.old.comparisons + 1 } }
    {
        self.counter.count_comparisons(1);
        let (early, late) = (self.entries.mark(a), self.entries.mark(b));
        if early.time != late.time {
            return early.time < late.time;
        }
        if early.order == NOT_PLAIN || late.order == NOT_PLAIN {
            return is_tied_before(&self.entries, a, b);
        }
        early.order < late.order
    }

    /// The first of the entries in four places from this one on. Counts three comparisons.
    #[inline(always)]
    pub fn first_of_four(&mut self, from: usize) -> usize
        requires within { from + 4 ≤ length self.old.entries }
        requires small { from + 4 < 2 ^ 64 }
        requires countable { self.old.comparisons + 3 < 2 ^ 64 }
        ensures first { IsFirstAmong comes_before self.old.entries from (from + 4) result }
        ensures counted { self.new ≡ record self.old { comparisons = self.old.comparisons + 3 } }
    {
        self.counter.count_comparisons(3);
        let four = self.entries.four(from);
        let left = first_of(&self.entries, four, from, 0, 1);
        let right = first_of(&self.entries, four, from, 2, 3);
        from + first_of(&self.entries, four, from, left, right)
    }

    /// Lets the entries of two places change places. Counts two moves.
    #[inline(always)]
    pub fn swap(&mut self, a: usize, b: usize)
        requires a_within { a < length self.old.entries }
        requires b_within { b < length self.old.entries }
        requires countable { self.old.moves + 2 < 2 ^ 64 }
        ensures { self.new ≡ record self.old { entries = swap self.old.entries a b; moves = self.old.moves + 2 } }
    {
        self.entries.swap(a, b, &mut self.counter);
    }

    /// Makes room for one more entry.
    pub fn make_room(&mut self) -> Result<(), AllocError>
        ensures { self.new ≡ self.old }
    {
        self.entries.make_room()
    }

    /// Puts an entry of a notice into the next place. Counts a move.
    pub fn push(&mut self, key: Key, number: u64, notice: i64) -> Result<(), AllocError>
        requires apart { list_any (int_eq notice) (notices_of self.old.entries) ≡ false }
        requires fresh { list_any (int_eq notice) (notices_of self.old.followers) ≡ false }
        requires countable { self.old.moves + 1 < 2 ^ 64 }
        ensures ok { OnOk result (self.new ≡ record self.old { entries = self.old.entries ++ record { key = key; number = number; notice = notice } ∷ []; moves = self.old.moves + 1 }) }
        ensures err { OnErr result (self.new ≡ self.old) }
    {
        let entry = Entry {
            key,
            number,
            notice,
        };
        self.entries.push(entry, &mut self.counter)
    }

    /// Puts a plain entry into the next place, if there is room and its notice is found to be new at once, and says whether it did.
    /// Counts a move where it did. If not, nothing has changed.
    #[inline(always)]
    pub fn push_plain(&mut self, time: i64, rank: usize, number: u64, notice: i64) -> bool
        requires rank { rank < plain_ranks }
        requires number { number < plain_numbers }
        requires countable { self.old.moves + 1 < 2 ^ 64 }
        ensures done { result ≡ true → self.new ≡ record self.old { entries = self.old.entries ++ record { key = record { time = time; rank = rank; ties = [] }; number = number; notice = notice } ∷ []; moves = self.old.moves + 1 } }
        ensures apart { result ≡ true → list_any (int_eq notice) (notices_of self.old.entries) ≡ false }
        ensures fresh { result ≡ true → list_any (int_eq notice) (notices_of self.old.followers) ≡ false }
        ensures kept { result ≡ false → self.new ≡ self.old }
    {
        let mark = plain_mark(time, rank, number);
        self.entries.push_plain(mark, notice, &mut self.counter)
    }

    /// Puts a plain entry after the last of a line of its time, where one is found that comes before it; and says whether it did.
    /// Counts a comparison where there is an entry to compare it with, and a move where it did. If not, the entries are what they were.
    #[inline(never)]
    pub fn append_plain(&mut self, time: i64, rank: usize, number: u64, notice: i64) -> bool
        requires rank { rank < plain_ranks }
        requires number { number < plain_numbers }
        requires comparable { self.old.comparisons + 1 < 2 ^ 64 }
        requires countable { self.old.moves + 1 < 2 ^ 64 }
        ensures entries { self.new.entries ≡ self.old.entries }
        ensures done { result ≡ true → IsPermutation (record { key = record { time = time; rank = rank; ties = [] }; number = number; notice = notice } ∷ self.old.followers) self.new.followers }
        ensures apart { result ≡ true → list_any (int_eq notice) (notices_of self.old.entries) ≡ false }
        ensures fresh { result ≡ true → list_any (int_eq notice) (notices_of self.old.followers) ≡ false }
        ensures moved { result ≡ true → self.new.moves ≡ self.old.moves + 1 }
        ensures compared { result ≡ true → self.new.comparisons ≡ self.old.comparisons + 1 }
        ensures before { self.new.before ≡ self.old.before }
        ensures kept { result ≡ false → self.new.followers ≡ self.old.followers }
        ensures tried { result ≡ false → HasComparedOnce (call_work_of self.old) (call_work_of self.new) }
    {
        let mark = plain_mark(time, rank, number);
        let before = self.entries.hint(mark);
        if before == NO_SLOT {
            return false;
        }
        self.entries
            .append_to(before, mark, notice, &mut self.counter)
    }

    /// Takes the entry out of a place, into which the next of its line moves, or else the last head, and answers its time and its
    /// notice. Counts the move of the next of the line, or the two by which the entry and the last head change places.
    pub fn remove(&mut self, at: usize) -> (i64, i64)
        requires within { at < length self.old.entries }
        requires countable { self.old.moves + 2 < 2 ^ 64 }
        ensures removed { HasRemovedEntry (heap_lines self.old) (heap_lines self.new) at result }
        ensures moved { HasMoved 1 2 (call_work_of self.old) (call_work_of self.new) }
    {
        self.entries.remove(at, &mut self.counter)
    }

    /// Takes out the entry of a notice where it follows another one, and says whether it did. Counts a move where another one comes into
    /// its place in the line. If it did not, nothing has changed.
    pub fn remove_follower(&mut self, notice: i64) -> bool
        requires countable { self.old.moves + 1 < 2 ^ 64 }
        ensures found { result ≡ list_any (int_eq notice) (notices_of self.old.followers) }
        ensures left { result ≡ true → HasLostFollower (heap_lines self.old) (heap_lines self.new) notice }
        ensures moved { HasMoved 0 1 (call_work_of self.old) (call_work_of self.new) }
        ensures kept { result ≡ false → self.new ≡ self.old }
    {
        self.entries.remove_follower(notice, &mut self.counter)
    }
}

// The mark of a plain entry.
#[inline(always)]
fn plain_mark(time: i64, rank: usize, number: u64) -> Mark
    requires rank { rank < plain_ranks }
    requires number { number < plain_numbers }
    ensures { result ≡ record { time = time; order = rank * plain_numbers + number } }
{
    Mark {
        time,
        order: rank as u64 * PLAIN_NUMBERS + number,
    }
}

// The first of two of the four entries from a place on, one left of the other. It is reckoned without a branch, which would go one way
// as often as the other.
#[inline(always)]
fn first_of(entries: &Places, four: &[HeapNode], from: usize, left: usize, right: usize) -> usize
    requires apart { left < right }
    requires right { right < 4 }
    requires four { length four.now ≡ 4 }
    requires within { from + 4 ≤ length entries.now.heads }
    requires small { from + 4 < 2 ^ 64 }
    requires marks { (k : ℕ) → k < 4 → (s : HeapNodeSeen) (d : Entry) → (slice_index_or four.now k s).mark ≡ mark_of (slice_index_or entries.now.heads (from + k) d) }
    ensures { IsFirstOf comes_before entries.now.heads (from + left) (from + right) (from + result) }
{
    let is_right = is_before_in(entries, four, from, right, left);
    left + usize::from(is_right) * (right - left)
}

// Whether one of the four entries from a place on comes out before another of them.
#[inline(always)]
fn is_before_in(entries: &Places, four: &[HeapNode], from: usize, a: usize, b: usize) -> bool
    requires a { a < 4 }
    requires b { b < 4 }
    requires four { length four.now ≡ 4 }
    requires within { from + 4 ≤ length entries.now.heads }
    requires small { from + 4 < 2 ^ 64 }
    requires marks { (k : ℕ) → k < 4 → (s : HeapNodeSeen) (d : Entry) → (slice_index_or four.now k s).mark ≡ mark_of (slice_index_or entries.now.heads (from + k) d) }
    ensures { (d : Entry) → result ≡ comes_before (slice_index_or entries.now.heads (from + a) d) (slice_index_or entries.now.heads (from + b) d) }
{
    let (early, late) = (four[a].mark, four[b].mark);
    if early.time != late.time {
        return early.time < late.time;
    }
    if early.order == NOT_PLAIN || late.order == NOT_PLAIN {
        return is_tied_before(entries, from + a, from + b);
    }
    early.order < late.order
}

// Whether the entry at place `a` comes out before that at `b`, where their marks don't decide it.
#[inline(never)]
fn is_tied_before(entries: &Places, a: usize, b: usize) -> bool
    requires a_within { a < length entries.now.heads }
    requires b_within { b < length entries.now.heads }
    ensures { (d : Entry) → result ≡ comes_before (slice_index_or entries.now.heads a d) (slice_index_or entries.now.heads b d) }
{
    if entries.mark(a).order == NOT_PLAIN {
        return is_before_at(entries.whole(a), entries, b);
    }
    let plain = entries.plain(a);
    is_before_at(&plain, entries, b)
}

// Whether an entry comes out before that at place `b`.
fn is_before_at(entry: &Entry, entries: &Places, b: usize) -> bool
    requires { b < length entries.now.heads }
    ensures { (d : Entry) → result ≡ comes_before entry.now (slice_index_or entries.now.heads b d) }
{
    if entries.mark(b).order == NOT_PLAIN {
        return comes_before(entry, entries.whole(b));
    }
    let plain = entries.plain(b);
    comes_before(entry, &plain)
}
