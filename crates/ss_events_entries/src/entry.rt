//! Keys and entries.
//!
//! Nothing but this module reads a key, and none of its functions hands an entry out. So two keys are compared and an
//! entry is put into a place only by functions of this module, and each of them counts it in a `WorkCounter`.
ghost use Rattle.std.specs.Prelude.{◌≡◌, ◌<◌, ◌*◌, [], pos, IfOk, IfSome, IsTrue, ◌↔◌, int_lt, map};
ghost use Rattle.ss_world.specs.PendingList.{IsFittingKey};
ghost use Rattle.ss_events_entries.specs.Slots.{is_tied, no_entry, no_mark, order_of, mark_of, plain_entry, plain_ranks, plain_numbers};

mod counter;
mod directory;
mod heap;
mod hints;
mod order;
mod places;
mod slots;

use crate::key::fits_class;
pub use heap::EntryHeap;
pub use hints::MANY;
use ss_world::{Tie, TieShape};
use std::alloc::{AllocError, Global};
use std::marker::Model;

// An entry is plain where it has no ties, and its rank and its number of scheduling are below these: its mark describes it.
pub const PLAIN_RANKS: usize = 65_536;

pub const PLAIN_NUMBERS: u64 = 140_737_488_355_328;

// In a mark, in place of the order of an entry that isn't plain.
const NOT_PLAIN: u64 = u64::MAX;

/// What decides when a notice comes out: its time in units, the rank of its class, and its ties.
///
/// The values are those at the moment when the key is made. A contract sees the record of the three.
#[derive(Clone, Debug, Drop)]
pub struct Key {
    time: i64,
    rank: usize,
    ties: Vec<Tie>,
}

impl Model for Key {
    ghost use Rattle.ss_world.specs.SortKey.{SortKey};

    ghost Value = { SortKey };

    ghost view = { λ key. record { time = key.time; rank = key.rank; ties = key.ties.items } };
}

impl Key {
    /// The key of a notice at this time, of the class of this rank, with these ties in turn.
    pub fn of(alloc: Global, time: i64, rank: usize, ties: &[Tie]) -> Result<Key, AllocError>
        ensures { IfOk result (λ key. key ≡ record { time = time; rank = rank; ties = ties.now }) }
    {
        let ties = Vec::from_slice(alloc, ties)?;
        Ok(Key { time, rank, ties })
    }

    /// A key that takes over these ties. It needs no memory of its own.
    pub fn with_ties(time: i64, rank: usize, ties: Vec<Tie>) -> Key
        ensures { result ≡ record { time = time; rank = rank; ties = ties.items } }
    {
        Key { time, rank, ties }
    }

    /// Whether the rank is that of one of these classes, and the ties have the shapes of that class.
    pub fn fits(&self, classes: &[Vec<TieShape>]) -> bool
        ensures { IsTrue result ↔ IsFittingKey (map (λ shapes. shapes.items) classes.now) self.now }
    {
        fits_class(classes, self.rank, &self.ties)
    }

    /// Whether the time lies before a moment.
    pub fn is_before(&self, moment: i64) -> bool
        ensures { result ≡ int_lt self.now.time moment }
    {
        self.time < moment
    }

    /// The time and the rank, where there are no ties.
    pub fn untied(&self) -> Option<(i64, usize)>
        ensures { IfSome result (λ r. self.now ≡ record { time = r.0; rank = r.1; ties = [] }) }
    {
        if is_tied(&self.ties) {
            return None;
        }
        Some((self.time, self.rank))
    }
}

// A pending notice with its key and its place in the order of scheduling.
#[derive(Drop)]
struct Entry {
    key: Key,
    // How many schedulings came before this one.
    number: u64,
    notice: i64,
}

impl Model for Entry {
    ghost use Rattle.ss_world.specs.PendingNotice.{PendingNotice};

    ghost Value = { PendingNotice };

    ghost view = { λ e. record { key = e.key; number = e.number; notice = e.notice } };
}

// Whether there are ties.
#[inline(always)]
fn is_tied(ties: &[Tie]) -> bool
    ensures { result ≡ is_tied ties.now }
{
    match ties {
        [] => false,
        _ => true,
    }
}

// When an entry comes out, without a look at the entry itself: its time, and its order among those of one time.
#[derive(Clone, Copy)]
struct Mark {
    time: i64,
    order: u64,
}

impl Mark {
    // The mark of no entry.
    #[inline(always)]
    fn none() -> Mark
        ensures { result ≡ no_mark }
    {
        Mark { time: 0, order: 0 }
    }
}

// In which order a plain entry comes among others of its time: by the rank, and then by the order of scheduling.
#[inline(always)]
fn order_of(entry: &Entry) -> u64
    ensures { result ≡ order_of entry.now }
{
    if is_tied(&entry.key.ties) || entry.key.rank >= PLAIN_RANKS || entry.number >= PLAIN_NUMBERS {
        return NOT_PLAIN;
    }
    entry.key.rank as u64 * PLAIN_NUMBERS + entry.number
}

#[inline(always)]
fn mark_of(entry: &Entry) -> Mark
    ensures { result ≡ mark_of entry.now }
{
    Mark {
        time: entry.key.time,
        order: order_of(entry),
    }
}

// The plain entry that a mark describes, but for its notice.
fn plain_entry(alloc: Global, mark: Mark) -> Entry
    requires { mark.order < plain_ranks * plain_numbers }
    ensures { result ≡ plain_entry mark (pos 0) }
{
    Entry {
        key: Key::with_ties(
            mark.time,
            (mark.order / PLAIN_NUMBERS) as usize,
            Vec::new(alloc),
        ),
        number: mark.order % PLAIN_NUMBERS,
        notice: 0,
    }
}

impl Entry {
    // Fills a slot whose entry isn't stored whole. It has no ties.
    #[inline(always)]
    fn none(alloc: Global) -> Entry
        ensures { result ≡ no_entry }
    {
        Entry {
            key: Key::with_ties(0, 0, Vec::new(alloc)),
            number: 0,
            notice: 0,
        }
    }
}
