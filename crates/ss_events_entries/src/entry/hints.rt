// Hints in which slot to look for the last of a line. Nothing that is promised depends on them.

use super::slots::NO_SLOT;
use super::{Mark, PLAIN_NUMBERS};

/// The fewest heads among which it is worth while to look for a line that an entry may join.
pub const MANY: usize = 64;

// How many times are remembered, each with the entry that came to it last.
pub(super) const HINTS: usize = 4096;

// A slot to look in for the last of a line of entries that come at a time.
#[derive(Clone, Copy)]
pub(super) struct SlotHint {
    pub(super) time: i64,
    pub(super) slot: usize,
}

// Which hint is that for entries of this time and rank.
#[inline(always)]
fn hint_of(mark: Mark) -> usize {
    (mark.time.cast_unsigned() as usize ^ (mark.order / PLAIN_NUMBERS) as usize) & (HINTS - 1)
}

// The slot in which to look for the last of a line that an entry may join, or none.
#[inline(always)]
pub(super) fn hinted(hints: &[SlotHint], mark: Mark) -> usize {
    let hint = hint_of(mark);
    if hint < hints.len() && hints[hint].time == mark.time {
        return hints[hint].slot;
    }
    NO_SLOT
}

// Remembers in which slot the last of a line is, where there are many heads.
#[inline(always)]
pub(super) fn remember(hints: &mut [SlotHint], heads: usize, mark: Mark, slot: usize) {
    if heads >= MANY {
        give_hint(hints, mark, slot);
    }
}

#[inline(never)]
fn give_hint(hints: &mut [SlotHint], mark: Mark, slot: usize) {
    let hint = hint_of(mark);
    if hint < hints.len() {
        hints[hint] = SlotHint {
            time: mark.time,
            slot,
        };
    }
}
