// Following links, and the six writes that link an entity into a set or out of it.
ghost use Rattle.std.specs.Prelude.{◌≡◌, ℕ, ◌+◌, ◌-◌, ◌^◌, ◌<◌, ◌≤◌, true, false, length};
ghost use denote.RawPtr.{Ptr};
ghost use Rattle.ss_records_blocks.specs.Cells.{IsLink, IsCounter, link, number, counter, words_at, word_at, put_word};
ghost use Rattle.ss_records_blocks.specs.Links.{HasLink, hooked, linked_in, unlinked_in, slots_at};

use crate::head::NUMBER;
use crate::store::{BlockPlace, Blocks};

/// An entity by its block and its number. The system has the number 0.
#[derive(Clone, Copy)]
pub struct EntityBlock {
    /// Where its block lies.
    pub place: BlockPlace,
    /// What the block names as its number.
    pub number: u64,
}

/// Where an entity is linked in, or is linked: between two neighbours in a set of an owner, each of which may be the end.
#[derive(Clone, Copy)]
pub struct LinkPosition {
    /// The owner of the set.
    pub owner: BlockPlace,
    /// The member before.
    pub before: BlockPlace,
    /// Whether there is none before.
    pub is_first: bool,
    /// The member after.
    pub after: BlockPlace,
    /// Whether there is none after.
    pub is_last: bool,
    /// How many members the set has.
    pub count: u64,
}

// A word that is a link: where its block lies, and which word of it.
#[derive(Clone, Copy)]
struct LinkWord(BlockPlace, usize);

impl Blocks {
    /// The entity that a link leads to: a touch.
    pub fn follow(&mut self, place: BlockPlace, k: usize) -> EntityBlock
        requires leads { HasLink self.old.cells place.at k }
        requires room { self.old.touches + 1 < 2 ^ 64 }
        ensures word { word_at self.old.cells place.at k ≡ link result.place.at }
        ensures there { word_at self.old.cells result.place.at 1 ≡ number result.number }
        ensures cells { self.new.cells ≡ self.old.cells }
        ensures touches { (self.new.touches ≡ self.old.touches + 1) × (self.new.total ≡ self.old.total + 1) }
    {
        let to = self.link(place, k);
        EntityBlock {
            place: to,
            number: self.number(to, NUMBER),
        }
    }

    /// As `follow`, but the caller counts the touch.
    #[inline(always)]
    pub fn look(&mut self, place: BlockPlace, k: usize) -> EntityBlock
        requires leads { HasLink self.old.cells place.at k }
        ensures word { word_at self.old.cells place.at k ≡ link result.place.at }
        ensures there { word_at self.old.cells result.place.at 1 ≡ number result.number }
        ensures cells { self.new.cells ≡ self.old.cells }
        ensures touches { (self.new.touches ≡ self.old.touches) × (self.new.total ≡ self.old.total + 1) }
    {
        let to = self.peek_link(place, k);
        EntityBlock {
            place: to,
            number: self.number(to, NUMBER),
        }
    }

    // Sets where a link leads: a touch, which the caller counts. Words keep their kinds.
    fn relink(&mut self, place: BlockPlace, k: usize, to: BlockPlace)
        requires word { IsLink (word_at self.old.cells place.at k) }
        ensures cells { self.new.cells ≡ put_word self.old.cells place.at k (link to.at) }
        ensures links { (q : Ptr) (j : ℕ) → IsLink (word_at self.old.cells q j) → IsLink (word_at self.new.cells q j) }
        ensures counters { (q : Ptr) (j : ℕ) → IsCounter (word_at self.old.cells q j) → IsCounter (word_at self.new.cells q j) }
        ensures touches { (self.new.touches ≡ self.old.touches) × (self.new.total ≡ self.old.total + 1) }
    {
        self.set_link(place, k, to);
    }

    // Sets where the word of the owner leads, if the neighbour is the end, and else where that of the neighbour leads: a
    // touch, which the caller counts.
    fn hook(&mut self, ends: bool, owner: LinkWord, neighbour: LinkWord, to: BlockPlace)
        requires owner { IsLink (word_at self.old.cells owner.0.at owner.1) }
        requires neighbour { ends ≡ false → IsLink (word_at self.old.cells neighbour.0.at neighbour.1) }
        ensures cells { self.new.cells ≡ hooked ends self.old.cells owner.0.at owner.1 neighbour.0.at neighbour.1 to.at }
        ensures links { (q : Ptr) (j : ℕ) → IsLink (word_at self.old.cells q j) → IsLink (word_at self.new.cells q j) }
        ensures counters { (q : Ptr) (j : ℕ) → IsCounter (word_at self.old.cells q j) → IsCounter (word_at self.new.cells q j) }
        ensures touches { (self.new.touches ≡ self.old.touches) × (self.new.total ≡ self.old.total + 1) }
    {
        if ends {
            self.relink(owner.0, owner.1, to);
        } else {
            self.relink(neighbour.0, neighbour.1, to);
        }
    }

    /// Links x in between two neighbours, of which each may be the end: six touches. The words of the set
    /// begin at `member` in a member's block and at `set` in the owner's.
    pub fn link_between(
        &mut self,
        member: usize,
        set: usize,
        x: BlockPlace,
        position: &LinkPosition,
    )
        requires member { IsLink (word_at self.old.cells x.at member) × IsLink (word_at self.old.cells x.at (member + 1)) × IsLink (word_at self.old.cells x.at (member + 2)) }
        requires owner { IsLink (word_at self.old.cells position.now.owner.at set) × IsLink (word_at self.old.cells position.now.owner.at (set + 1)) × IsCounter (word_at self.old.cells position.now.owner.at (set + 2)) }
        requires before { position.now.is_first ≡ false → IsLink (word_at self.old.cells position.now.before.at member) }
        requires after { position.now.is_last ≡ false → IsLink (word_at self.old.cells position.now.after.at (member + 1)) }
        requires words { (member + 2 < 2 ^ 64) × (set + 2 < 2 ^ 64) }
        requires counts { position.now.count + 1 < 2 ^ 64 }
        requires room { self.old.touches + 6 < 2 ^ 64 }
        ensures cells { self.new.cells ≡ linked_in (slots_at member set) self.old.cells position.now.owner.at position.now.before.at position.now.is_first x.at position.now.after.at position.now.is_last position.now.count }
        ensures touches { (self.new.touches ≡ self.old.touches + 6) × (self.new.total ≡ self.old.total + 6) }
    {
        let LinkPosition {
            owner,
            before,
            is_first,
            after,
            is_last,
            count,
        } = *position;
        self.expect(6);
        self.relink(x, member, after);
        self.relink(x, member + 1, before);
        self.relink(x, member + 2, owner);
        let next = LinkWord(before, member);
        let previous = LinkWord(after, member + 1);
        self.hook(is_first, LinkWord(owner, set), next, x);
        self.hook(is_last, LinkWord(owner, set + 1), previous, x);
        self.set_count(owner, set + 2, count + 1);
    }

    /// Unlinks x from between its neighbours, of which each may be the end: six touches. Then its links
    /// lead to itself.
    pub fn unlink(&mut self, member: usize, set: usize, x: BlockPlace, position: &LinkPosition)
        requires member { IsLink (word_at self.old.cells x.at member) × IsLink (word_at self.old.cells x.at (member + 1)) × IsLink (word_at self.old.cells x.at (member + 2)) }
        requires owner { IsLink (word_at self.old.cells position.now.owner.at set) × IsLink (word_at self.old.cells position.now.owner.at (set + 1)) × IsCounter (word_at self.old.cells position.now.owner.at (set + 2)) }
        requires before { position.now.is_first ≡ false → IsLink (word_at self.old.cells position.now.before.at member) }
        requires after { position.now.is_last ≡ false → IsLink (word_at self.old.cells position.now.after.at (member + 1)) }
        requires words { (member + 2 < 2 ^ 64) × (set + 2 < 2 ^ 64) }
        requires counts { 0 < position.now.count }
        requires room { self.old.touches + 6 < 2 ^ 64 }
        ensures cells { self.new.cells ≡ unlinked_in (slots_at member set) self.old.cells position.now.owner.at position.now.before.at position.now.is_first x.at position.now.after.at position.now.is_last position.now.count }
        ensures touches { (self.new.touches ≡ self.old.touches + 6) × (self.new.total ≡ self.old.total + 6) }
    {
        let LinkPosition {
            owner,
            before,
            is_first,
            after,
            is_last,
            count,
        } = *position;
        self.expect(6);
        self.relink(x, member, x);
        self.relink(x, member + 1, x);
        self.relink(x, member + 2, x);
        let next = LinkWord(before, member);
        let previous = LinkWord(after, member + 1);
        self.hook(is_first, LinkWord(owner, set), next, after);
        self.hook(is_last, LinkWord(owner, set + 1), previous, before);
        self.set_count(owner, set + 2, count - 1);
    }
}
