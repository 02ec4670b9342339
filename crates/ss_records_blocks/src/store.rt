// The functions with a pointer, and the blocks as all others see them.
ghost use Rattle.std.specs.Prelude.{◌≡◌, ℕ, ◌+◌, ◌*◌, ◌^◌, ◌<◌, Bool, cond, List, [], ◌∷◌, length, MatchResult, IfOk};
ghost use Rattle.ss_records_blocks.specs.Cells.{Word, blank, number, counter, link, Cells, words_at, word_at, put_word, without_block, blanks, IsNumber, IsCounter, IsLink, MayBeNumber, MayBeCounter, MayBeLink};
ghost use Rattle.ss_records_blocks.specs.Ownership.{store_owns, store_lent};

use std::alloc::{AllocError, Allocator, Global};
use std::marker::Model;

/// Where a block lies. It owns nothing: the words there are read and written by the calls of `Blocks` alone.
pub struct BlockPlace {
    /// The first word of the block.
    pub at: *mut u64,
}

impl Clone for BlockPlace {
    ghost is_clone = { λ x y. y ≡ x };

    ghost is_infallible = { λ _. Rattle.std.specs.Prelude.⊤ };

    fn clone(&self) -> Result<BlockPlace, AllocError> {
        Ok(*self)
    }
}

impl Copy for BlockPlace {}

/// The owner of the blocks in `cells`, and of nothing else. It takes no space. It has no `Drop`: `close` alone lets go of it, once no
/// block is left.
struct Store {
    ghost cells: { Cells },
    ghost total: { ℕ },
}

impl Model for Store {
    ghost also_owns = { λ s. store_owns s.cells };

    ghost also_shares = { λ s p κ. store_lent s.cells κ };
}

impl Store {
    fn new() -> Store
        ensures { (result.cells ≡ []) × (result.total ≡ 0) }
    {
        Store {}
    }

    fn close(self)
        requires { self.cells ≡ [] }
    {
        let Store {} = self;
    }

    fn place(&mut self, alloc: &Global, words: usize) -> Result<BlockPlace, AllocError>
        requires { (0 < words) × (words * 8 < 2 ^ 63) }
        ensures { MatchResult result (λ p. (words_at self.old.cells p.at ≡ []) × (self.new.cells ≡ (p.at, blanks words) ∷ self.old.cells) × (self.new.total ≡ self.old.total)) (λ _. self.new ≡ self.old) }
    {
        match alloc.allocate(words * 8, 8) {
            Ok(block) => Ok(BlockPlace {
                at: block as *mut u64,
            }),
            Err(error) => Err(error),
        }
    }

    fn give_back(&mut self, alloc: &Global, place: BlockPlace, words: usize)
        requires { (length (words_at self.old.cells place.at) ≡ words) × (0 < words) }
        ensures { (self.new.cells ≡ without_block self.old.cells place.at) × (self.new.total ≡ self.old.total) }
    {
        let at = place.at as *mut u8;
        unsafe {
            alloc.deallocate(at, words * 8, 8);
        }
    }

    /// A number, or one that counts as a touch.
    fn set_value(&mut self, place: BlockPlace, k: usize, value: u64)
        ghost counts: { Bool }
        requires { k < length (words_at self.old.cells place.at) }
        ensures { (self.new.cells ≡ put_word self.old.cells place.at k (cond counts (counter value) (number value))) × (self.new.total ≡ cond counts (self.old.total + 1) self.old.total) }
    {
        let at = place.at;
        unsafe {
            *at.add(k) = value;
        }
    }

    fn number(&self, place: BlockPlace, k: usize) -> u64
        requires { IsNumber (word_at self.now.cells place.at k) }
        ensures { word_at self.now.cells place.at k ≡ number result }
    {
        let at = place.at;
        unsafe { *at.add(k) }
    }

    fn count(&mut self, place: BlockPlace, k: usize) -> u64
        requires { IsCounter (word_at self.old.cells place.at k) }
        ensures { (word_at self.old.cells place.at k ≡ counter result) × (self.new.cells ≡ self.old.cells) × (self.new.total ≡ self.old.total + 1) }
    {
        let at = place.at;
        unsafe { *at.add(k) }
    }

    fn set_link(&mut self, place: BlockPlace, k: usize, to: BlockPlace)
        requires { (k < length (words_at self.old.cells place.at)) × MayBeLink (word_at self.old.cells place.at k) }
        ensures { (self.new.cells ≡ put_word self.old.cells place.at k (link to.at)) × (self.new.total ≡ self.old.total + 1) }
    {
        let at = place.at;
        let target = to.at;
        unsafe {
            let word = at.add(k) as *mut *mut u64;
            *word = target;
        }
    }

    fn link(&mut self, place: BlockPlace, k: usize) -> BlockPlace
        requires { IsLink (word_at self.old.cells place.at k) }
        ensures { (word_at self.old.cells place.at k ≡ link result.at) × (self.new.cells ≡ self.old.cells) × (self.new.total ≡ self.old.total + 1) }
    {
        let at = place.at;
        let target = unsafe {
            let word = at.add(k) as *mut *mut u64;
            *word
        };
        BlockPlace { at: target }
    }
}

/// The blocks, of words of 64 bits, with the counts of what was done: touches are reads and writes of links, ends and
/// counts of members. A contract sees the words of each block, the touches since they were last set, and all touches so
/// far, which no call sets. A word keeps its kind from its first write on.
pub struct Blocks {
    store: Store,
    touches: u64,
    placed: u64,
}

impl Model for Blocks {
    ghost use Rattle.std.specs.Prelude.{◌≡◌, length};
    ghost use Rattle.ss_records_blocks.specs.Cells.{Memory};

    ghost Value = { Memory };

    ghost view = { λ b. record { cells = b.store.cells; touches = b.touches; total = b.store.total } };

    ghost invariant = { λ b. b.placed ≡ length b.store.cells };
}

impl Blocks {
    /// No block, and no touch.
    pub(crate) fn new() -> Blocks
        ensures cells { result.cells ≡ [] }
        ensures touches { (result.touches ≡ 0) × (result.total ≡ 0) }
    {
        Blocks {
            store: Store::new(),
            touches: 0,
            placed: 0,
        }
    }

    /// One new block of so many words, and no other. The error comes where memory was refused.
    pub fn with_one(alloc: &Global, words: usize) -> Result<(Blocks, BlockPlace), AllocError>
        requires size { (0 < words) × (words * 8 < 2 ^ 63) }
        ensures { IfOk result (λ b. (b.0.cells ≡ (b.1.at, blanks words) ∷ []) × (b.0.touches ≡ 0) × (b.0.total ≡ 0)) }
    {
        let mut blocks = Blocks::new();
        match blocks.place(alloc, words) {
            Ok(place) => Ok((blocks, place)),
            Err(e) => {
                blocks.close();
                Err(e)
            }
        }
    }

    /// Gives up the store once no block is left.
    pub fn close(self)
        requires { self.cells ≡ [] }
    {
        let Blocks {
            store,
            touches: _,
            placed: _,
        } = self;
        store.close();
    }

    /// How many blocks are placed and not given back.
    pub fn placed(&self) -> u64
        ensures { result ≡ length self.now.cells }
    {
        self.placed
    }

    /// The touches since `start`.
    pub fn touches(&self) -> u64
        ensures { result ≡ self.now.touches }
    {
        self.touches
    }

    /// Counts the touches from 0 on.
    pub fn start(&mut self)
        ensures cells { self.new.cells ≡ self.old.cells }
        ensures touches { (self.new.touches ≡ 0) × (self.new.total ≡ self.old.total) }
    {
        self.touches = 0;
    }

    /// Counts the touches from so many on: those that a call has made so far and counts itself.
    pub fn start_at(&mut self, count: u64)
        ensures cells { self.new.cells ≡ self.old.cells }
        ensures touches { (self.new.touches ≡ count) × (self.new.total ≡ self.old.total) }
    {
        self.touches = count;
    }

    /// Counts so many touches, for writes that don't count their own.
    pub fn expect(&mut self, count: u64)
        requires { self.old.touches + count < 2 ^ 64 }
        ensures cells { self.new.cells ≡ self.old.cells }
        ensures touches { (self.new.touches ≡ self.old.touches + count) × (self.new.total ≡ self.old.total) }
    {
        self.touches += count;
    }

    /// A new block of so many words, which are blank. After the error, which comes where memory was refused, all is as it
    /// was.
    #[inline(always)]
    pub fn place(&mut self, alloc: &Global, words: usize) -> Result<BlockPlace, AllocError>
        requires size { (0 < words) × (words * 8 < 2 ^ 63) }
        requires room { length self.old.cells + 1 < 2 ^ 64 }
        ensures placed { MatchResult result (λ p. (words_at self.old.cells p.at ≡ []) × (self.new.cells ≡ (p.at, blanks words) ∷ self.old.cells)) (λ _. self.new.cells ≡ self.old.cells) }
        ensures touches { (self.new.touches ≡ self.old.touches) × (self.new.total ≡ self.old.total) }
    {
        let place = self.store.place(alloc, words)?;
        self.placed += 1;
        Ok(place)
    }

    /// Gives a block of so many words back to the allocator. The others stay as they are.
    #[inline(always)]
    #[tactic(auto, using(crate::proofs::Count::blocks_without))]
    pub fn give_back(&mut self, alloc: &Global, place: BlockPlace, words: usize)
        requires size { (length (words_at self.old.cells place.at) ≡ words) × (0 < words) }
        ensures cells { self.new.cells ≡ without_block self.old.cells place.at }
        ensures touches { (self.new.touches ≡ self.old.touches) × (self.new.total ≡ self.old.total) }
    {
        self.store.give_back(alloc, place, words);
        self.placed -= 1;
    }

    /// The number in the word k of a block. It is no touch.
    pub fn number(&self, place: BlockPlace, k: usize) -> u64
        requires { IsNumber (word_at self.now.cells place.at k) }
        ensures { word_at self.now.cells place.at k ≡ number result }
    {
        self.store.number(place, k)
    }

    /// Writes a number into the word k of a block. It is no touch.
    #[tactic(auto, using(crate::proofs::Count::blocks_put))]
    pub fn set_number(&mut self, place: BlockPlace, k: usize, value: u64)
        requires { (k < length (words_at self.old.cells place.at)) × MayBeNumber (word_at self.old.cells place.at k) }
        ensures cells { self.new.cells ≡ put_word self.old.cells place.at k (number value) }
        ensures touches { (self.new.touches ≡ self.old.touches) × (self.new.total ≡ self.old.total) }
    {
        self.store.set_value(place, k, value);
    }

    /// The count of members in the word k of a block: one touch.
    pub fn count(&mut self, place: BlockPlace, k: usize) -> u64
        requires word { IsCounter (word_at self.old.cells place.at k) }
        requires room { self.old.touches + 1 < 2 ^ 64 }
        ensures word { word_at self.old.cells place.at k ≡ counter result }
        ensures cells { self.new.cells ≡ self.old.cells }
        ensures touches { (self.new.touches ≡ self.old.touches + 1) × (self.new.total ≡ self.old.total + 1) }
    {
        self.touches += 1;
        self.store.count(place, k)
    }

    /// Writes a count of members: one touch, which the caller counts.
    #[tactic(auto, using(crate::proofs::Count::blocks_put))]
    pub(crate) fn set_count(&mut self, place: BlockPlace, k: usize, value: u64)
        requires { (k < length (words_at self.old.cells place.at)) × MayBeCounter (word_at self.old.cells place.at k) }
        ensures cells { self.new.cells ≡ put_word self.old.cells place.at k (counter value) }
        ensures touches { (self.new.touches ≡ self.old.touches) × (self.new.total ≡ self.old.total + 1) }
    {
        self.store.set_value(place, k, value);
    }

    /// Where the link in the word k of a block leads: one touch.
    pub fn link(&mut self, place: BlockPlace, k: usize) -> BlockPlace
        requires word { IsLink (word_at self.old.cells place.at k) }
        requires room { self.old.touches + 1 < 2 ^ 64 }
        ensures word { word_at self.old.cells place.at k ≡ link result.at }
        ensures cells { self.new.cells ≡ self.old.cells }
        ensures touches { (self.new.touches ≡ self.old.touches + 1) × (self.new.total ≡ self.old.total + 1) }
    {
        self.touches += 1;
        self.store.link(place, k)
    }

    /// Where a link leads: one touch, which the caller counts.
    pub(crate) fn peek_link(&mut self, place: BlockPlace, k: usize) -> BlockPlace
        requires word { IsLink (word_at self.old.cells place.at k) }
        ensures word { word_at self.old.cells place.at k ≡ link result.at }
        ensures cells { self.new.cells ≡ self.old.cells }
        ensures touches { (self.new.touches ≡ self.old.touches) × (self.new.total ≡ self.old.total + 1) }
    {
        let store = &mut self.store;
        store.link(place, k)
    }

    /// The count of members in the word k of a block: one touch, which the caller counts.
    pub fn peek_count(&mut self, place: BlockPlace, k: usize) -> u64
        requires word { IsCounter (word_at self.old.cells place.at k) }
        ensures word { word_at self.old.cells place.at k ≡ counter result }
        ensures cells { self.new.cells ≡ self.old.cells }
        ensures touches { (self.new.touches ≡ self.old.touches) × (self.new.total ≡ self.old.total + 1) }
    {
        self.store.count(place, k)
    }

    /// Sets where a link leads: one touch, which the caller counts.
    #[tactic(auto, using(crate::proofs::Count::blocks_put))]
    pub(crate) fn set_link(&mut self, place: BlockPlace, k: usize, to: BlockPlace)
        requires { (k < length (words_at self.old.cells place.at)) × MayBeLink (word_at self.old.cells place.at k) }
        ensures cells { self.new.cells ≡ put_word self.old.cells place.at k (link to.at) }
        ensures touches { (self.new.touches ≡ self.old.touches) × (self.new.total ≡ self.old.total + 1) }
    {
        self.store.set_link(place, k, to);
    }
}
