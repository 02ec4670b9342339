// Where the slot of a notice is looked for.
ghost use Rattle.std.specs.Prelude.{◌≡◌, ◌≢◌, ℕ, ℤ, true, false, OnOk};
ghost use Rattle.ss_events_entries.specs.Slots.{IsGuess, no_slot, cell_of, first_guess, second_guess};

use std::alloc::{AllocError, Global};
use std::collections::HashMap;

// In a cell that names no slot.
const FREE: usize = usize::MAX;

// The least number of cells.
const FEWEST_CELLS: usize = 16;

/// Names two slots for a notice. If it is pending, it is in one of them, and the caller has to look which.
///
/// A notice has a cell, whose number is its last binary digits: notices with numbers in turn have cells of their own.
/// Where another notice has taken the cell, a map names the slot.
#[derive(Drop)]
pub struct SlotDirectory {
    cells: Vec<usize>,
    // The last digits, all set.
    mask: usize,
    others: HashMap<i64, usize>,
}

impl SlotDirectory {
    /// A directory without cells.
    pub(crate) fn new(alloc: Global) -> SlotDirectory {
        SlotDirectory {
            cells: Vec::new(alloc),
            mask: 0,
            others: HashMap::new(alloc),
        }
    }

    /// A directory of so many cells, all of them free.
    pub(crate) fn of_cells(alloc: Global, count: usize) -> Result<SlotDirectory, AllocError> {
        let count = count.max(FEWEST_CELLS);
        Ok(SlotDirectory {
            cells: Vec::from_elem(alloc, FREE, count)?,
            mask: count - 1,
            others: HashMap::new(alloc),
        })
    }

    /// How many cells there are.
    #[inline(always)]
    pub(crate) fn cells(&self) -> usize {
        self.cells.len()
    }

    // The number of the cell of a notice.
    #[inline(always)]
    fn cell(&self, notice: i64) -> usize
        ensures { result ≡ cell_of self.now notice }
    {
        notice.cast_unsigned() as usize & self.mask
    }

    /// The slot that the cell of a notice names, or a number past all slots.
    #[inline(always)]
    pub(crate) fn first_guess(&self, notice: i64) -> usize
        ensures { result ≡ first_guess self.now notice }
    {
        let cell = self.cell(notice);
        if cell < self.cells.len() {
            return self.cells[cell];
        }
        FREE
    }

    /// The slot that the map names, or a number past all slots.
    #[inline(always)]
    pub(crate) fn second_guess(&self, notice: i64) -> usize
        ensures { result ≡ second_guess self.now notice }
    {
        if self.others.is_empty() {
            return FREE;
        }
        self.mapped(notice)
    }

    // The slot that the map names, where the map isn't empty.
    #[inline(never)]
    fn mapped(&self, notice: i64) -> usize
        ensures { result ≡ second_guess self.now notice }
    {
        self.others.get(&notice).copied().unwrap_or(FREE)
    }

    /// Notes the slot of a notice that is new here.
    #[inline(always)]
    pub(crate) fn note(&mut self, notice: i64, slot: usize) -> Result<(), AllocError>
        ensures noted { OnOk result (IsGuess self.new notice slot) }
        ensures others { (n : ℤ) → (s : ℕ) → n ≢ notice → s ≢ no_slot → IsGuess self.old n s → IsGuess self.new n s }
    {
        let cell = self.cell(notice);
        if cell < self.cells.len() && self.cells[cell] == FREE {
            self.cells[cell] = slot;
            return Ok(());
        }
        self.note_in_map(notice, slot)
    }

    /// Notes the slot of a notice, if its cell shows that the notice is new here, and says whether it did. If not, nothing has changed.
    #[inline(always)]
    pub(crate) fn note_at_once(&mut self, notice: i64, slot: usize) -> bool
        ensures fresh { result ≡ true → (first_guess self.old notice ≡ no_slot) × (second_guess self.old notice ≡ no_slot) }
        ensures noted { result ≡ true → IsGuess self.new notice slot }
        ensures others { (n : ℤ) → (s : ℕ) → n ≢ notice → s ≢ no_slot → IsGuess self.old n s → IsGuess self.new n s }
        ensures kept { result ≡ false → self.new ≡ self.old }
    {
        let cell = self.cell(notice);
        if cell < self.cells.len()
            && self.cells[cell] == FREE
            && self.second_guess(notice) == FREE
        {
            self.cells[cell] = slot;
            return true;
        }
        false
    }

    // Notes the slot of a notice in the map, whatever its cell names.
    #[inline(never)]
    fn note_in_map(&mut self, notice: i64, slot: usize) -> Result<(), AllocError>
        ensures noted { OnOk result (IsGuess self.new notice slot) }
        ensures others { (n : ℤ) → (s : ℕ) → n ≢ notice → s ≢ no_slot → IsGuess self.old n s → IsGuess self.new n s }
    {
        self.others.insert(notice, slot)?;
        Ok(())
    }

    /// Forgets a notice that was in a slot. It needs no memory.
    #[inline(always)]
    pub(crate) fn forget(&mut self, notice: i64, slot: usize)
        ensures others { (n : ℤ) → (s : ℕ) → n ≢ notice → s ≢ slot → IsGuess self.old n s → IsGuess self.new n s }
    {
        let cell = self.cell(notice);
        if cell < self.cells.len() && self.cells[cell] == slot {
            self.cells[cell] = FREE;
            return;
        }
        self.forget_in_map(notice);
    }

    // Forgets what the map names for a notice.
    #[inline(never)]
    fn forget_in_map(&mut self, notice: i64)
        ensures { (n : ℤ) → (s : ℕ) → n ≢ notice → IsGuess self.old n s → IsGuess self.new n s }
    {
        let _ = self.others.remove(&notice);
    }
}
