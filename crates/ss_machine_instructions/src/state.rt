//! What the machine works on.

ghost use Rattle.std.specs.Prelude.{◌≡◌, ◌+◌, ◌<◌, ◌^◌, ℕ, suc, true, false, length, slice_get, Some, None};
ghost use Rattle.ss_machine_frames.specs.Rows.{place_at, with_number, with_text};
ghost use Rattle.ss_machine_instructions.specs.Ways.{stopped, faulted, faulted_by, faulted_test, refused_by, test_of, done_unless_fault};

use crate::flow::{Ending, Here};
use ss_base::{Alpha, FaultKind, Line, Refused};
use ss_code_instructions::address::Address;
use ss_machine_frames::frames::Frames;
use ss_machine_frames::rows::Rows;
use ss_machine_world::world::World;
use std::alloc::Global;

/// What the machine works on, but for its code and where it is in that: the rows of values, the open calls, the world below,
/// and where memory comes from. Beside that the ticks that are left, the steps made in all, why the
/// last one led nowhere, and the last fault: its kind, and its line where that is not the line of its instruction. The rows come first,
/// so that an operand is reached by the pointer that there is.
#[derive(Drop)]
pub struct State {
    pub rows: Rows,
    pub frames: Frames,
    pub world: World,
    pub alloc: Global,
    pub ticks: u64,
    pub steps: u128,
    pub ending: Ending,
    pub fault: FaultKind,
    pub fault_line: Option<Line>,
}

impl State {
    /// The number at an address.
    #[inline(always)]
    pub fn number(&self, here: Here, address: &Address) -> i64
        requires { place_at here.frame address.now < length self.now.rows.numbers }
        ensures { slice_get self.now.rows.numbers (place_at here.frame address.now) ≡ Some result }
    {
        self.rows.number(here.frame, address)
    }

    /// A number goes to an address.
    #[inline(always)]
    pub fn set_number(&mut self, here: Here, address: &Address, number: i64)
        requires { place_at here.frame address.now < length self.old.rows.numbers }
        ensures { self.new ≡ record self.old { rows = with_number self.old.rows (place_at here.frame address.now) number } }
    {
        self.rows.set_number(here.frame, address, number);
    }

    /// The text at an address.
    #[inline(always)]
    pub fn text(&self, here: Here, address: &Address) -> Alpha
        requires { place_at here.frame address.now < length self.now.rows.numbers }
        ensures { slice_get self.now.rows.texts (place_at here.frame address.now) ≡ Some result }
    {
        self.rows.text(here.frame, address)
    }

    /// A text goes to an address.
    #[inline(always)]
    pub fn set_text(&mut self, here: Here, address: &Address, text: Alpha)
        requires { place_at here.frame address.now < length self.old.rows.numbers }
        ensures { self.new ≡ record self.old { rows = with_text self.old.rows (place_at here.frame address.now) text } }
    {
        self.rows.set_text(here.frame, address, text);
    }

    /// The place of a cell of the frame.
    #[inline(always)]
    pub fn cell(&self, here: Here, cell: u32) -> usize
        requires { here.frame < 2 ^ 63 }
        ensures { result ≡ here.frame + cell }
    {
        here.frame + cell as usize
    }

    /// It does not go on.
    #[inline(always)]
    pub fn stop<T>(&mut self, ending: Ending) -> Option<T>
        ensures none { result ≡ None }
        ensures stopped { self.new ≡ stopped ending self.old }
    {
        self.ending = ending;
        None
    }

    /// A fault.
    #[inline(always)]
    pub fn fault<T>(&mut self, kind: FaultKind) -> Option<T>
        ensures none { result ≡ None }
        ensures faulted { self.new ≡ faulted kind self.old }
    {
        self.fault = kind;
        self.stop(Ending::Faulted)
    }

    /// On to the next instruction, unless there was a fault.
    #[inline(always)]
    pub fn done(&mut self, answer: Result<(), FaultKind>) -> Option<()>
        ensures way { result ≡ done_unless_fault answer }
        ensures state { self.new ≡ faulted_by answer self.old }
    {
        match answer {
            Ok(()) => Some(()),
            Err(kind) => self.fault(kind),
        }
    }

    /// Where memory was refused, or there was a fault.
    #[inline(always)]
    pub fn refused<T>(&mut self, refused: Refused) -> Option<T>
        ensures none { result ≡ None }
        ensures state { self.new ≡ refused_by refused self.old }
    {
        match refused {
            Refused::Fault(kind) => self.fault(kind),
            Refused::Memory => self.stop(Ending::NoMemory),
        }
    }

    /// On where a test holds, or does not if negated, and else past so many instructions.
    #[inline(always)]
    pub fn tested(&mut self, answer: Result<bool, FaultKind>, negated: bool) -> Option<bool>
        ensures way { result ≡ test_of answer negated }
        ensures state { self.new ≡ faulted_test answer self.old }
    {
        match answer {
            Ok(holds) => Some(holds != negated),
            Err(kind) => self.fault(kind),
        }
    }

    /// A tick is taken, and it goes on; where none is left, it does not.
    #[inline(always)]
    pub fn has_taken_tick(&mut self) -> bool
        ensures none { result ≡ false → (self.old.ticks ≡ 0) × (self.new ≡ self.old) }
        ensures taken { result ≡ true → (t : ℕ) × (self.old.ticks ≡ suc t) × (self.new ≡ record self.old { ticks = t }) }
        ensures few { result ≡ true → self.old.ticks < 2 ^ 64 }
    {
        if self.ticks == 0 {
            return false;
        }
        self.ticks -= 1;
        true
    }

    /// The instruction that took a tick is not carried out: memory was refused.
    #[inline(always)]
    pub fn give_tick_back<T>(&mut self) -> Option<T>
        requires { self.old.ticks + 1 < 2 ^ 64 }
        ensures none { result ≡ None }
        ensures state { self.new ≡ record self.old { ticks = self.old.ticks + 1; ending = Ending.NoMemory } }
    {
        self.ticks += 1;
        self.stop(Ending::NoMemory)
    }
}
