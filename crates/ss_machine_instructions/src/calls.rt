//! Calls.

ghost use Rattle.std.specs.Prelude.{◌≡◌, ◌+◌, ◌<◌, ◌≤◌, ◌^◌, ℕ, length, slice_get, Some, IfOk, OnErr};
ghost use Rattle.ss_code_instructions.specs.Carried.{IsSized};
ghost use Rattle.ss_machine_frames.specs.Rows.{AreYielded};
ghost use Rattle.ss_machine_instructions.specs.Doing.{Can, HasDone, CanWhere, HasDoneWhere};
ghost use Rattle.ss_machine_instructions.specs.Entered.{HasEntered, IsOutOfMemory};
ghost use Rattle.ss_machine_instructions.specs.declared.flow.Here.{Here as HereSeen};
ghost use Rattle.ss_machine_instructions.specs.Ways.{entered_at, led, on_after};

use crate::flow::{Ending, Here, Next};
use crate::state::State;
use ss_code_instructions::entry::SectionEntry;
use ss_code_instructions::instruction::Instruction;
use ss_machine_frames::frames::Frame;
use std::alloc::AllocError;

impl State {
    /// A section begins, whose frame begins at a cell: what it is given lies there already, its other variables hold their
    /// first values, and there is room for its cells. It answers where the frame begins.
    #[inline(always)]
    pub fn enter(
        &mut self,
        here: Here,
        entry: &SectionEntry,
        cell: u32,
    ) -> Result<usize, AllocError>
        requires sized { IsSized entry.now }
        requires small { here.frame < 2 ^ 63 }
        requires place { here.place + 1 < 2 ^ 64 }
        ensures ok { IfOk result (λ frame. HasEntered here self.old self.new entry.now cell frame) }
        ensures err { OnErr result (IsOutOfMemory self.old self.new) }
    {
        let frame = self.cell(here, cell);
        self.rows.reach(frame + entry.room)?;
        self.rows.clear(frame + entry.given.len(), &entry.others);
        self.frames.push(Frame {
            back: here.place + 1,
            caller: here.frame,
            given: entry.given.len() as u32,
            yielding: entry.yielding as u32,
        })?;
        Ok(frame)
    }

    /// Call.
    #[inline]
    pub fn call(&mut self, here: Here, entry: &SectionEntry, cell: u32) -> Option<usize>
        requires { (routine : ℕ) × CanWhere (λ w. slice_get w.run.routines routine ≡ Some entry.now) here self.old (Instruction.Call routine cell) }
        ensures { (routine : ℕ) → HasDoneWhere (λ w. slice_get w.run.routines routine ≡ Some entry.now) here self.old self.new (entered_at entry.now result) (Instruction.Call routine cell) }
    {
        if !self.has_taken_tick() {
            return self.stop(Ending::Paused);
        }
        match self.enter(here, entry, cell) {
            Err(_) => self.give_tick_back(),
            Ok(frame) => Some(frame),
        }
    }

    /// Leave.
    #[inline(always)]
    pub fn leave(&mut self, here: Here) -> Next
        requires { Can here self.old Instruction.Leave }
        ensures { HasDone here self.old self.new (led result) Instruction.Leave }
    {
        match self.frames.pop() {
            None => here.on().after(self.stop(Ending::Ended)),
            Some(frame) => {
                if frame.yielding == 0 {
                    return Next::to(frame.back, frame.caller);
                }
                self.yield_values(here.frame, frame);
                Next::to(frame.back, frame.caller)
            }
        }
    }

    /// Halt.
    #[inline(always)]
    pub fn halt(&mut self) -> Option<()>
        ensures { (here : HereSeen) → HasDone here self.old self.new (on_after here result) Instruction.Halt }
    {
        self.stop(Ending::Ended)
    }

    // What is yielded goes where the frame begins, the first on top.
    #[inline(never)]
    fn yield_values(&mut self, to: usize, frame: Frame)
        requires within { to + frame.given + frame.yielding ≤ length self.old.rows.numbers }
        requires small { length self.old.rows.numbers < 2 ^ 63 }
        ensures rows { AreYielded self.old.rows self.new.rows (to + frame.given) to frame.yielding }
        ensures same { self.new ≡ record self.old { rows = self.new.rows } }
    {
        let from = to + frame.given as usize;
        self.rows.yield_down(from, to, frame.yielding as usize);
    }
}
