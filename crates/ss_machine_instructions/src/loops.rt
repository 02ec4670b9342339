//! FOR over numbers.

ghost use Rattle.std.specs.Prelude.{◌≡◌, ℕ, not, pos, int_lt};
ghost use Rattle.ss_code_instructions.specs.Machine.{has_item};
ghost use Rattle.ss_machine_instructions.specs.Doing.{Can, HasDone};
ghost use Rattle.ss_machine_instructions.specs.Ways.{item_after, back_if_at, on_after, on_if_at, tested_at};

use crate::flow::{Ending, Here};
use crate::state::State;
use ss_base::FaultKind;
use ss_code_instructions::address::Address;
use ss_code_instructions::instruction::Instruction;

// Where the limit and the step of a loop lie above its item.
const LIMIT: usize = 1;

const STEP: usize = 2;

// The next item of a loop, where there is one. None has an item that is not below the limit. How far it is below is then a number without
// a sign, and so the step is read without one.
#[inline(always)]
fn next_item(item: i64, step: i64, limit: i64) -> Option<i64>
    ensures { result ≡ item_after item step limit }
{
    if item >= limit {
        return None;
    }
    let left = limit.wrapping_sub(item).cast_unsigned();
    if left < step.cast_unsigned() {
        return None;
    }
    Some(item.wrapping_add(step))
}

// Whether a number is an item of a loop.
#[inline(always)]
fn is_item(number: i64, limit: i64) -> bool
    ensures { result ≡ has_item number limit }
{
    number <= limit
}

// Whether a step is at least 1.
#[inline(always)]
fn rises(step: i64) -> bool
    ensures { int_lt step (pos 1) ≡ not result }
{
    step >= 1
}

impl State {
    /// Begin.
    #[inline]
    pub fn begin(&mut self, here: Here, cell: u32) -> Option<bool>
        requires { (skip : ℕ) × Can here self.old (Instruction.Begin cell skip) }
        ensures { (skip : ℕ) → HasDone here self.old self.new (tested_at here result skip) (Instruction.Begin cell skip) }
    {
        let at = self.cell(here, cell);
        let step = self.rows.number_at(at + STEP);
        let limit = self.rows.number_at(at + LIMIT);
        let item = self.rows.number_at(at);
        if !rises(step) {
            return self.fault(FaultKind::LoopStep);
        }
        Some(is_item(item, limit))
    }

    /// BeginClass.
    #[inline]
    pub fn begin_class(&mut self, here: Here, class: u32, cell: u32) -> bool
        requires { (skip : ℕ) × Can here self.old (Instruction.BeginClass class cell skip) }
        ensures { (skip : ℕ) → HasDone here self.old self.new (on_if_at here result skip) (Instruction.BeginClass class cell skip) }
    {
        let count = self.world.population.count(class as usize);
        let at = self.cell(here, cell);
        self.rows.set_number_at(at, 1);
        self.rows.set_number_at(at + LIMIT, count);
        self.rows.set_number_at(at + STEP, 1);
        is_item(1, count)
    }

    /// Turn.
    #[inline(always)]
    pub fn turn(&mut self, here: Here) -> Option<()>
        requires { Can here self.old Instruction.Turn }
        ensures { HasDone here self.old self.new (on_after here result) Instruction.Turn }
    {
        if !self.has_taken_tick() {
            return self.stop(Ending::Paused);
        }
        Some(())
    }

    /// Take.
    #[inline]
    pub fn take(&mut self, here: Here, cell: u32, to: &Address) -> Option<()>
        requires { Can here self.old (Instruction.Take cell to.now) }
        ensures { HasDone here self.old self.new (on_after here result) (Instruction.Take cell to.now) }
    {
        if !self.has_taken_tick() {
            return self.stop(Ending::Paused);
        }
        let item = self.rows.number_at(self.cell(here, cell));
        self.set_number(here, to, item);
        Some(())
    }

    /// Next.
    #[inline]
    pub fn next(&mut self, here: Here, cell: u32) -> bool
        requires { (back : ℕ) × Can here self.old (Instruction.Next cell back) }
        ensures { (back : ℕ) → HasDone here self.old self.new (back_if_at here result back) (Instruction.Next cell back) }
    {
        let at = self.cell(here, cell);
        let item = self.rows.number_at(at);
        let step = self.rows.number_at(at + STEP);
        let limit = self.rows.number_at(at + LIMIT);
        match next_item(item, step, limit) {
            None => false,
            Some(next) => {
                self.rows.set_number_at(at, next);
                true
            }
        }
    }
}
