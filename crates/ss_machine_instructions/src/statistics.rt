//! What statistics note and say, and RESET.

ghost use Rattle.std.specs.Prelude.{◌≡◌, ◌+◌, ◌<◌, ◌^◌, ℕ, length, slice_get, Some};
ghost use Rattle.ss_base.specs.declared.layout.Mode.TheVariants.{Integer};
ghost use Rattle.ss_world.specs.State.{modes_of};
ghost use Rattle.ss_machine_time.specs.Figures.{statistic_variable};
ghost use Rattle.ss_machine_world.specs.Numbers.{attribute_noted};
ghost use Rattle.ss_machine_instructions.specs.Doing.{Can, HasDone};
ghost use Rattle.ss_machine_instructions.specs.Noted.{HasNoted};
ghost use Rattle.ss_machine_instructions.specs.Ways.{on_after};

use crate::flow::Here;
use crate::state::State;
use ss_base::FaultKind;
use ss_code_instructions::address::Address;
use ss_code_instructions::instruction::Instruction;
use ss_program::expression::Fold;

impl State {
    /// Figure.
    #[inline]
    pub fn figure(
        &mut self,
        here: Here,
        fold: Fold,
        statistic: u32,
        entity: &Address,
        to: &Address,
    ) -> Option<()>
        requires { Can here self.old (Instruction.Figure statistic entity.now to.now fold) }
        ensures { HasDone here self.old self.new (on_after here result) (Instruction.Figure statistic entity.now to.now fold) }
    {
        let entity = self.number(here, entity);
        let answer = self.world.figure(fold, statistic as usize, entity);
        self.put(here, to, answer)
    }

    /// Keep.
    #[inline]
    pub fn keep(&mut self, here: Here, from: &Address, variable: u32) -> Option<()>
        requires { Can here self.old (Instruction.Keep from.now variable) }
        ensures { HasDone here self.old self.new (on_after here result) (Instruction.Keep from.now variable) }
    {
        let value = self.number(here, from);
        let number = variable as usize;
        self.rows.set_number_at(number, value);
        let answer = self.world.note_variable(number, value);
        self.done(answer)
    }

    /// On to the next instruction where an attribute was assigned a value, which is noted where it is watched, and there was no fault.
    #[inline(always)]
    pub(crate) fn assigned(
        &mut self,
        answer: Result<(), FaultKind>,
        class: usize,
        field: usize,
        entity: i64,
        noted: bool,
    ) -> Option<()>
        requires class { class < length self.old.world.heap.layout.classes }
        requires mode { slice_get (modes_of self.old.world.heap.layout class) field ≡ Some Integer }
        ensures { HasNoted noted (attribute_noted class field entity) answer self.old self.new result }
    {
        match answer {
            Err(kind) => self.fault(kind),
            Ok(()) => {
                if noted {
                    let answer = self.world.note_attribute(class, field, entity);
                    self.done(answer)
                } else {
                    Some(())
                }
            }
        }
    }

    // The value of the global variable that a statistic is about, 0 where it is about none.
    fn held(&self, statistic: usize) -> i64
        requires within { (k : ℕ) → statistic_variable self.now.world.statistics statistic ≡ Some k → k < length self.now.rows.numbers }
        ensures { (k : ℕ) → statistic_variable self.now.world.statistics statistic ≡ Some k → slice_get self.now.rows.numbers k ≡ Some result }
    {
        match self.world.variable_of(statistic) {
            None => 0,
            Some(number) => self.rows.number_at(number),
        }
    }

    /// Reset.
    #[inline]
    pub fn reset(&mut self, here: Here, statistic: u32, entity: &Address) -> Option<()>
        requires { Can here self.old (Instruction.Reset statistic entity.now) }
        ensures { HasDone here self.old self.new (on_after here result) (Instruction.Reset statistic entity.now) }
    {
        let statistic = statistic as usize;
        let entity = self.number(here, entity);
        let held = self.held(statistic);
        let answer = self.world.reset(statistic, entity, held);
        self.done(answer)
    }
}
