//! Entities that come and go.

ghost use Rattle.ss_machine_instructions.specs.Doing.{Can, HasDone};
ghost use Rattle.ss_machine_instructions.specs.Ways.{on_after};

use crate::flow::Here;
use crate::state::State;
use ss_code_instructions::address::Address;
use ss_code_instructions::instruction::Instruction;

impl State {
    /// Create.
    #[inline]
    pub fn create(&mut self, here: Here, class: u32, to: &Address) -> Option<()>
        requires { Can here self.old (Instruction.Create class to.now) }
        ensures { HasDone here self.old self.new (on_after here result) (Instruction.Create class to.now) }
    {
        match self.world.create(class as usize) {
            Ok(number) => self.put(here, to, Ok(number)),
            Err(refused) => self.refused(refused),
        }
    }

    /// CreateAll.
    #[inline]
    pub fn create_all(&mut self, here: Here, class: u32, variable: u32) -> Option<()>
        requires { Can here self.old (Instruction.CreateAll class variable) }
        ensures { HasDone here self.old self.new (on_after here result) (Instruction.CreateAll class variable) }
    {
        let count = self.rows.number_at(variable as usize);
        match self.world.create_all(class as usize, count) {
            Ok(()) => Some(()),
            Err(refused) => self.refused(refused),
        }
    }

    /// Destroy.
    #[inline]
    pub fn destroy(&mut self, here: Here, class: u32, entity: &Address) -> Option<()>
        requires { Can here self.old (Instruction.Destroy class entity.now) }
        ensures { HasDone here self.old self.new (on_after here result) (Instruction.Destroy class entity.now) }
    {
        let entity = self.number(here, entity);
        let answer = self.world.destroy(class as usize, entity);
        self.done(answer)
    }
}
