//! Looks at references.

ghost use Rattle.ss_machine_instructions.specs.Doing.{Can, HasDone};
ghost use Rattle.ss_machine_instructions.specs.Ways.{on_after};

use crate::flow::Here;
use crate::state::State;
use ss_code_instructions::address::Address;
use ss_code_instructions::instruction::Instruction;

impl State {
    /// LookEntity.
    #[inline]
    pub fn look_entity(&mut self, here: Here, class: u32, entity: &Address) -> Option<()>
        requires { Can here self.old (Instruction.LookEntity class entity.now) }
        ensures { HasDone here self.old self.new (on_after here result) (Instruction.LookEntity class entity.now) }
    {
        let entity = self.number(here, entity);
        let answer = self.world.population.known(class as usize, entity);
        self.done(answer)
    }

    /// LookMember.
    #[inline]
    pub fn look_member(&mut self, here: Here, set: u32, member: &Address) -> Option<()>
        requires { Can here self.old (Instruction.LookMember set member.now) }
        ensures { HasDone here self.old self.new (on_after here result) (Instruction.LookMember set member.now) }
    {
        let member = self.number(here, member);
        let answer = self.world.population.look_member(set as usize, member);
        self.done(answer)
    }

    /// LookOwner.
    #[inline]
    pub fn look_owner(&mut self, here: Here, set: u32, owner: &Address) -> Option<()>
        requires { Can here self.old (Instruction.LookOwner set owner.now) }
        ensures { HasDone here self.old self.new (on_after here result) (Instruction.LookOwner set owner.now) }
    {
        let owner = self.number(here, owner);
        let answer = self.world.population.look_owner(set as usize, owner);
        self.done(answer)
    }

    /// LookMean.
    #[inline]
    pub fn look_mean(&mut self, here: Here, statistic: u32, entity: &Address) -> Option<()>
        requires { Can here self.old (Instruction.LookMean statistic entity.now) }
        ensures { HasDone here self.old self.new (on_after here result) (Instruction.LookMean statistic entity.now) }
    {
        let entity = self.number(here, entity);
        let answer = self.world.look_mean(statistic as usize, entity);
        self.done(answer)
    }

    /// LookCount.
    #[inline(always)]
    pub fn look_count(&mut self, here: Here, class: u32) -> Option<()>
        requires { Can here self.old (Instruction.LookCount class) }
        ensures { HasDone here self.old self.new (on_after here result) (Instruction.LookCount class) }
    {
        let answer = self.world.look_count(class as usize);
        self.done(answer)
    }
}
