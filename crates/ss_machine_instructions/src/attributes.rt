//! Attributes of entities, and times.

ghost use Rattle.std.specs.Prelude.{◌≡◌, ◌<◌, length, slice_get, Some, Ok, Err, MatchResult};
ghost use Rattle.ss_base.specs.declared.layout.Mode.TheVariants.{Integer, Alpha as AlphaMode};
ghost use Rattle.ss_base.specs.declared.value.Value.TheVariants.{Whole, Text};
ghost use Rattle.ss_meaning.specs.Values.{computed, operator_of};
ghost use Rattle.ss_records.specs.Attributes.{changed_number, IsAssigned, IsChanged};
ghost use Rattle.ss_world.specs.State.{modes_of, value_in, assigned};
ghost use Rattle.ss_machine_instructions.specs.Doing.{Can, HasDone};
ghost use Rattle.ss_machine_instructions.specs.Ways.{on_after};

use crate::flow::Here;
use crate::state::State;
use ss_base::{Alpha, FaultKind};
use ss_code_instructions::address::Address;
use ss_code_instructions::instruction::Instruction;
use ss_machine_entities::population::Population;
use ss_machine_world::world::World;
use ss_program::expression::Sign;

/// An attribute that is assigned: its class, its field, and whether it is noted.
#[derive(Clone, Copy)]
pub struct AssignedAttribute {
    pub class: u32,
    pub field: u32,
    pub noted: bool,
}

// An attribute is increased or reduced by a number. Faults: 1 to 5, then 14.
#[inline(always)]
fn change_whole(
    population: &mut Population,
    sign: Sign,
    class: usize,
    field: usize,
    entity: i64,
    by: i64,
) -> Result<(), FaultKind>
    requires class { class < length population.old.layout.classes }
    requires mode { slice_get (modes_of population.old.layout class) field ≡ Some Integer }
    ensures done { MatchResult result (λ _. IsChanged (λ z. computed (operator_of sign) z by) population.old class field entity population.new) (λ kind. (changed_number (λ z. computed (operator_of sign) z by) (value_in population.old class field entity) ≡ Err kind) × (population.new ≡ population.old)) }
    ensures layout { population.new.layout ≡ population.old.layout }
{
    match sign {
        Sign::Plus => population.add_whole(class, field, entity, by),
        Sign::Minus => population.subtract_whole(class, field, entity, by),
    }
}

// Adds to an attribute of the world, or subtracts from it.
#[inline(always)]
fn change(
    world: &mut World,
    sign: Sign,
    class: usize,
    field: usize,
    entity: i64,
    by: i64,
) -> Result<(), FaultKind>
    requires class { class < length world.old.heap.layout.classes }
    requires mode { slice_get (modes_of world.old.heap.layout class) field ≡ Some Integer }
    ensures done { MatchResult result (λ _. IsChanged (λ z. computed (operator_of sign) z by) world.old.heap class field entity world.new.heap) (λ kind. (changed_number (λ z. computed (operator_of sign) z by) (value_in world.old.heap class field entity) ≡ Err kind) × (world.new.heap ≡ world.old.heap)) }
    ensures layout { world.new.heap.layout ≡ world.old.heap.layout }
    ensures same { world.new ≡ record world.old { heap = world.new.heap } }
{
    change_whole(&mut world.population, sign, class, field, entity, by)
}

// A number goes to an attribute of an entity. Faults: 1 to 5.
#[inline(always)]
fn assign_number(
    world: &mut World,
    class: usize,
    field: usize,
    entity: i64,
    number: i64,
) -> Result<(), FaultKind>
    requires class { class < length world.old.heap.layout.classes }
    requires mode { slice_get (modes_of world.old.heap.layout class) field ≡ Some Integer }
    ensures done { MatchResult result (λ _. IsAssigned world.old.heap class field entity number world.new.heap) (λ kind. (assigned world.old.heap class field entity (Whole number) ≡ Err kind) × (world.new.heap ≡ world.old.heap)) }
    ensures layout { world.new.heap.layout ≡ world.old.heap.layout }
    ensures same { world.new ≡ record world.old { heap = world.new.heap } }
{
    world.population.set_whole(class, field, entity, number)
}

// A text goes to an attribute of the world.
#[inline(always)]
fn assign_text(
    world: &mut World,
    class: usize,
    field: usize,
    entity: i64,
    text: Alpha,
) -> Result<(), FaultKind>
    requires class { class < length world.old.heap.layout.classes }
    requires mode { slice_get (modes_of world.old.heap.layout class) field ≡ Some AlphaMode }
    ensures done { MatchResult result (λ _. assigned world.old.heap class field entity (Text text) ≡ Ok world.new.heap) (λ kind. (assigned world.old.heap class field entity (Text text) ≡ Err kind) × (world.new.heap ≡ world.old.heap)) }
    ensures same { world.new ≡ record world.old { heap = world.new.heap } }
{
    world.population.set_text(class, field, entity, text)
}

impl State {
    /// Attribute.
    #[inline]
    pub fn attribute(
        &mut self,
        here: Here,
        class: u32,
        field: u32,
        entity: &Address,
        to: &Address,
    ) -> Option<()>
        requires { Can here self.old (Instruction.Attribute class field entity.now to.now) }
        ensures { HasDone here self.old self.new (on_after here result) (Instruction.Attribute class field entity.now to.now) }
    {
        let entity = self.number(here, entity);
        let answer = self
            .world
            .population
            .whole(class as usize, field as usize, entity);
        self.put(here, to, answer)
    }

    /// TextAttribute.
    #[inline]
    pub fn text_attribute(
        &mut self,
        here: Here,
        class: u32,
        field: u32,
        entity: &Address,
        to: &Address,
    ) -> Option<()>
        requires { Can here self.old (Instruction.TextAttribute class field entity.now to.now) }
        ensures { HasDone here self.old self.new (on_after here result) (Instruction.TextAttribute class field entity.now to.now) }
    {
        let entity = self.number(here, entity);
        let answer = self
            .world
            .population
            .text(class as usize, field as usize, entity);
        self.put_text(here, to, answer)
    }

    /// SetAttribute.
    #[inline]
    pub fn set_attribute(
        &mut self,
        here: Here,
        attribute: AssignedAttribute,
        entity: &Address,
        from: &Address,
    ) -> Option<()>
        requires { Can here self.old (Instruction.SetAttribute attribute.class attribute.field entity.now from.now attribute.noted) }
        ensures { HasDone here self.old self.new (on_after here result) (Instruction.SetAttribute attribute.class attribute.field entity.now from.now attribute.noted) }
    {
        let (entity, number) = (self.number(here, entity), self.number(here, from));
        let (class, field) = (attribute.class as usize, attribute.field as usize);
        let answer = assign_number(&mut self.world, class, field, entity, number);
        self.assigned(answer, class, field, entity, attribute.noted)
    }

    /// SetTextAttribute.
    #[inline]
    pub fn set_text_attribute(
        &mut self,
        here: Here,
        class: u32,
        field: u32,
        entity: &Address,
        from: &Address,
    ) -> Option<()>
        requires { Can here self.old (Instruction.SetTextAttribute class field entity.now from.now) }
        ensures { HasDone here self.old self.new (on_after here result) (Instruction.SetTextAttribute class field entity.now from.now) }
    {
        let (entity, text) = (self.number(here, entity), self.text(here, from));
        let answer = assign_text(
            &mut self.world,
            class as usize,
            field as usize,
            entity,
            text,
        );
        self.done(answer)
    }

    /// ChangeAttribute.
    #[inline]
    pub fn change_attribute(
        &mut self,
        here: Here,
        sign: Sign,
        attribute: AssignedAttribute,
        entity: &Address,
        by: &Address,
    ) -> Option<()>
        requires { Can here self.old (Instruction.ChangeAttribute attribute.class attribute.field entity.now by.now sign attribute.noted) }
        ensures { HasDone here self.old self.new (on_after here result) (Instruction.ChangeAttribute attribute.class attribute.field entity.now by.now sign attribute.noted) }
    {
        let (entity, number) = (self.number(here, entity), self.number(here, by));
        let (class, field) = (attribute.class as usize, attribute.field as usize);
        let answer = change(&mut self.world, sign, class, field, entity, number);
        self.assigned(answer, class, field, entity, attribute.noted)
    }

    /// Clock.
    #[inline]
    pub fn clock(&mut self, here: Here, to: &Address) -> Option<()>
        requires { Can here self.old (Instruction.Clock to.now) }
        ensures { HasDone here self.old self.new (on_after here result) (Instruction.Clock to.now) }
    {
        let time = self.world.timeline.time();
        self.put(here, to, Ok(time))
    }

    /// TimeOf.
    #[inline]
    pub fn time_of(&mut self, here: Here, notice: &Address, to: &Address) -> Option<()>
        requires { Can here self.old (Instruction.TimeOf notice.now to.now) }
        ensures { HasDone here self.old self.new (on_after here result) (Instruction.TimeOf notice.now to.now) }
    {
        let notice = self.number(here, notice);
        let answer = self.world.population.time_a(notice);
        self.put(here, to, answer)
    }
}
