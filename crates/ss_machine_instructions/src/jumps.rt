//! Tests and jumps.

ghost use Rattle.std.specs.Prelude.{◌≡◌, ◌<◌, ℕ, length, Some, is_some};
ghost use Rattle.ss_base.specs.declared.value.Value.TheVariants.{Whole, Text};
ghost use Rattle.ss_world.specs.PendingList.{least_event};
ghost use Rattle.ss_world.specs.Disciplines.{member_test};
ghost use Rattle.ss_meaning.specs.Values.{allows, related};
ghost use Rattle.ss_meaning.specs.Sets.{is_none};
ghost use Rattle.ss_code_instructions.specs.Forms.{comparing_numbers};
ghost use Rattle.ss_machine_instructions.specs.Doing.{Can, HasDone};
ghost use Rattle.ss_machine_instructions.specs.declared.flow.Here.{Here as HereSeen};
ghost use Rattle.ss_machine_instructions.specs.Ways.{none_of, back_if_at, on_if_at, tested_at};

use crate::flow::Here;
use crate::sets::ask_set;
use crate::state::State;
use ss_base::{Alpha, FaultKind};
use ss_code_instructions::address::Address;
use ss_code_instructions::instruction::Instruction;
use ss_machine_world::world::World;
use ss_program::condition::Relation;
use ss_program::expression::SetQuery;
use std::cmp::Ordering;

// Whether an order is one of those that a relation allows.
fn allows(relation: Relation, order: Ordering) -> bool
    ensures { result ≡ allows relation order }
{
    match relation {
        Relation::Equal => order.is_eq(),
        Relation::NotEqual => order.is_ne(),
        Relation::Less => order.is_lt(),
        Relation::Greater => order.is_gt(),
        Relation::LessOrEqual => order.is_le(),
        Relation::GreaterOrEqual => order.is_ge(),
    }
}

// Whether two texts stand in a relation.
#[inline(never)]
fn are_texts_related(relation: Relation, left: Alpha, right: Alpha) -> bool
    ensures { related relation (Text left) (Text right) ≡ Some result }
{
    allows(relation, left.cmp(&right))
}

// Whether a number is 0.
#[inline(always)]
pub fn is_none(number: i64) -> bool
    ensures { result ≡ is_none number }
{
    number == 0
}

// Whether a count is 0, or the fault.
#[inline(always)]
fn are_none(count: Result<i64, FaultKind>) -> Result<bool, FaultKind>
    ensures { result ≡ none_of count }
{
    match count {
        Ok(count) => Ok(is_none(count)),
        Err(kind) => Err(kind),
    }
}

// Whether a notice is pending.
#[inline(always)]
fn is_awaited(world: &mut World) -> bool
    ensures value { result ≡ is_some (least_event world.old.pending) }
    ensures same { world.new ≡ world.old }
{
    world.timeline.is_awaited()
}

// Whether a number is in the set of an owner.
#[inline(always)]
fn is_member(world: &mut World, set: usize, owner: i64, member: i64) -> Result<bool, FaultKind>
    requires set { set < length world.old.heap.layout.sets }
    ensures value { result ≡ member_test world.old.heap set owner member }
    ensures same { world.new ≡ world.old }
{
    world.population.is_in(set, owner, member)
}

// Whether two numbers are in a relation.
#[inline(always)]
fn are_numbers_related(relation: Relation, left: i64, right: i64) -> bool
    ensures { related relation (Whole left) (Whole right) ≡ Some result }
{
    match relation {
        Relation::Equal => left == right,
        Relation::NotEqual => left != right,
        Relation::Less => left < right,
        Relation::Greater => left > right,
        Relation::LessOrEqual => left <= right,
        Relation::GreaterOrEqual => left >= right,
    }
}

impl State {
    /// UnlessEqual, and the others that compare two numbers.
    #[inline]
    pub fn unless_numbers(
        &self,
        here: Here,
        relation: Relation,
        left: &Address,
        right: &Address,
    ) -> bool
        requires { (skip : ℕ) × Can here self.now (comparing_numbers relation left.now right.now skip) }
        ensures { (skip : ℕ) → HasDone here self.now self.now (on_if_at here result skip) (comparing_numbers relation left.now right.now skip) }
    {
        are_numbers_related(relation, self.number(here, left), self.number(here, right))
    }

    /// UnlessTexts.
    #[inline]
    pub fn unless_texts(
        &self,
        here: Here,
        relation: Relation,
        left: &Address,
        right: &Address,
    ) -> bool
        requires { (skip : ℕ) × Can here self.now (Instruction.UnlessTexts left.now right.now skip relation) }
        ensures { (skip : ℕ) → HasDone here self.now self.now (on_if_at here result skip) (Instruction.UnlessTexts left.now right.now skip relation) }
    {
        are_texts_related(relation, self.text(here, left), self.text(here, right))
    }

    /// UnlessEmpty.
    #[inline]
    pub fn unless_empty(
        &mut self,
        here: Here,
        set: u32,
        owner: &Address,
        negated: bool,
    ) -> Option<bool>
        requires { (skip : ℕ) × Can here self.old (Instruction.UnlessEmpty set owner.now skip negated) }
        ensures { (skip : ℕ) → HasDone here self.old self.new (tested_at here result skip) (Instruction.UnlessEmpty set owner.now skip negated) }
    {
        let owner = self.number(here, owner);
        let count = ask_set(&mut self.world, SetQuery::MemberCount, set as usize, owner);
        let answer = are_none(count);
        self.tested(answer, negated)
    }

    /// UnlessMember.
    #[inline]
    pub fn unless_member(
        &mut self,
        here: Here,
        set: u32,
        both: (&Address, &Address),
        negated: bool,
    ) -> Option<bool>
        requires { (skip : ℕ) × Can here self.old (Instruction.UnlessMember set both.0.now both.1.now skip negated) }
        ensures { (skip : ℕ) → HasDone here self.old self.new (tested_at here result skip) (Instruction.UnlessMember set both.entry.0.now both.entry.1.now skip negated) }
    {
        let (member, owner) = (self.number(here, both.0), self.number(here, both.1));
        let answer = is_member(&mut self.world, set as usize, owner, member);
        self.tested(answer, negated)
    }

    /// Await.
    #[inline]
    pub fn await_event(&mut self) -> bool
        requires { (here : HereSeen) × (skip : ℕ) × Can here self.old (Instruction.Await skip) }
        ensures { (here : HereSeen) (skip : ℕ) → HasDone here self.old self.new (on_if_at here result skip) (Instruction.Await skip) }
    {
        is_awaited(&mut self.world)
    }

    /// NextEvent.
    #[inline]
    pub fn next_event(&mut self) -> bool
        requires { (here : HereSeen) × (back : ℕ) × Can here self.old (Instruction.NextEvent back) }
        ensures { (here : HereSeen) (back : ℕ) → HasDone here self.old self.new (back_if_at here result back) (Instruction.NextEvent back) }
    {
        is_awaited(&mut self.world)
    }
}
