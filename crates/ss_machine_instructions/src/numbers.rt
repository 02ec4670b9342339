//! Values: moves and calculations.

ghost use Rattle.std.specs.Prelude.{◌≡◌};
ghost use Rattle.ss_meaning.specs.Values.{computed, computed_alone, distance};
ghost use Rattle.ss_code_instructions.specs.Forms.{calculating};
ghost use Rattle.ss_machine_instructions.specs.Doing.{Can, HasDone, CanDeliver, IsDelivered, as_text};
ghost use Rattle.ss_machine_world.specs.Seen.{as_value};
ghost use Rattle.ss_machine_instructions.specs.Ways.{on_after};

use crate::flow::Here;
use crate::state::State;
use ss_base::{Alpha, FaultKind, div_f, minus, mod_f, plus, times};
use ss_code_instructions::address::Address;
use ss_code_instructions::instruction::Instruction;
use ss_program::expression::{Operator, UnaryOperator};

// The distance of a number from 0.
#[inline(always)]
fn distance(number: i64) -> Result<i64, FaultKind>
    ensures { result ≡ distance number }
{
    if number < 0 {
        return minus(0, number);
    }
    Ok(number)
}

// What an operator makes of two numbers.
#[inline(always)]
fn compute(operator: Operator, left: i64, right: i64) -> Result<i64, FaultKind>
    ensures { result ≡ computed operator left right }
{
    match operator {
        Operator::Add => plus(left, right),
        Operator::Subtract => minus(left, right),
        Operator::Multiply => times(left, right),
        Operator::Quotient => div_f(left, right),
        Operator::Remainder => mod_f(left, right),
        Operator::Least => Ok(left.min(right)),
        Operator::Greatest => Ok(left.max(right)),
    }
}

// What an operator makes of one number.
#[inline(always)]
fn compute_alone(operator: UnaryOperator, number: i64) -> Result<i64, FaultKind>
    ensures { result ≡ computed_alone operator number }
{
    match operator {
        UnaryOperator::Absolute => distance(number),
    }
}

impl State {
    /// A number that was found goes to an address, unless there was a fault.
    #[inline(always)]
    pub fn put(&mut self, here: Here, to: &Address, answer: Result<i64, FaultKind>) -> Option<()>
        requires { CanDeliver here self.old to.now (as_value answer) }
        ensures { IsDelivered here self.old self.new result to.now (as_value answer) }
    {
        match answer {
            Ok(number) => {
                self.set_number(here, to, number);
                Some(())
            }
            Err(kind) => self.fault(kind),
        }
    }

    /// A text that was found goes to an address, unless there was a fault.
    #[inline(always)]
    pub fn put_text(
        &mut self,
        here: Here,
        to: &Address,
        answer: Result<Alpha, FaultKind>,
    ) -> Option<()>
        requires { CanDeliver here self.old to.now (as_text answer) }
        ensures { IsDelivered here self.old self.new result to.now (as_text answer) }
    {
        match answer {
            Ok(text) => {
                self.set_text(here, to, text);
                Some(())
            }
            Err(kind) => self.fault(kind),
        }
    }

    /// Move.
    #[inline]
    pub fn move_number(&mut self, here: Here, from: &Address, to: &Address) -> Option<()>
        requires { Can here self.old (Instruction.Move from.now to.now) }
        ensures { HasDone here self.old self.new (on_after here result) (Instruction.Move from.now to.now) }
    {
        let number = self.number(here, from);
        self.put(here, to, Ok(number))
    }

    /// MoveText.
    #[inline]
    pub fn move_text(&mut self, here: Here, from: &Address, to: &Address) -> Option<()>
        requires { Can here self.old (Instruction.MoveText from.now to.now) }
        ensures { HasDone here self.old self.new (on_after here result) (Instruction.MoveText from.now to.now) }
    {
        let text = self.text(here, from);
        self.put_text(here, to, Ok(text))
    }

    /// Add, Subtract, Multiply, Quotient, Remainder, Least and Greatest.
    #[inline]
    pub fn calculate(
        &mut self,
        here: Here,
        operator: Operator,
        left: &Address,
        right: &Address,
        to: &Address,
    ) -> Option<()>
        requires { Can here self.old (calculating operator left.now right.now to.now) }
        ensures { HasDone here self.old self.new (on_after here result) (calculating operator left.now right.now to.now) }
    {
        let answer = compute(operator, self.number(here, left), self.number(here, right));
        self.put(here, to, answer)
    }

    /// Unary.
    #[inline]
    pub fn apply(
        &mut self,
        here: Here,
        operator: UnaryOperator,
        of: &Address,
        to: &Address,
    ) -> Option<()>
        requires { Can here self.old (Instruction.Unary operator of.now to.now) }
        ensures { HasDone here self.old self.new (on_after here result) (Instruction.Unary operator of.now to.now) }
    {
        let answer = compute_alone(operator, self.number(here, of));
        self.put(here, to, answer)
    }
}
