//! The code of expressions.

ghost use Rattle.std.specs.Prelude.{◌≡◌, ◌+◌, ◌<◌, ◌≤◌, ◌^◌, ◌∷◌, ◌++◌, [], length, map, pos, IfOk, OnOk};
ghost use Rattle.std.specs.List.{AllByRecursion as Every};
ghost use Rattle.ss_base.specs.declared.value.Value.TheVariants.{Whole};
ghost use Rattle.ss_program.specs.View.{view_expression, view_owner};
ghost use Rattle.std.specs.Option.{option_map};
ghost use Rattle.ss_meaning.specs.Values.{operator_of};
ghost use Rattle.ss_code_instructions.specs.Instructions.{Constant, Move};
ghost use Rattle.ss_code_instructions.specs.declared.instruction.Instruction.TheVariants.{Figure as Figures};
ghost use Rattle.ss_code_instructions.specs.Facts.{expression_of};
ghost use Rattle.ss_code_instructions.specs.Translation.{expression_code, values_code, place, next};
ghost use Rattle.ss_code_instructions.specs.Forms.{calculating, asking_set, asking_member, moving, fetching};
ghost use Rattle.ss_code_pieces.specs.Lined.{Lined, on_line};
ghost use Rattle.ss_code_generator.specs.declared.generator.Generator.{Generator as Builder};
ghost use Rattle.ss_program.specs.Program.{Expression as Plain};
ghost use Rattle.ss_code_generator.specs.Calculations.{HasEmittedExpression, HasOperated, with_operations};
ghost use Rattle.ss_code_generator.specs.Emitted.{HasGrown, HasEmitted, IsTyped, IsLeaf, HasReadOperand, HasBorne};

use crate::generator::{Generator, Site};
use ss_base::{Line, Mode};
use ss_code_instructions::address::Address;
use ss_code_instructions::instruction::Instruction;
use ss_code_pieces::facts::{attribute_mode, variable_mode};
use ss_code_pieces::leaves::{Leaf, leaf_of};
use ss_code_pieces::piece::{Piece, as_index};
use ss_program::expression::{
    Expression, Fold, MemberQuery, Operation, Operator, SetOwner, SetQuery, Sign,
};
use std::alloc::AllocError;

/// A value that an instruction reads: where it lies, and how many cells it takes for that.
#[derive(Clone, Copy)]
pub struct Operand {
    pub address: Address,
    pub cells: usize,
}

impl Operand {
    // A variable or a constant.
    fn leaf(address: Address) -> Operand
        ensures { result ≡ record { address = address; cells = 0 } }
    {
        Operand { address, cells: 0 }
    }

    // The next cell.
    fn cell(address: Address) -> Operand
        ensures { result ≡ record { address = address; cells = 1 } }
    {
        Operand { address, cells: 1 }
    }
}

// What an operator makes of two numbers.
fn calculate(operator: Operator, left: Address, right: Address, to: Address) -> Instruction
    ensures { result ≡ calculating operator left right to }
{
    match operator {
        Operator::Add => Instruction::Add { left, right, to },
        Operator::Subtract => Instruction::Subtract { left, right, to },
        Operator::Multiply => Instruction::Multiply { left, right, to },
        Operator::Quotient => Instruction::Quotient { left, right, to },
        Operator::Remainder => Instruction::Remainder { left, right, to },
        Operator::Least => Instruction::Least { left, right, to },
        Operator::Greatest => Instruction::Greatest { left, right, to },
    }
}

// What is asked of the set of an owner.
fn ask_set(
    code: &mut Piece,
    line: Line,
    query: SetQuery,
    set: usize,
    owner: Address,
    to: Address,
) -> Result<(), AllocError>
    ensures { OnOk result (code.new ≡ code.old ++ on_line line (asking_set query set owner to) ∷ []) }
{
    let set = as_index(set)?;
    match query {
        SetQuery::FirstMember => code.put(line, Instruction::FirstMember { set, owner, to }),
        SetQuery::LastMember => code.put(line, Instruction::LastMember { set, owner, to }),
        SetQuery::MemberCount => code.put(line, Instruction::MemberCount { set, owner, to }),
    }
}

// What is asked of a member.
fn ask_member(
    code: &mut Piece,
    line: Line,
    query: MemberQuery,
    set: usize,
    member: Address,
    to: Address,
) -> Result<(), AllocError>
    ensures { OnOk result (code.new ≡ code.old ++ on_line line (asking_member query set member to) ∷ []) }
{
    let set = as_index(set)?;
    match query {
        MemberQuery::Predecessor => code.put(line, Instruction::Predecessor { set, member, to }),
        MemberQuery::Successor => code.put(line, Instruction::Successor { set, member, to }),
        MemberQuery::Membership => code.put(line, Instruction::Membership { set, member, to }),
    }
}

/// A value of a mode goes from one place to another.
pub fn move_of(mode: Mode, from: Address, to: Address) -> Instruction
    ensures { result ≡ moving mode from to }
{
    match mode {
        Mode::Integer => Instruction::Move { from, to },
        Mode::Alpha => Instruction::MoveText { from, to },
    }
}

// Which attribute is fetched: its mode, its class, and its number in that.
#[derive(Clone, Copy)]
struct AttributePlace {
    mode: Mode,
    class: usize,
    field: usize,
}

// An attribute of an entity goes to a place.
fn fetch_attribute(
    code: &mut Piece,
    line: Line,
    of: AttributePlace,
    entity: Address,
    to: Address,
) -> Result<(), AllocError>
    ensures { OnOk result (code.new ≡ code.old ++ on_line line (fetching of.mode of.class of.field entity to) ∷ []) }
{
    let (class, field) = (as_index(of.class)?, as_index(of.field)?);
    let instruction = match of.mode {
        Mode::Integer => Instruction::Attribute {
            class,
            field,
            entity,
            to,
        },
        Mode::Alpha => Instruction::TextAttribute {
            class,
            field,
            entity,
            to,
        },
    };
    code.put(line, instruction)
}

/// A number is added or subtracted.
pub fn signed(sign: Sign, left: Address, right: Address, to: Address) -> Instruction
    ensures { result ≡ calculating (operator_of sign) left right to }
{
    match sign {
        Sign::Plus => Instruction::Add { left, right, to },
        Sign::Minus => Instruction::Subtract { left, right, to },
    }
}

// What a statistic says of an entity.
fn fetch_figure(
    code: &mut Piece,
    line: Line,
    fold: Fold,
    statistic: usize,
    entity: Address,
    to: Address,
) -> Result<(), AllocError>
    ensures { OnOk result (code.new ≡ code.old ++ on_line line (Figures statistic entity to fold) ∷ []) }
{
    let statistic = as_index(statistic)?;
    code.put(
        line,
        Instruction::Figure {
            statistic,
            entity,
            to,
            fold,
        },
    )
}

impl Generator<'_> {
    // The address of an expression that takes no code: a variable or a constant.
    fn leaf(&mut self, e: &Expression) -> Result<Option<Address>, AllocError>
        ensures grows { OnOk result (HasGrown self.old self.new) }
        ensures leaf { IfOk result (λ found. IsLeaf self.new (view_expression e.now) found) }
    {
        match leaf_of(e) {
            Some(Leaf::Constant { value }) => Ok(Some(self.constant(value)?)),
            Some(Leaf::Held { variable }) => Ok(Some(self.variable(variable)?)),
            None => Ok(None),
        }
    }

    /// An expression as an operand: it takes a cell unless it is a variable or a constant.
    #[cycle(expressions)]
    pub fn operand(
        &mut self,
        code: &mut Piece,
        site: Site,
        e: &Expression,
    ) -> Result<Operand, AllocError>
        ensures { IfOk result (λ o. HasReadOperand self.old self.new code.old code.new site (view_expression e.now) o) }
    {
        if let Some(address) = self.leaf(e)? {
            return Ok(Operand::leaf(address));
        }
        let to = self.cell(site)?;
        self.expression(code, site, e, to)?;
        Ok(Operand::cell(to))
    }

    /// An expression goes to a place, which its last instruction writes.
    #[tactic(auto, unfolding(ss_program::specs::View::view_expression))]
    #[cycle(expressions)]
    pub fn expression(
        &mut self,
        code: &mut Piece,
        site: Site,
        e: &Expression,
        to: Address,
    ) -> Result<(), AllocError>
        ensures { OnOk result (HasEmittedExpression self.old self.new code.old code.new site to (view_expression e.now)) }
    {
        match e {
            Expression::Constant { value } => {
                let from = self.constant(*value)?;
                code.put(site.line, move_of(value.mode(), from, to))
            }
            Expression::Fetch { variable } => {
                let from = self.variable(*variable)?;
                let mode = variable_mode(self.program, &self.locals, *variable);
                code.put(site.line, move_of(mode, from, to))
            }
            Expression::Attribute { class, field, of } => {
                let entity = self.operand(code, site, of)?.address;
                let (class, field) = (*class, *field);
                let mode = attribute_mode(self.program, class, field);
                let of = AttributePlace { mode, class, field };
                fetch_attribute(code, site.line, of, entity, to)
            }
            Expression::OfSystemSet { query, set } => {
                let owner = self.zero()?;
                ask_set(code, site.line, *query, *set, owner, to)
            }
            Expression::OfSet { query, set, owner } => {
                let owner = self.operand(code, site, owner)?.address;
                ask_set(code, site.line, *query, *set, owner, to)
            }
            Expression::OfMember { query, set, member } => {
                let member = self.operand(code, site, member)?.address;
                ask_member(code, site.line, *query, *set, member, to)
            }
            Expression::Clock => code.put(site.line, Instruction::Clock { to }),
            Expression::TimeOf { notice } => {
                let notice = self.operand(code, site, notice)?.address;
                code.put(site.line, Instruction::TimeOf { notice, to })
            }
            Expression::Figure { fold, statistic } => {
                let entity = self.zero()?;
                fetch_figure(code, site.line, *fold, *statistic, entity, to)
            }
            Expression::FigureOf {
                fold,
                statistic,
                entity,
            } => {
                let entity = self.operand(code, site, entity)?.address;
                fetch_figure(code, site.line, *fold, *statistic, entity, to)
            }
            Expression::Signed { sign, term } => {
                let right = self.operand(code, site, term)?.address;
                let left = self.zero()?;
                code.put(site.line, signed(*sign, left, right, to))
            }
            Expression::Unary { operator, argument } => {
                let of = self.operand(code, site, argument)?.address;
                let operator = *operator;
                code.put(site.line, Instruction::Unary { operator, of, to })
            }
            Expression::Calculate { first, further } => {
                let count = further.len();
                if count == 0 {
                    return self.expression(code, site, first, to);
                }
                let left = self.operand(code, site, first)?;
                self.work_off(code, site, left, further, to)
            }
        }
    }

    // Operations on a number that is there are worked off from left to right: what the last of them makes goes to the place, and
    // what the others make into the next cell.
    #[cycle(expressions)]
    fn work_off(
        &mut self,
        code: &mut Piece,
        site: Site,
        left: Operand,
        further: &[Operation],
        to: Address,
    ) -> Result<(), AllocError>
        requires { 0 < length further.now }
        ensures { OnOk result ((old : Builder) (before : Lined) (e : Plain) → HasReadOperand old self.old before code.old site e left → HasEmittedExpression old self.new before code.new site to (with_operations e further.now)) }
    {
        let count = further.len();
        let mut left = left;
        for i in 0..count - 1 {
            let next = self.cell(site)?;
            self.operation(code, site, left, &further[i], next)?;
            left = Operand::cell(next);
        }
        self.operation(code, site, left, &further[count - 1], to)
    }

    // An operation on a number that is there. What it makes goes to a place.
    #[cycle(expressions)]
    fn operation(
        &mut self,
        code: &mut Piece,
        site: Site,
        left: Operand,
        operation: &Operation,
        to: Address,
    ) -> Result<(), AllocError>
        ensures { OnOk result (HasOperated self.old self.new code.old code.new site left to operation.now) }
    {
        let right = self
            .operand(code, site.above(left.cells), &operation.operand)?
            .address;
        code.put(
            site.line,
            calculate(operation.operator, left.address, right, to),
        )?;
        Ok(())
    }

    /// An expression goes into the next cell.
    pub fn push(&mut self, code: &mut Piece, site: Site, e: &Expression) -> Result<(), AllocError>
        ensures code { OnOk result (HasEmitted self.old self.new code.old code.new site (IsTyped (view_expression e.now)) (λ t. expression_code t (next t) (view_expression e.now))) }
        ensures room { OnOk result (site.height < self.new.deepest) }
        ensures small { OnOk result (site.height < 2 ^ 32) }
    {
        let to = self.cell(site)?;
        self.expression(code, site, e, to)
    }

    /// Values go into the next cells, one above the other.
    pub fn values(
        &mut self,
        code: &mut Piece,
        site: Site,
        values: &[Expression],
    ) -> Result<(), AllocError>
        ensures code { OnOk result (HasEmitted self.old self.new code.old code.new site (λ s. Every (λ e. IsTyped e s) (map view_expression values.now)) (λ t. values_code t (map view_expression values.now))) }
        ensures room { OnOk result (site.height + length values.now ≤ self.new.deepest) }
    {
        self.reach(site.height);
        for (i, value) in values.iter().enumerate() {
            self.push(code, site.above(i), value)?;
        }
        Ok(())
    }

    /// The owner of a set, as an operand: the system is the constant 0.
    pub fn owner(
        &mut self,
        code: &mut Piece,
        site: Site,
        owner: &SetOwner,
    ) -> Result<Operand, AllocError>
        ensures { IfOk result (λ o. HasBorne self.old self.new code.old code.new site (expression_of (view_owner owner.now)) o) }
    {
        match owner {
            SetOwner::TheSystem => Ok(Operand::leaf(self.zero()?)),
            SetOwner::Entity { entity } => self.operand(code, site, entity),
        }
    }

    /// The entity of a statistic, as an operand: none is the constant 0.
    pub fn entity_of(
        &mut self,
        code: &mut Piece,
        site: Site,
        e: &Option<Expression>,
    ) -> Result<Operand, AllocError>
        ensures { IfOk result (λ o. HasBorne self.old self.new code.old code.new site (option_map view_expression e.now) o) }
    {
        match e {
            None => Ok(Operand::leaf(self.zero()?)),
            Some(entity) => self.operand(code, site, entity),
        }
    }

    /// The number 1 goes into the next cell.
    pub fn push_one(&mut self, code: &mut Piece, site: Site) -> Result<(), AllocError>
        ensures code { OnOk result (HasEmitted self.old self.new code.old code.new site (λ s. Unit {0}) (λ t. place t (Move (Constant (Whole (pos 1))) (next t)) ∷ [])) }
        ensures room { OnOk result (site.height < self.new.deepest) }
    {
        let to = self.cell(site)?;
        let from = self.one()?;
        code.put(site.line, Instruction::Move { from, to })
    }
}
