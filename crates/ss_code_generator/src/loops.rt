//! The code of loops.

ghost use Rattle.std.specs.Prelude.{◌≡◌, map, Some, IfOk, OnOk};
ghost use Rattle.std.specs.List.{AllByRecursion as Every};
ghost use Rattle.ss_program.specs.Program.{Members, From};
ghost use Rattle.ss_program.specs.View.{view_expression, view_owner, view_start, view_head, view_guard, view_phrase};
ghost use Rattle.std.specs.Option.{option_map};
ghost use Rattle.ss_program.specs.WellTyped.{IsTypedHead, IsTypedCondition, IsTypedPhrase};
ghost use Rattle.ss_code_instructions.specs.Translation.{loop_code, range_code, for_code, find_code};
ghost use Rattle.ss_code_generator.specs.Emitted.{HasEmitted, HasEmittedAround, HasEmittedAroundBoth, IsInteger, AreNumbers};
ghost use Rattle.ss_code_generator.specs.Looped.{loop_width, is_after, begin_of, items_begin, item_loop_code, HasTakenLoopItem, HasTakenItems, HasTakenMembers, HasStartedWalk, HasKeptOwner};

use crate::expressions::Operand;
use crate::generator::{Generator, Site};
use crate::targets::VariableSpot;
use ss_code_instructions::address::Address;
use ss_code_instructions::instruction::Instruction;
use ss_code_pieces::piece::{Piece, as_index};
use ss_program::expression::{Expression, SetOwner, Variable};
use ss_program::head::{Guard, Head, Phrase, Start};
use std::alloc::AllocError;

/// How many cells a FOR over numbers or a class keeps: the item, the limit and the step.
const NUMBER_CELLS: usize = 3;

/// How many cells a FOR over members keeps, beside the owner: the member and the one after it.
const MEMBER_CELLS: usize = 2;

/// How many cells a FOR keeps.
pub fn cells_of(head: &Head) -> usize
    ensures { result ≡ loop_width (view_head head.now) }
{
    match head {
        Head::Numbers { .. } | Head::Each { .. } => NUMBER_CELLS,
        Head::Members { owner, .. } => match owner {
            SetOwner::TheSystem => MEMBER_CELLS,
            SetOwner::Entity { .. } => MEMBER_CELLS + 1,
        },
    }
}

// A walk over the members of a set: the variable, the set, its owner, the cell of the next member and the order.
#[derive(Clone, Copy)]
pub struct MemberLoop {
    pub variable: VariableSpot,
    pub set: u32,
    pub owner: Address,
    pub cell: u32,
    pub reverse: bool,
}

// The instruction that begins a walk from a member on, or after it.
fn begin_at(walk: MemberLoop, after: bool, skip: u32) -> Instruction
    ensures { result ≡ begin_of walk (Some after) skip }
{
    Instruction::BeginAt {
        set: walk.set,
        owner: walk.owner,
        cell: walk.cell,
        skip,
        reverse: walk.reverse,
        after,
    }
}

// The instruction that begins a walk, which jumps where there is no member.
fn begin(walk: MemberLoop, start: &Start, skip: u32) -> Instruction
    ensures { result ≡ begin_of walk (is_after (view_start start.now)) skip }
{
    match start {
        Start::AtEnd => Instruction::BeginSet {
            set: walk.set,
            owner: walk.owner,
            cell: walk.cell,
            skip,
            reverse: walk.reverse,
        },
        Start::From { .. } => begin_at(walk, false, skip),
        Start::After { .. } => begin_at(walk, true, skip),
    }
}

// The instruction that begins a FOR over numbers, or over a class.
fn begin_items(class: Option<u32>, cell: u32, skip: u32) -> Instruction
    ensures { result ≡ items_begin class cell skip }
{
    match class {
        None => Instruction::Begin { cell, skip },
        Some(class) => Instruction::BeginClass { class, cell, skip },
    }
}

/// A FOR over the members of a set: the variable, the set, its owner, where it starts and the order.
#[derive(Clone, Copy)]
pub struct SetLoop<'a> {
    pub variable: Variable,
    pub set: usize,
    pub owner: &'a SetOwner,
    pub start: &'a Start,
    pub reverse: bool,
}

/// The cases that a loop goes through: its head, and the phrases.
#[derive(Clone, Copy)]
pub struct Cases<'a> {
    pub head: &'a Head,
    pub phrases: &'a [Phrase],
}

impl Generator<'_> {
    /// A loop that begins with WHILE or UNTIL: the guards; the tick of a turn; the body; the guards again; and a jump back to
    /// the tick.
    pub fn guarded_loop(
        &mut self,
        code: &mut Piece,
        site: Site,
        guards: &[Guard],
        body: &Piece,
    ) -> Result<(), AllocError>
        ensures { OnOk result (HasEmittedAround self.old self.new code.old code.new site body.now (λ s. Every (λ g. IsTypedCondition s g.condition) (map view_guard guards.now)) (λ t b. loop_code t (map view_guard guards.now) b)) }
    {
        let mut turn = Piece::new(self.alloc);
        turn.put(site.line, Instruction::Turn)?;
        turn.append_copy(body)?;
        let again = self.guards(site, 1, guards, Piece::new(self.alloc))?;
        turn.append(again)?;
        let back = as_index(turn.len())?;
        turn.put(site.line, Instruction::Repeat { back })?;
        code.append(self.guards(site, 0, guards, turn)?)
    }

    // The tick of an item or a member, which goes from a cell to the variable.
    fn take_item(
        &self,
        code: &mut Piece,
        site: Site,
        cell: u32,
        variable: VariableSpot,
    ) -> Result<(), AllocError>
        ensures { OnOk result (HasTakenLoopItem self.now code.old code.new site cell variable) }
    {
        match variable.watched {
            None => {
                let to = variable.address;
                code.put(site.line, Instruction::Take { cell, to })?;
            }
            Some(variable) => {
                let from = Address::in_frame(cell);
                code.put(site.line, Instruction::Turn)?;
                code.put(site.line, Instruction::Keep { from, variable })?;
            }
        }
        Ok(())
    }

    // The items of a FOR: a turn, and on to the next one.
    fn take_items(
        &self,
        site: Site,
        cell: u32,
        variable: VariableSpot,
        turn: &Piece,
    ) -> Result<Piece, AllocError>
        ensures { IfOk result (λ code. HasTakenItems self.now code site cell variable turn.now) }
    {
        let mut code = Piece::new(self.alloc);
        self.take_item(&mut code, site, cell, variable)?;
        code.append_copy(turn)?;
        let back = as_index(code.len())?;
        code.put(site.line, Instruction::Next { cell, back })?;
        Ok(code)
    }

    // The first number, the limit and the step of a FOR.
    fn range(
        &mut self,
        code: &mut Piece,
        site: Site,
        first: &Expression,
        limit: &Expression,
        step: &Option<Expression>,
    ) -> Result<(), AllocError>
        ensures { OnOk result (HasEmitted self.old self.new code.old code.new site (λ s. IsInteger (view_expression first.now) s × IsInteger (view_expression limit.now) s × AreNumbers (option_map view_expression step.now) s) (λ t. range_code t (view_expression first.now) (view_expression limit.now) (option_map view_expression step.now))) }
    {
        self.push(code, site, first)?;
        self.push(code, site.above(1), limit)?;
        let third = site.above(2);
        match step {
            None => self.push_one(code, third),
            Some(e) => self.push(code, third, e),
        }
    }

    // A FOR over a class, or over numbers whose range is there.
    fn item_loop(
        &mut self,
        code: &mut Piece,
        site: Site,
        variable: Variable,
        class: Option<u32>,
        turn: &Piece,
    ) -> Result<(), AllocError>
        ensures { OnOk result (HasEmittedAround self.old self.new code.old code.new site turn.now (λ s. Unit {0}) (λ t b. item_loop_code t class variable b)) }
    {
        let above = site.above(NUMBER_CELLS);
        self.reach(above.height);
        let cell = self.place_of(site)?;
        let spot = self.variable_spot(variable)?;
        let items = self.take_items(above, cell, spot, turn)?;
        let skip = as_index(items.len())?;
        code.put(site.line, begin_items(class, cell, skip))?;
        code.append(items)?;
        self.forget(code, above, NUMBER_CELLS)
    }

    // The members of a walk: a turn, and on to the next one.
    fn take_members(&self, site: Site, walk: MemberLoop, turn: &Piece) -> Result<Piece, AllocError>
        ensures { IfOk result (λ code. HasTakenMembers self.now code site walk turn.now) }
    {
        let mut code = Piece::new(self.alloc);
        self.take_item(&mut code, site, walk.cell, walk.variable)?;
        code.append_copy(turn)?;
        let back = as_index(code.len())?;
        code.put(
            site.line,
            Instruction::NextMember {
                set: walk.set,
                owner: walk.owner,
                cell: walk.cell,
                back,
                reverse: walk.reverse,
                sifts: false,
            },
        )?;
        Ok(code)
    }

    // The owner of the set of a walk: it stays in a cell, so that nothing changes it, unless it is the system.
    fn kept_owner(
        &mut self,
        code: &mut Piece,
        site: Site,
        owner: &SetOwner,
    ) -> Result<Operand, AllocError>
        ensures { IfOk result (λ o. HasKeptOwner self.old self.new code.old code.new site (view_owner owner.now) o) }
    {
        match owner {
            SetOwner::TheSystem => self.owner(code, site, owner),
            SetOwner::Entity { entity } => {
                self.push(code, site, entity)?;
                Ok(Operand {
                    address: self.cell(site)?,
                    cells: 1,
                })
            }
        }
    }

    // The owner is looked at, and a member goes into the next cell.
    fn start_at(
        &mut self,
        code: &mut Piece,
        site: Site,
        walk: MemberLoop,
        member: &Expression,
    ) -> Result<(), AllocError>
        ensures { OnOk result (HasStartedWalk self.old self.new code.old code.new site walk (From (view_expression member.now))) }
    {
        code.put(
            site.line,
            Instruction::LookOwner {
                set: walk.set,
                owner: walk.owner,
            },
        )?;
        self.push(code, site, member)
    }

    // The member with which a walk begins, or after which, goes into the cell of the next member.
    fn start(
        &mut self,
        code: &mut Piece,
        site: Site,
        walk: MemberLoop,
        start: &Start,
    ) -> Result<(), AllocError>
        ensures { OnOk result (HasStartedWalk self.old self.new code.old code.new site walk (view_start start.now)) }
    {
        match start {
            Start::AtEnd => Ok(()),
            Start::From { member } => self.start_at(code, site, walk, member),
            Start::After { member } => self.start_at(code, site, walk, member),
        }
    }

    // A FOR over the members of a set.
    fn members(
        &mut self,
        code: &mut Piece,
        site: Site,
        of: SetLoop<'_>,
        turn: &Piece,
    ) -> Result<(), AllocError>
        ensures { OnOk result (HasEmittedAround self.old self.new code.old code.new site turn.now (λ s. IsTypedHead s (Members of.entry.variable of.entry.set (view_owner of.entry.owner.now) (view_start of.entry.start.now) of.entry.reverse)) (λ t b. for_code t (Members of.entry.variable of.entry.set (view_owner of.entry.owner.now) (view_start of.entry.start.now) of.entry.reverse) b)) }
    {
        let kept = self.kept_owner(code, site, of.owner)?;
        let below = site.above(kept.cells);
        let walk = MemberLoop {
            variable: self.variable_spot(of.variable)?,
            set: as_index(of.set)?,
            owner: kept.address,
            cell: self.place_of(below)?,
            reverse: of.reverse,
        };
        self.start(code, below, walk, of.start)?;
        let above = below.above(MEMBER_CELLS);
        self.reach(above.height);
        let members = self.take_members(above, walk, turn)?;
        let skip = as_index(members.len())?;
        code.put(site.line, begin(walk, of.start, skip))?;
        code.append(members)?;
        self.forget(code, above, kept.cells.saturating_add(MEMBER_CELLS))
    }

    /// A FOR with this turn, which was made above the cells that it keeps.
    pub fn for_loop(
        &mut self,
        code: &mut Piece,
        site: Site,
        head: &Head,
        turn: Piece,
    ) -> Result<(), AllocError>
        ensures { OnOk result (HasEmittedAround self.old self.new code.old code.new site turn (λ s. IsTypedHead s (view_head head.now)) (λ t b. for_code t (view_head head.now) b)) }
    {
        match head {
            Head::Numbers {
                variable,
                first,
                limit,
                step,
            } => {
                self.range(code, site, first, limit, step)?;
                self.item_loop(code, site, *variable, None, &turn)
            }
            Head::Members {
                variable,
                set,
                owner,
                start,
                reverse,
            } => {
                let of = SetLoop {
                    variable: *variable,
                    set: *set,
                    owner,
                    start,
                    reverse: *reverse,
                };
                self.members(code, site, of, &turn)
            }
            Head::Each { variable, class } => {
                let class = as_index(*class)?;
                self.item_loop(code, site, *variable, Some(class), &turn)
            }
        }
    }

    /// A FIND, and what follows it where a case was found and where none was: the end of the loop at which none was found
    /// comes before its side, the other after a jump past both sides.
    pub fn find(
        &mut self,
        code: &mut Piece,
        site: Site,
        cases: Cases<'_>,
        found: &Piece,
        none: &Piece,
    ) -> Result<(), AllocError>
        ensures { OnOk result (HasEmittedAroundBoth self.old self.new code.old code.new site found.now none.now (λ s. IsTypedHead s (view_head cases.entry.head.now) × Every (IsTypedPhrase s) (map view_phrase cases.entry.phrases.now)) (λ t b. find_code t (view_head cases.entry.head.now) (map view_phrase cases.entry.phrases.now) b.first b.second)) }
    {
        let cells = cells_of(cases.head);
        let above = site.above(cells);
        self.reach(above.height);
        let case = self.jump(above, as_index(none.len() + 3)?)?;
        let turn = self.phrases(above, cases.phrases, case)?;
        self.for_loop(code, site, cases.head, turn)?;
        code.append_copy(none)?;
        let skip = as_index(found.len() + 1)?;
        code.put(site.line, Instruction::Jump { skip })?;
        self.forget(code, above, cells)?;
        code.append_copy(found)
    }
}
