//! The code that works on sets.

ghost use Rattle.std.specs.Prelude.{◌≡◌, ◌++◌, if◌then◌else◌, IfOk, OnOk};
ghost use Rattle.ss_program.specs.Program.{BeforeMember, AfterMember, File, RemoveEnd, Remove};
ghost use Rattle.ss_program.specs.View.{view_expression, view_owner, view_place, view_position};
ghost use Rattle.ss_program.specs.WellTyped.{IsTypedOwner, IsTypedStatement};
ghost use Rattle.ss_code_instructions.specs.Translation.{with_owner, after as beyond, operand, member_code, file_code, remove_code, remove_end_code};
ghost use Rattle.ss_code_instructions.specs.Facts.{may_fault, expression_of};
ghost use Rattle.ss_code_instructions.specs.Instructions.{File as Files};
ghost use Rattle.ss_code_pieces.specs.Preamble.{filing_of};
ghost use Rattle.ss_code_instructions.specs.Forms.{removing};
ghost use Rattle.ss_code_generator.specs.Filings.{filing_instruction};
ghost use Rattle.ss_code_generator.specs.Emitted.{HasEmitted, IsInteger, HasReadBy};

use crate::expressions::Operand;
use crate::generator::{Generator, Site};
use ss_code_instructions::address::Address;
use ss_code_instructions::instruction::Instruction;
use ss_code_pieces::facts::{Ordering, is_count_watched, ordering_of};
use ss_code_pieces::leaves::owner_may_fault;
use ss_code_pieces::piece::{Piece, as_index};
use ss_program::expression::{Expression, SetOwner};
use ss_program::statement::{End, Place, Position};
use std::alloc::AllocError;

// A member is filed where the discipline says.
fn file_by(
    ordering: Ordering,
    set: u32,
    member: Address,
    owner: Address,
    noted: bool,
) -> Instruction
    ensures { result ≡ filing_instruction ordering set member owner noted }
{
    match ordering {
        Ordering::First => Instruction::FileFirst {
            set,
            member,
            owner,
            noted,
        },
        Ordering::Last => Instruction::FileLast {
            set,
            member,
            owner,
            noted,
        },
        Ordering::Ranked => Instruction::FileRanked {
            set,
            member,
            owner,
            noted,
        },
    }
}

// The member at an end is removed.
fn remove_by(end: End, set: u32, owner: Address, to: Address, noted: bool) -> Instruction
    ensures { result ≡ removing end set owner to noted }
{
    match end {
        End::First => Instruction::RemoveFirst {
            set,
            owner,
            to,
            noted,
        },
        End::Last => Instruction::RemoveLast {
            set,
            owner,
            to,
            noted,
        },
    }
}

/// An entity as a member of a set: the set, the reference to the entity, and the owner of the set.
#[derive(Clone, Copy)]
pub struct MemberOf<'a> {
    pub set: usize,
    pub member: &'a Expression,
    pub owner: &'a SetOwner,
}

/// An end of a set.
#[derive(Clone, Copy)]
pub struct SetEnd {
    pub set: usize,
    pub end: End,
}

impl Generator<'_> {
    /// A reference to an entity that may be a member of a set. It is looked at where something that may fault comes between.
    pub fn member(
        &mut self,
        code: &mut Piece,
        site: Site,
        set: usize,
        e: &Expression,
        is_looked: bool,
    ) -> Result<Operand, AllocError>
        ensures { IfOk result (λ o. HasReadBy self.old self.new code.old code.new site (IsInteger (view_expression e.now)) (view_expression e.now) o (λ t. member_code t is_looked set (view_expression e.now))) }
    {
        let member = self.operand(code, site, e)?;
        if !is_looked {
            return Ok(member);
        }
        let (set, entity) = (as_index(set)?, member.address);
        code.put(
            site.line,
            Instruction::LookMember {
                set,
                member: entity,
            },
        )?;
        Ok(member)
    }

    // A member is filed by an ordering.
    fn file_at(
        &mut self,
        code: &mut Piece,
        site: Site,
        of: MemberOf<'_>,
        ordering: Ordering,
    ) -> Result<(), AllocError>
        ensures { OnOk result (HasEmitted self.old self.new code.old code.new site (λ s. IsInteger (view_expression of.entry.member.now) s × IsTypedOwner s of.entry.set (view_owner of.entry.owner.now)) (λ t. member_code t (may_fault (expression_of (view_owner of.entry.owner.now))) of.entry.set (view_expression of.entry.member.now) ++ with_owner (beyond t (view_expression of.entry.member.now)) (view_owner of.entry.owner.now) (Files (filing_of ordering) of.entry.set (operand t (view_expression of.entry.member.now))))) }
    {
        let member = self.member(code, site, of.set, of.member, owner_may_fault(of.owner))?;
        let above = site.above(member.cells);
        let owner = self.owner(code, above, of.owner)?.address;
        let noted = is_count_watched(self.program, of.set);
        code.put(
            site.line,
            file_by(ordering, as_index(of.set)?, member.address, owner, noted),
        )
    }

    // A member is filed directly before another one, or directly after it.
    fn file_beside(
        &mut self,
        code: &mut Piece,
        site: Site,
        of: MemberOf<'_>,
        after: bool,
        beside: &Expression,
    ) -> Result<(), AllocError>
        ensures { OnOk result (HasEmitted self.old self.new code.old code.new site (λ s. IsInteger (view_expression of.entry.member.now) s × IsInteger (view_expression beside.now) s × IsTypedOwner s of.entry.set (view_owner of.entry.owner.now)) (λ t. file_code t of.entry.set (view_expression of.entry.member.now) (if after then AfterMember (view_expression beside.now) else BeforeMember (view_expression beside.now)) (view_owner of.entry.owner.now))) }
    {
        let member = self.member(code, site, of.set, of.member, true)?;
        let above = site.above(member.cells);
        let beside = self.member(code, above, of.set, beside, true)?;
        let higher = above.above(beside.cells);
        let owner = self.owner(code, higher, of.owner)?.address;
        code.put(
            site.line,
            Instruction::FileBeside {
                noted: is_count_watched(self.program, of.set),
                after,
                set: as_index(of.set)?,
                member: member.address,
                beside: beside.address,
                owner,
            },
        )
    }

    /// FILE.
    pub fn file(
        &mut self,
        code: &mut Piece,
        site: Site,
        of: MemberOf<'_>,
        position: &Position,
    ) -> Result<(), AllocError>
        ensures { OnOk result (HasEmitted self.old self.new code.old code.new site (λ s. IsTypedStatement s (File site.line of.entry.set (view_expression of.entry.member.now) (view_position position.now) (view_owner of.entry.owner.now))) (λ t. file_code t of.entry.set (view_expression of.entry.member.now) (view_position position.now) (view_owner of.entry.owner.now))) }
    {
        match position {
            Position::ByDiscipline => {
                let ordering = ordering_of(self.program, of.set);
                self.file_at(code, site, of, ordering)
            }
            Position::AsFirst => self.file_at(code, site, of, Ordering::First),
            Position::AsLast => self.file_at(code, site, of, Ordering::Last),
            Position::BeforeMember { member } => self.file_beside(code, site, of, false, member),
            Position::AfterMember { member } => self.file_beside(code, site, of, true, member),
        }
    }

    /// REMOVE.
    pub fn remove(
        &mut self,
        code: &mut Piece,
        site: Site,
        of: MemberOf<'_>,
    ) -> Result<(), AllocError>
        ensures { OnOk result (HasEmitted self.old self.new code.old code.new site (λ s. IsTypedStatement s (Remove site.line of.entry.set (view_expression of.entry.member.now) (view_owner of.entry.owner.now))) (λ t. remove_code t of.entry.set (view_expression of.entry.member.now) (view_owner of.entry.owner.now))) }
    {
        let member = self.member(code, site, of.set, of.member, owner_may_fault(of.owner))?;
        let above = site.above(member.cells);
        let owner = self.owner(code, above, of.owner)?.address;
        code.put(
            site.line,
            Instruction::Remove {
                set: as_index(of.set)?,
                member: member.address,
                owner,
                noted: is_count_watched(self.program, of.set),
            },
        )
    }

    /// REMOVE FIRST and REMOVE LAST.
    pub fn remove_end(
        &mut self,
        code: &mut Piece,
        site: Site,
        from: SetEnd,
        place: &Place,
        owner: &SetOwner,
    ) -> Result<(), AllocError>
        ensures { OnOk result (HasEmitted self.old self.new code.old code.new site (λ s. IsTypedStatement s (RemoveEnd site.line from.end from.set (view_place place.now) (view_owner owner.now))) (λ t. remove_end_code t from.end from.set (view_place place.now) (view_owner owner.now))) }
    {
        let spot = self.looked_spot(code, site, place)?;
        let above = site.above(spot.cells());
        let owner = self.owner(code, above, owner)?.address;
        let to = self.landing(above, spot)?;
        let noted = is_count_watched(self.program, from.set);
        let set = as_index(from.set)?;
        code.put(site.line, remove_by(from.end, set, owner, to, noted))?;
        self.take(code, above, spot, to)
    }
}
