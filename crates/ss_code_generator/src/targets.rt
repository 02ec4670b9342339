//! The code that assigns.

ghost use Rattle.std.specs.Prelude.{◌≡◌, ◌∷◌, [], ◌++◌, if◌then◌else◌, map, IfOk, OnOk};
ghost use Rattle.std.specs.List.{AllByRecursion as Every};
ghost use Rattle.ss_base.specs.declared.layout.Mode.TheVariants.{Integer};
ghost use Rattle.ss_program.specs.Program.{Let, Change, Place as Plain, ToVariable, ToAttribute, ToCount};
ghost use Rattle.ss_program.specs.View.{view_expression, view_place, view_target};
ghost use Rattle.ss_program.specs.WellTyped.{CanTakeMode, IsTypedStatement};
ghost use Rattle.ss_code_instructions.specs.Instructions.{Read, Create};
ghost use Rattle.ss_code_instructions.specs.declared.instruction.Instruction.TheVariants.{LookEntity, ChangeAttribute};
ghost use Rattle.ss_code_instructions.specs.Facts.{is_watched};
ghost use Rattle.ss_code_instructions.specs.Translation.{Site as At, operand_code, forget, to_place_code, place as placed, let_code, change_code, reads_code, creates_code, give_code, place_code};
ghost use Rattle.ss_code_instructions.specs.Forms.{storing, reading};
ghost use Rattle.ss_code_pieces.specs.Lined.{on_line};
ghost use Rattle.ss_code_generator.specs.declared.generator.Site.{Site as Here};
ghost use Rattle.ss_code_generator.specs.Emitted.{Final, IsAround, HasGrown, IsLocated, IsSiteTarget, HasGenerated, HasNoMore, HasEmitted, IsInteger};
ghost use Rattle.ss_code_generator.specs.Spots.{HasTargetRoom, HasHeldMode, IsWatchedAs, IsVariable, IsAttribute, IsSpot, IsPlaceOf, spot_cells, spot_code, landing as lands_at, IsTypedPlace, HasAssigned, HasAssignedLanded, Changed, IsHeldBy};

use crate::expressions::{move_of, signed};
use crate::generator::{Generator, Site};
use ss_base::Mode;
use ss_code_instructions::address::Address;
use ss_code_instructions::instruction::Instruction;
use ss_code_pieces::facts::{
    attribute_mode, is_attribute_watched, is_variable_watched, variable_mode,
};
use ss_code_pieces::leaves::must_look;
use ss_code_pieces::piece::{Piece, as_index};
use ss_program::expression::{Expression, Sign, Variable};
use ss_program::statement::{CountedClass, InputTarget, Place};
use std::alloc::AllocError;

/// A variable that is assigned: where it lies, its mode, and its number where a statistic watches it.
#[derive(Clone, Copy)]
pub struct VariableSpot {
    pub address: Address,
    pub mode: Mode,
    pub watched: Option<u32>,
}

/// An attribute that is assigned: its class, its number in that, its mode, the entity, how many cells that takes, and whether a
/// statistic watches it.
#[derive(Clone, Copy)]
pub struct AttributeSpot {
    pub class: u32,
    pub field: u32,
    pub mode: Mode,
    pub entity: Address,
    pub cells: usize,
    pub is_watched: bool,
}

/// What is assigned.
#[derive(Clone, Copy)]
pub enum Spot {
    Variable(VariableSpot),
    Attribute(AttributeSpot),
    /// N. of a permanent class, by the class.
    Count(u32, VariableSpot),
}

/// A variable that ADD or SUBTRACT changes, and what is assigned so: the variable itself, or N. of a class.
#[derive(Clone, Copy)]
pub struct ChangedSpot {
    pub variable: VariableSpot,
    pub spot: Spot,
}

impl Spot {
    /// How many cells it takes.
    pub fn cells(self) -> usize
        ensures { result ≡ spot_cells self }
    {
        match self {
            Spot::Variable(_) => 0,
            Spot::Attribute(spot) => spot.cells,
            Spot::Count(_, _) => 0,
        }
    }
}

/// A value goes to an attribute.
pub fn set_of(spot: AttributeSpot, from: Address) -> Instruction
    ensures { result ≡ storing spot.mode spot.class spot.field spot.entity from spot.is_watched }
{
    match spot.mode {
        Mode::Integer => Instruction::SetAttribute {
            class: spot.class,
            field: spot.field,
            entity: spot.entity,
            from,
            noted: spot.is_watched,
        },
        Mode::Alpha => Instruction::SetTextAttribute {
            class: spot.class,
            field: spot.field,
            entity: spot.entity,
            from,
        },
    }
}

// A number is added to an attribute, or subtracted.
fn change_of(spot: AttributeSpot, sign: Sign, by: Address) -> Instruction
    ensures { result ≡ ChangeAttribute spot.class spot.field spot.entity by sign spot.is_watched }
{
    Instruction::ChangeAttribute {
        class: spot.class,
        field: spot.field,
        entity: spot.entity,
        by,
        sign,
        noted: spot.is_watched,
    }
}

// The entity of an attribute is looked at, if it is to be.
fn look_if(
    code: &mut Piece,
    site: Site,
    spot: AttributeSpot,
    is_looked: bool,
) -> Result<(), AllocError>
    ensures { OnOk result (code.new ≡ code.old ++ (if is_looked then on_line site.line (LookEntity spot.class spot.entity) ∷ [] else [])) }
{
    if is_looked {
        let (class, entity) = (spot.class, spot.entity);
        code.put(site.line, Instruction::LookEntity { class, entity })?;
    }
    Ok(())
}

// A word of input goes to a place.
fn read_of(mode: Mode, to: Address) -> Instruction
    ensures { result ≡ reading mode to }
{
    match mode {
        Mode::Integer => Instruction::Read { to },
        Mode::Alpha => Instruction::ReadText { to },
    }
}

impl Generator<'_> {
    // The number of a variable where a statistic watches it. None watches a local one.
    fn watched(&self, variable: Variable) -> Result<Option<u32>, AllocError>
        ensures { IfOk result (λ k. IsWatchedAs (is_watched self.now.program.now.statistics.items variable) variable k) }
    {
        match variable {
            Variable::Global { number } => {
                if is_variable_watched(self.program, number) {
                    Ok(Some(as_index(number)?))
                } else {
                    Ok(None)
                }
            }
            Variable::Local { .. } => Ok(None),
        }
    }

    /// A variable as what is assigned.
    pub fn variable_spot(&self, variable: Variable) -> Result<VariableSpot, AllocError>
        ensures { IfOk result (λ s. (f : Final) (here : Here) (t : At) → IsAround f self.now → IsLocated f self.now here t → IsVariable t variable s) }
    {
        Ok(VariableSpot {
            address: self.variable(variable)?,
            mode: variable_mode(self.program, &self.locals, variable),
            watched: self.watched(variable)?,
        })
    }

    // N. of a class as what is assigned.
    fn count_spot(&self, count: CountedClass) -> Result<Spot, AllocError>
        ensures { IfOk result (λ s. (f : Final) (here : Here) (t : At) → IsAround f self.now → IsLocated f self.now here t → IsSpot f t (ToCount count) s) }
    {
        let variable = Variable::Global {
            number: count.variable,
        };
        Ok(Spot::Count(as_index(count.class)?, self.variable_spot(variable)?))
    }

    // An attribute as what is assigned: the reference to its entity is evaluated.
    fn attribute_spot(
        &mut self,
        code: &mut Piece,
        site: Site,
        class: usize,
        field: usize,
        of: &Expression,
    ) -> Result<AttributeSpot, AllocError>
        ensures { IfOk result (λ s. HasGenerated self.old self.new code.old code.new site (λ f t (u : Unit {0}). IsInteger (view_expression of.now) t.scope) (λ t u. operand_code t (view_expression of.now)) (λ f t u. IsAttribute f t class field (view_expression of.now) s)) }
    {
        let entity = self.operand(code, site, of)?;
        Ok(AttributeSpot {
            class: as_index(class)?,
            field: as_index(field)?,
            mode: attribute_mode(self.program, class, field),
            entity: entity.address,
            cells: entity.cells,
            is_watched: is_attribute_watched(self.program, class, field),
        })
    }

    // A place as what is assigned: the reference to the entity of an attribute is evaluated.
    fn spot(&mut self, code: &mut Piece, site: Site, place: &Place) -> Result<Spot, AllocError>
        ensures { IfOk result (λ s. HasGenerated self.old self.new code.old code.new site (λ f t (u : Unit {0}). IsTypedPlace (view_place place.now) t.scope) (λ t u. spot_code t (view_place place.now)) (λ f t u. IsSpot f t (view_place place.now) s)) }
    {
        match place {
            Place::ToVariable { variable } => Ok(Spot::Variable(self.variable_spot(*variable)?)),
            Place::ToAttribute { class, field, of } => {
                let spot = self.attribute_spot(code, site, *class, *field, of)?;
                Ok(Spot::Attribute(spot))
            }
            Place::ToCount { count } => self.count_spot(*count),
        }
    }

    /// A place as what is assigned, and the reference is looked at: something that may fault comes before the value is assigned.
    pub fn looked_spot(
        &mut self,
        code: &mut Piece,
        site: Site,
        place: &Place,
    ) -> Result<Spot, AllocError>
        ensures { IfOk result (λ s. HasGenerated self.old self.new code.old code.new site (λ f t (u : Unit {0}). IsTypedPlace (view_place place.now) t.scope) (λ t u. place_code t (view_place place.now)) (λ f t u. IsSpot f t (view_place place.now) s)) }
    {
        match place {
            Place::ToVariable { variable } => Ok(Spot::Variable(self.variable_spot(*variable)?)),
            Place::ToAttribute { class, field, of } => {
                let spot = self.attribute_spot(code, site, *class, *field, of)?;
                let (class, entity) = (spot.class, spot.entity);
                code.put(site.line, Instruction::LookEntity { class, entity })?;
                Ok(Spot::Attribute(spot))
            }
            Place::ToCount { count } => self.count_spot(*count),
        }
    }

    /// Where the value that a place will be assigned lies at first: in the variable itself, unless it is watched, or in the next cell.
    pub fn landing(&mut self, site: Site, spot: Spot) -> Result<Address, AllocError>
        ensures grows { OnOk result (HasGrown self.old self.new) }
        ensures at { IfOk result (λ to. (f : Final) (t u : At) (p : Plain) → IsAround f self.new → IsLocated f self.new site u → t.scope ≡ u.scope → IsSpot f t p spot → IsSiteTarget f u (lands_at u p) to × HasTargetRoom f (lands_at u p)) }
    {
        match spot {
            Spot::Variable(variable) => match variable.watched {
                None => Ok(variable.address),
                Some(_) => self.cell(site),
            },
            Spot::Attribute(_) => self.cell(site),
            Spot::Count(_, _) => self.cell(site),
        }
    }

    // A variable is assigned a value. A statistic that watches it notes that.
    fn assign_variable(
        &self,
        code: &mut Piece,
        site: Site,
        variable: VariableSpot,
        from: Address,
    ) -> Result<(), AllocError>
        ensures { OnOk result (HasAssigned self.now code.old code.new site from (λ f t p. IsPlaceOf t p variable)) }
    {
        match variable.watched {
            Some(variable) => code.put(site.line, Instruction::Keep { from, variable }),
            None => code.put(site.line, move_of(variable.mode, from, variable.address)),
        }
    }

    /// A value goes to what is assigned.
    pub fn assign(
        &self,
        code: &mut Piece,
        site: Site,
        spot: Spot,
        from: Address,
    ) -> Result<(), AllocError>
        ensures { OnOk result (HasAssigned self.now code.old code.new site from (λ f t p. IsSpot f t p spot)) }
    {
        match spot {
            Spot::Variable(variable) => self.assign_variable(code, site, variable, from),
            Spot::Attribute(attribute) => code.put(site.line, set_of(attribute, from)),
            Spot::Count(class, variable) => {
                code.put(site.line, Instruction::LookCount { class })?;
                self.assign_variable(code, site, variable, from)
            }
        }
    }

    /// A value that lies where it comes at first goes to what is assigned: there is nothing to do where that is the variable itself.
    pub fn take(
        &self,
        code: &mut Piece,
        site: Site,
        spot: Spot,
        from: Address,
    ) -> Result<(), AllocError>
        ensures { OnOk result (HasAssignedLanded self.now code.old code.new site from (λ f t p. IsSpot f t p spot)) }
    {
        match spot {
            Spot::Variable(variable) => match variable.watched {
                None => Ok(()),
                Some(_) => self.assign(code, site.above(1), spot, from),
            },
            Spot::Attribute(_) => self.assign(code, site.above(1), spot, from),
            Spot::Count(_, _) => self.assign(code, site.above(1), spot, from),
        }
    }

    /// So many cells that stayed are forgotten.
    pub fn forget(&self, code: &mut Piece, site: Site, cells: usize) -> Result<(), AllocError>
        ensures { OnOk result (HasEmitted self.now self.now code.old code.new site (λ s. Unit {0}) (λ u. forget u cells)) }
    {
        if cells == 0 {
            return Ok(());
        }
        let count = as_index(cells)?;
        code.put(site.line, Instruction::Forget { count })
    }

    /// A value that lies in a cell goes to a place.
    pub fn give(&mut self, code: &mut Piece, site: Site, place: &Place) -> Result<(), AllocError>
        ensures { OnOk result (HasEmitted self.old self.new code.old code.new site (IsTypedPlace (view_place place.now)) (λ t. give_code t (view_place place.now))) }
    {
        let from = self.cell(site)?;
        let above = site.above(1);
        let spot = self.spot(code, above, place)?;
        self.assign(code, above.above(spot.cells()), spot, from)
    }

    // LET of a variable.
    fn let_variable(
        &mut self,
        code: &mut Piece,
        site: Site,
        spot: VariableSpot,
        value: &Expression,
    ) -> Result<(), AllocError>
        ensures { OnOk result (HasGenerated self.old self.new code.old code.new site (λ f t x. IsVariable t x spot × IsTypedStatement t.scope (Let site.line (ToVariable x) (view_expression value.now))) (λ t x. let_code t (ToVariable x) (view_expression value.now)) HasNoMore) }
    {
        match spot.watched {
            None => self.expression(code, site, value, spot.address),
            Some(variable) => {
                let from = self.operand(code, site, value)?.address;
                code.put(site.line, Instruction::Keep { from, variable })
            }
        }
    }

    /// LET.
    pub fn assignment(
        &mut self,
        code: &mut Piece,
        site: Site,
        place: &Place,
        value: &Expression,
    ) -> Result<(), AllocError>
        ensures { OnOk result (HasEmitted self.old self.new code.old code.new site (λ s. IsTypedStatement s (Let site.line (view_place place.now) (view_expression value.now))) (λ t. let_code t (view_place place.now) (view_expression value.now))) }
    {
        match place {
            Place::ToVariable { variable } => {
                let spot = self.variable_spot(*variable)?;
                self.let_variable(code, site, spot, value)
            }
            Place::ToAttribute { class, field, of } => {
                let spot = self.attribute_spot(code, site, *class, *field, of)?;
                look_if(code, site, spot, must_look(*class, of, value))?;
                let from = self.operand(code, site.above(spot.cells), value)?.address;
                code.put(site.line, set_of(spot, from))
            }
            Place::ToCount { count } => {
                let spot = self.count_spot(*count)?;
                let from = self.operand(code, site, value)?;
                self.assign(code, site.above(from.cells), spot, from.address)
            }
        }
    }

    // ADD and SUBTRACT, to a variable or N. of a class.
    fn change_variable(
        &mut self,
        code: &mut Piece,
        site: Site,
        sign: Sign,
        changed: ChangedSpot,
        value: &Expression,
    ) -> Result<(), AllocError>
        ensures { OnOk result (HasGenerated self.old self.new code.old code.new site (λ f t (c : Changed). IsSpot f t c.place changed.spot × IsVariable t c.variable changed.variable × IsHeldBy c × IsInteger (view_expression value.now) t.scope × HasHeldMode t.scope c.place Integer) (λ t c. change_code t sign c.place (view_expression value.now)) HasNoMore) }
    {
        let by = self.operand(code, site, value)?.address;
        let to = self.landing(site, changed.spot)?;
        code.put(site.line, signed(sign, changed.variable.address, by, to))?;
        self.take(code, site, changed.spot, to)
    }

    /// ADD and SUBTRACT.
    pub fn change(
        &mut self,
        code: &mut Piece,
        site: Site,
        sign: Sign,
        place: &Place,
        value: &Expression,
    ) -> Result<(), AllocError>
        ensures { OnOk result (HasEmitted self.old self.new code.old code.new site (λ s. IsTypedStatement s (Change site.line sign (view_place place.now) (view_expression value.now))) (λ t. change_code t sign (view_place place.now) (view_expression value.now))) }
    {
        match place {
            Place::ToVariable { variable } => {
                let variable = self.variable_spot(*variable)?;
                let spot = Spot::Variable(variable);
                self.change_variable(code, site, sign, ChangedSpot { variable, spot }, value)
            }
            Place::ToAttribute { class, field, of } => {
                let by = self.operand(code, site, value)?;
                let above = site.above(by.cells);
                let spot = self.attribute_spot(code, above, *class, *field, of)?;
                code.put(site.line, change_of(spot, sign, by.address))
            }
            Place::ToCount { count } => {
                let variable = self.variable_spot(Variable::Global {
                    number: count.variable,
                })?;
                let spot = Spot::Count(as_index(count.class)?, variable);
                self.change_variable(code, site, sign, ChangedSpot { variable, spot }, value)
            }
        }
    }

    // A target takes a word of input.
    fn read(&mut self, code: &mut Piece, site: Site, target: &InputTarget) -> Result<(), AllocError>
        ensures { OnOk result (HasEmitted self.old self.new code.old code.new site (λ s. CanTakeMode s (view_place target.now.place) target.now.mode) (λ t. to_place_code t (view_place target.now.place) target.now.mode (λ u to. placed u (Read target.now.mode to) ∷ []))) }
    {
        let spot = self.looked_spot(code, site, &target.place)?;
        let above = site.above(spot.cells());
        let to = self.landing(above, spot)?;
        code.put(site.line, read_of(target.mode, to))?;
        self.take(code, above, spot, to)
    }

    /// READ: each target takes a word of input.
    pub fn reads(
        &mut self,
        code: &mut Piece,
        site: Site,
        targets: &[InputTarget],
    ) -> Result<(), AllocError>
        ensures { OnOk result (HasEmitted self.old self.new code.old code.new site (λ s. Every (λ x. CanTakeMode s x.place x.mode) (map view_target targets.now)) (λ t. reads_code t (map view_target targets.now))) }
    {
        for target in targets {
            self.read(code, site, target)?;
        }
        Ok(())
    }

    /// CREATE A.
    pub fn create(
        &mut self,
        code: &mut Piece,
        site: Site,
        class: usize,
        place: &Place,
    ) -> Result<(), AllocError>
        ensures { OnOk result (HasEmitted self.old self.new code.old code.new site (λ s. CanTakeMode s (view_place place.now) Integer) (λ t. to_place_code t (view_place place.now) Integer (λ u to. placed u (Create class to) ∷ []))) }
    {
        let spot = self.looked_spot(code, site, place)?;
        let above = site.above(spot.cells());
        let to = self.landing(above, spot)?;
        let class = as_index(class)?;
        code.put(site.line, Instruction::Create { class, to })?;
        self.take(code, above, spot, to)
    }

    /// CREATE EVERY.
    pub fn creates(
        &mut self,
        code: &mut Piece,
        site: Site,
        classes: &[CountedClass],
    ) -> Result<(), AllocError>
        ensures { OnOk result (HasEmitted self.old self.new code.old code.new site (λ s. Unit {0}) (λ t. creates_code t classes.now)) }
    {
        for counted in classes {
            let class = as_index(counted.class)?;
            let variable = as_index(counted.variable)?;
            code.put(site.line, Instruction::CreateAll { class, variable })?;
        }
        Ok(())
    }
}
