//! The code of events and statistics.

ghost use Rattle.std.specs.Prelude.{◌≡◌, ◌+◌, ◌<◌, ◌^◌, [], ◌∷◌, ◌++◌, length, map, OnOk};
ghost use Rattle.std.specs.List.{AllByRecursion as Every};
ghost use Rattle.ss_program.specs.Program.{ScheduleNew, Schedule, Cancel};
ghost use Rattle.ss_program.specs.View.{view_expression, view_place, view_when, view_restart};
ghost use Rattle.ss_program.specs.WellTyped.{IsTypedWhen, IsTypedRestart, IsTypedStatement};
ghost use Rattle.ss_code_instructions.specs.Instructions.{Cancel as Cancels};
ghost use Rattle.ss_code_instructions.specs.Translation.{with_operand, values_code, after_values, when_code, schedule_new_code, schedule_code, restarts_code};
ghost use Rattle.ss_code_generator.specs.Notices.{named_at, any_watched, simulate_code, HasNamed};
ghost use Rattle.ss_code_generator.specs.Spots.{IsSpot};
ghost use Rattle.ss_code_generator.specs.Emitted.{HasEmitted, IsTyped};

use crate::generator::{Generator, Site};
use crate::targets::{Spot, set_of};
use ss_code_instructions::address::Address;
use ss_code_instructions::instruction::Instruction;
use ss_code_pieces::facts::is_attribute_watched;
use ss_code_pieces::piece::{Piece, as_index};
use ss_program::expression::Expression;
use ss_program::statement::{Place, Restart, When};
use std::alloc::AllocError;

// Where a new notice lies once it is assigned: in its variable, or where it came at first.
fn notice_at(spot: Spot, to: Address) -> Address
    ensures { result ≡ named_at spot to }
{
    match spot {
        Spot::Variable(variable) => variable.address,
        Spot::Attribute(_) => to,
        Spot::Count(_, _) => to,
    }
}

/// An event that is scheduled: the class of its notice, and for when.
#[derive(Clone, Copy)]
pub struct Planned<'a> {
    pub class: usize,
    pub when: &'a When,
}

impl Generator<'_> {
    // The time to schedule for goes into the next cell.
    fn time(&mut self, code: &mut Piece, site: Site, when: &When) -> Result<(), AllocError>
        ensures code { OnOk result (HasEmitted self.old self.new code.old code.new site (λ s. IsTypedWhen s (view_when when.now)) (λ t. when_code t (view_when when.now))) }
        ensures room { OnOk result (site.height < self.new.deepest) }
    {
        let to = self.cell(site)?;
        match when {
            When::At { time } => {
                let time = self.operand(code, site, time)?.address;
                code.put(site.line, Instruction::At { time, to })
            }
            When::In { units } => {
                let units = self.operand(code, site, units)?.address;
                code.put(site.line, Instruction::In { units, to })
            }
            When::Now => code.put(site.line, Instruction::Clock { to }),
        }
    }

    // What a notice is given goes into the next cells, and its time above that.
    fn notice_values(
        &mut self,
        code: &mut Piece,
        site: Site,
        given: &[Expression],
        when: &When,
    ) -> Result<(), AllocError>
        ensures code { OnOk result (HasEmitted self.old self.new code.old code.new site (λ s. Every (λ e. IsTyped e s) (map view_expression given.now) × IsTypedWhen s (view_when when.now)) (λ t. values_code t (map view_expression given.now) ++ when_code (after_values t (map view_expression given.now)) (view_when when.now))) }
        ensures room { OnOk result (self.new.deepest < 2 ^ 64 → site.height + length given.now < self.new.deepest) }
    {
        self.values(code, site, given)?;
        self.time(code, site.above(given.len()), when)
    }

    // Whether a statistic watches one of the first attributes of a notice, so many.
    fn is_given_watched(&self, class: usize, given: usize) -> bool
        ensures { result ≡ any_watched self.now.program.now.statistics.items class given }
    {
        let mut watched = false;
        for field in 0..given {
            watched = watched || is_attribute_watched(self.program, class, field);
        }
        watched
    }

    // A new notice goes to its place. What lies in cells stays there.
    fn name_notice(
        &self,
        code: &mut Piece,
        site: Site,
        spot: Spot,
        to: Address,
    ) -> Result<(), AllocError>
        ensures { OnOk result (HasNamed self.now code.old code.new site to (λ f t p. IsSpot f t p spot)) }
    {
        match spot {
            Spot::Variable(_) => self.take(code, site, spot, to),
            Spot::Attribute(attribute) => code.put(site.line, set_of(attribute, to)),
            Spot::Count(_, _) => self.assign(code, site.above(1), spot, to),
        }
    }

    /// SCHEDULE A.
    pub fn schedule_new(
        &mut self,
        code: &mut Piece,
        site: Site,
        planned: Planned<'_>,
        place: &Place,
        given: &[Expression],
    ) -> Result<(), AllocError>
        ensures { OnOk result (HasEmitted self.old self.new code.old code.new site (λ s. IsTypedStatement s (ScheduleNew site.line planned.entry.class (view_place place.now) (map view_expression given.now) (view_when planned.entry.when.now))) (λ t. schedule_new_code t planned.entry.class (view_place place.now) (map view_expression given.now) (view_when planned.entry.when.now))) }
    {
        let spot = self.looked_spot(code, site, place)?;
        let above = site.above(spot.cells());
        self.notice_values(code, above, given, planned.when)?;
        let time = self.cell(above)?;
        let higher = above.above(1);
        let to = self.landing(higher, spot)?;
        let class = as_index(planned.class)?;
        code.put(
            site.line,
            Instruction::MakeNotice {
                class,
                cell: self.place_of(above)?,
                given: as_index(given.len())?,
                to,
                noted: self.is_given_watched(planned.class, given.len()),
            },
        )?;
        self.name_notice(code, higher, spot, to)?;
        code.put(
            site.line,
            Instruction::FileNotice {
                class,
                notice: notice_at(spot, to),
                time,
            },
        )?;
        self.forget(code, above, spot.cells())
    }

    /// SCHEDULE THE.
    pub fn schedule(
        &mut self,
        code: &mut Piece,
        site: Site,
        planned: Planned<'_>,
        notice: &Expression,
        given: &[Expression],
    ) -> Result<(), AllocError>
        ensures { OnOk result (HasEmitted self.old self.new code.old code.new site (λ s. IsTypedStatement s (Schedule site.line planned.entry.class (view_expression notice.now) (map view_expression given.now) (view_when planned.entry.when.now))) (λ t. schedule_code t planned.entry.class (view_expression notice.now) (map view_expression given.now) (view_when planned.entry.when.now))) }
    {
        let notice = self.operand(code, site, notice)?;
        let (class, entity) = (as_index(planned.class)?, notice.address);
        code.put(site.line, Instruction::LookEntity { class, entity })?;
        let above = site.above(notice.cells);
        self.notice_values(code, above, given, planned.when)?;
        code.put(
            site.line,
            Instruction::Reschedule {
                class,
                notice: notice.address,
                cell: self.place_of(above)?,
                given: as_index(given.len())?,
                noted: self.is_given_watched(planned.class, given.len()),
            },
        )
    }

    /// CANCEL.
    pub fn cancel(
        &mut self,
        code: &mut Piece,
        site: Site,
        class: usize,
        notice: &Expression,
    ) -> Result<(), AllocError>
        ensures { OnOk result (HasEmitted self.old self.new code.old code.new site (λ s. IsTypedStatement s (Cancel site.line class (view_expression notice.now))) (λ t. with_operand t (view_expression notice.now) (Cancels class))) }
    {
        let notice = self.operand(code, site, notice)?.address;
        let class = as_index(class)?;
        code.put(site.line, Instruction::Cancel { class, notice })
    }

    /// START SIMULATION.
    pub fn simulate(&self, code: &mut Piece, site: Site) -> Result<(), AllocError>
        ensures { OnOk result (HasEmitted self.now self.now code.old code.new site (λ s. Unit {0}) (λ t. simulate_code t)) }
    {
        let cell = self.place_of(site)?;
        code.put(site.line, Instruction::Await { skip: 2 })?;
        code.put(site.line, Instruction::TakeEvent { cell })?;
        code.put(site.line, Instruction::NextEvent { back: 1 })?;
        Ok(())
    }

    // A statistic starts afresh.
    fn reset(&mut self, code: &mut Piece, site: Site, restart: &Restart) -> Result<(), AllocError>
        ensures { OnOk result (HasEmitted self.old self.new code.old code.new site (λ s. IsTypedRestart s restart.now.statistic (view_restart restart.now).of) (λ t. restarts_code t (view_restart restart.now ∷ []))) }
    {
        let entity = self.entity_of(code, site, &restart.of)?.address;
        let statistic = as_index(restart.statistic)?;
        code.put(site.line, Instruction::Reset { statistic, entity })
    }

    /// RESET.
    pub fn resets(
        &mut self,
        code: &mut Piece,
        site: Site,
        restarts: &[Restart],
    ) -> Result<(), AllocError>
        ensures { OnOk result (HasEmitted self.old self.new code.old code.new site (λ s. Every (λ r. IsTypedRestart s r.statistic r.of) (map view_restart restarts.now)) (λ t. restarts_code t (map view_restart restarts.now))) }
    {
        for restart in restarts {
            self.reset(code, site, restart)?;
        }
        Ok(())
    }
}
