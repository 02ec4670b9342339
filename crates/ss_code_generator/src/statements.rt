//! The code of statements.

ghost use Rattle.std.specs.Prelude.{◌≡◌, ◌++◌, ◌∷◌, [], map, IfOk, OnOk};
ghost use Rattle.std.specs.List.{AllByRecursion as Every};
ghost use Rattle.ss_program.specs.Program.{Call, For, Destroy, Skip};
ghost use Rattle.ss_program.specs.View.{view_expression, view_condition, view_phrase, view_head, view_place, view_statement, view_body};
ghost use Rattle.ss_program.specs.WellTyped.{IsTypedCondition, IsTypedStatement, IsTypedBlock};
ghost use Rattle.ss_code_instructions.specs.Instructions.{Call as Calls, Destroy as Destroys, Skip as Skips, Leave};
ghost use Rattle.ss_code_instructions.specs.Translation.{with_operand, values_code, after_values, place, height as high_of, if_code, gives_code, block_code, block_prints};
ghost use Rattle.ss_code_pieces.specs.Lined.{no_code};
ghost use Rattle.ss_code_generator.specs.Emitted.{HasEmitted, HasEmittedAroundBoth};
ghost use Rattle.ss_code_generator.specs.Spots.{IsTypedPlace};
ghost use Rattle.ss_code_generator.specs.Printed.{statement_site, line_or_none, HasPrintedBy, HasEmittedStatement, HasEmittedBlock};

use crate::events::Planned;
use crate::generator::{Generator, Site};
use crate::loops::{Cases, cells_of};
use crate::sets::{MemberOf, SetEnd};
use ss_base::Line;
use ss_code_instructions::instruction::Instruction;
use ss_code_pieces::lines::Lines;
use ss_code_pieces::piece::{Piece, as_index};
use ss_program::condition::Condition;
use ss_program::expression::Expression;
use ss_program::statement::{Place, Statement};
use std::alloc::AllocError;

// A condition, and one side.
fn put_one_side(code: &mut Piece, test: Piece, then: &Piece) -> Result<(), AllocError>
    ensures { OnOk result (code.new ≡ code.old ++ (test ++ then.now)) }
{
    code.append(test)?;
    code.append_copy(then)?;
    Ok(())
}

impl Generator<'_> {
    // IF: a jump past the second side comes before it, if it has code.
    fn branches(
        &mut self,
        code: &mut Piece,
        site: Site,
        condition: &Condition,
        then: &Piece,
        otherwise: &Piece,
    ) -> Result<(), AllocError>
        ensures { OnOk result (HasEmittedAroundBoth self.old self.new code.old code.new site then.now otherwise.now (λ s. IsTypedCondition s (view_condition condition.now)) (λ t b. if_code t (view_condition condition.now) b.first b.second)) }
    {
        if otherwise.len() == 0 {
            let past = as_index(then.len())?;
            let test = self.condition(site, past, condition)?;
            return put_one_side(code, test, then);
        }
        let past = as_index(then.len() + 1)?;
        let test = self.condition(site, past, condition)?;
        put_one_side(code, test, then)?;
        let skip = as_index(otherwise.len())?;
        code.put(site.line, Instruction::Jump { skip })?;
        code.append_copy(otherwise)
    }

    // What a routine yields lies in cells, the first on top: each place takes one.
    fn gives(&mut self, code: &mut Piece, site: Site, places: &[Place]) -> Result<(), AllocError>
        ensures { OnOk result (HasEmitted self.old self.new code.old code.new site (λ s. Every (λ p. IsTypedPlace p s) (map view_place places.now)) (λ t. gives_code t (map view_place places.now))) }
    {
        let count = places.len();
        self.reach(site.height.saturating_add(count));
        for (i, place) in places.iter().enumerate() {
            self.give(code, site.above(count - 1 - i), place)?;
        }
        Ok(())
    }

    // CALL.
    fn call(
        &mut self,
        code: &mut Piece,
        site: Site,
        routine: usize,
        given: &[Expression],
        yielding: &[Place],
    ) -> Result<(), AllocError>
        ensures { OnOk result (HasEmitted self.old self.new code.old code.new site (λ s. IsTypedStatement s (Call site.line routine (map view_expression given.now) (map view_place yielding.now))) (λ t. values_code t (map view_expression given.now) ++ place (after_values t (map view_expression given.now)) (Calls routine (high_of t)) ∷ gives_code t (map view_place yielding.now))) }
    {
        self.values(code, site, given)?;
        let routine = as_index(routine)?;
        let cell = self.place_of(site)?;
        code.put(site.line, Instruction::Call { routine, cell })?;
        self.gives(code, site, yielding)
    }

    // DESTROY.
    fn destroy(
        &mut self,
        code: &mut Piece,
        site: Site,
        class: usize,
        entity: &Expression,
    ) -> Result<(), AllocError>
        ensures { OnOk result (HasEmitted self.old self.new code.old code.new site (λ s. IsTypedStatement s (Destroy site.line class (view_expression entity.now))) (λ t. with_operand t (view_expression entity.now) (Destroys class))) }
    {
        let entity = self.operand(code, site, entity)?.address;
        let class = as_index(class)?;
        code.put(site.line, Instruction::Destroy { class, entity })
    }

    // SKIP.
    fn skip(&mut self, code: &mut Piece, site: Site, count: &Expression) -> Result<(), AllocError>
        ensures { OnOk result (HasEmitted self.old self.new code.old code.new site (λ s. IsTypedStatement s (Skip site.line (view_expression count.now))) (λ t. with_operand t (view_expression count.now) Skips)) }
    {
        let count = self.operand(code, site, count)?.address;
        code.put(site.line, Instruction::Skip { count })
    }

    // A statement, above so many cells.
    #[tactic(auto, unfolding(ss_program::specs::View::view_statement))]
    #[cycle(statements)]
    fn statement(
        &mut self,
        code: &mut Piece,
        prints: &mut Vec<Lines>,
        height: usize,
        s: &Statement,
    ) -> Result<(), AllocError>
        ensures { OnOk result (HasEmittedStatement self.old self.new code.old code.new height prints.old.items prints.new.items (view_statement s.now)) }
    {
        let site = Site {
            line: line_of(s),
            height,
        };
        match s {
            Statement::Let { target, value, .. } => self.assignment(code, site, target, value),
            Statement::Change {
                sign,
                target,
                value,
                ..
            } => self.change(code, site, *sign, target, value),
            Statement::Call {
                routine,
                given,
                yielding,
                ..
            } => self.call(code, site, *routine, given, yielding),
            Statement::Return => code.put(site.line, Instruction::Leave),
            Statement::Stop => code.put(site.line, Instruction::Halt),
            Statement::Read { targets, .. } => self.reads(code, site, targets),
            Statement::Simulate => self.simulate(code, site),
            Statement::If {
                condition,
                then,
                otherwise,
                ..
            } => {
                let first = self.body(prints, height, then)?;
                let second = self.body(prints, height, otherwise)?;
                self.branches(code, site, condition, &first, &second)
            }
            Statement::Loop { guards, body, .. } => {
                let turn = self.body(prints, height, body)?;
                self.guarded_loop(code, site, guards, &turn)
            }
            Statement::For {
                head,
                phrases,
                body,
                ..
            } => {
                let phrases = phrases.as_slice();
                self.for_statement(code, prints, site, Cases { head, phrases }, body)
            }
            Statement::Find {
                head,
                phrases,
                found,
                none,
                ..
            } => {
                let first = self.body(prints, height, found)?;
                let second = self.body(prints, height, none)?;
                let phrases = phrases.as_slice();
                self.find(code, site, Cases { head, phrases }, &first, &second)
            }
            Statement::Create { class, into, .. } => self.create(code, site, *class, into),
            Statement::CreateEvery { classes, .. } => self.creates(code, site, classes),
            Statement::Destroy { class, entity, .. } => self.destroy(code, site, *class, entity),
            Statement::File {
                set,
                member,
                position,
                owner,
                ..
            } => {
                let set = *set;
                self.file(code, site, MemberOf { set, member, owner }, position)
            }
            Statement::RemoveEnd {
                end,
                set,
                into,
                owner,
                ..
            } => {
                let (set, end) = (*set, *end);
                self.remove_end(code, site, SetEnd { set, end }, into, owner)
            }
            Statement::Remove {
                set,
                member,
                owner,
                ..
            } => {
                let set = *set;
                self.remove(code, site, MemberOf { set, member, owner })
            }
            Statement::ScheduleNew {
                class,
                into,
                given,
                when,
                ..
            } => {
                let class = *class;
                self.schedule_new(code, site, Planned { class, when }, into, given)
            }
            Statement::Schedule {
                class,
                notice,
                given,
                when,
                ..
            } => {
                let class = *class;
                self.schedule(code, site, Planned { class, when }, notice, given)
            }
            Statement::Cancel { class, notice, .. } => self.cancel(code, site, *class, notice),
            Statement::Reset { restarts, .. } => self.resets(code, site, restarts),
            Statement::Print {
                items,
                pictures,
                ..
            } => self.print(code, prints, site, items, pictures),
            Statement::Skip { count, .. } => self.skip(code, site, count),
        }
    }

    // FOR.
    #[cycle(statements)]
    fn for_statement(
        &mut self,
        code: &mut Piece,
        prints: &mut Vec<Lines>,
        site: Site,
        cases: Cases<'_>,
        body: &[Statement],
    ) -> Result<(), AllocError>
        ensures { OnOk result (HasEmittedStatement self.old self.new code.old code.new site.height prints.old.items prints.new.items (For site.line (view_head cases.entry.head.now) (map view_phrase cases.entry.phrases.now) (view_body body.now))) }
    {
        let above = site.above(cells_of(cases.head));
        self.reach(above.height);
        let inner = self.body(prints, above.height, body)?;
        let turn = self.phrases(above, cases.phrases, inner)?;
        self.for_loop(code, site, cases.head, turn)
    }

    // One statement after another, above so many cells.
    #[cycle(statements)]
    fn body(
        &mut self,
        prints: &mut Vec<Lines>,
        height: usize,
        body: &[Statement],
    ) -> Result<Piece, AllocError>
        ensures { IfOk result (λ code. HasEmittedBlock self.old self.new code height prints.old.items prints.new.items (view_body body.now)) }
    {
        let mut code = Piece::new(self.alloc);
        for s in body {
            self.statement(&mut code, prints, height, s)?;
        }
        Ok(code)
    }

    /// MAIN, a routine or an event routine, which ends with a return.
    pub fn section(
        &mut self,
        prints: &mut Vec<Lines>,
        body: &[Statement],
    ) -> Result<Piece, AllocError>
        ensures { IfOk result (λ code. HasPrintedBy self.old self.new no_code code (statement_site 0) prints.old.items prints.new.items (λ s. IsTypedBlock s (view_body body.now)) (block_prints (view_body body.now)) (λ first t. block_code t first (view_body body.now) ++ place t Leave ∷ [])) }
    {
        let mut code = self.body(prints, 0, body)?;
        code.put(Line(0), Instruction::Leave)?;
        Ok(code)
    }
}

// The line of a statement. One that never faults has none.
#[tactic(auto, unfolding(ss_program::specs::View::view_statement))]
fn line_of(s: &Statement) -> Line
    ensures { result ≡ line_or_none (view_statement s.now) }
{
    match s {
        Statement::Return | Statement::Stop | Statement::Simulate => Line(0),
        Statement::Let { line, .. }
        | Statement::Change { line, .. }
        | Statement::Call { line, .. }
        | Statement::Read { line, .. }
        | Statement::If { line, .. }
        | Statement::Loop { line, .. }
        | Statement::For { line, .. }
        | Statement::Find { line, .. }
        | Statement::Create { line, .. }
        | Statement::CreateEvery { line, .. }
        | Statement::Destroy { line, .. }
        | Statement::File { line, .. }
        | Statement::RemoveEnd { line, .. }
        | Statement::Remove { line, .. }
        | Statement::ScheduleNew { line, .. }
        | Statement::Schedule { line, .. }
        | Statement::Cancel { line, .. }
        | Statement::Reset { line, .. }
        | Statement::Print { line, .. }
        | Statement::Skip { line, .. } => *line,
    }
}
