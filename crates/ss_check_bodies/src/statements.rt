//! Statements without statements in them, with their names resolved.

ghost use Rattle.std.specs.Prelude.{◌≡◌, map, IfOk};
ghost use Rattle.ss_tree.specs.Tree.{call_statement};
ghost use Rattle.ss_tree.specs.View.{view_expression_tree, view_named, view_statement_tree};
ghost use Rattle.ss_program.specs.View.{view_statement as view_resolved};
ghost use Rattle.ss_program.specs.Program.{Change};
ghost use Rattle.ss_names_meaning.specs.Answers.{HasGiven, of_two};
ghost use Rattle.ss_names_meaning.specs.Expressions.{expression, target};
ghost use Rattle.ss_names_meaning.specs.Statements.{routine_named, routine_number, simple_statement};
ghost use Rattle.ss_check_bodies.specs.Results.{scope_in};

use crate::resolver::Resolver;
use crate::results::{beside, both};
use ss_base::{Line, Name, PictureLine, Sign};
use ss_names::{Meaning, RoutineSection};
use ss_names_declarations::value_at;
use ss_names_meaning::ResolveError;
use ss_names_uses::ClassNeed;
use ss_program::statement::{CountedClass, InputTarget, Place, Restart, Statement as Resolved};
use ss_tree::expression::{Expression, Named};
use ss_tree::statement::Statement;
use std::alloc::{AllocError, Global};

// The number of a routine.
fn routine_number(meaning: Option<Meaning>) -> Option<usize>
    ensures { result ≡ routine_number meaning }
{
    match meaning {
        Some(Meaning::Routine { routine }) => Some(routine),
        _ => None,
    }
}

// The bytes of some pictures.
fn picture_lines(alloc: Global, pictures: &[PictureLine]) -> Result<Vec<Vec<u8>>, AllocError>
    ensures { IfOk result (λ lines. map (λ p. p.items) lines.items ≡ pictures.now) }
{
    let mut lines = Vec::new(alloc);
    for picture in pictures {
        lines.push(Vec::from_slice(alloc, picture.bytes())?)?;
    }
    Ok(lines)
}

impl Resolver<'_> {
    // The routine of a name, with its number.
    fn routine_named(&self, name: &Name) -> Result<(usize, RoutineSection), ResolveError>
        ensures { HasGiven (λ x. x) result (routine_named (scope_in self.now) name.now) }
    {
        let Some(routine) = routine_number(self.scope.names.meaning(name)) else {
            return Err(ResolveError::Unresolved);
        };
        let names = self.scope.names;
        match value_at(&names.routines, routine) {
            Some(section) => Ok((routine, section)),
            None => Err(ResolveError::Unresolved),
        }
    }

    // A CALL, if the routine is given and yields as many values.
    #[tactic(auto, unfolding(ss_names_meaning::specs::Statements::simple_statement, ss_program::specs::View::view_statement))]
    fn resolve_call_statement(
        &self,
        line: Line,
        routine: &Name,
        given: &[Expression],
        yielding: &[Named],
    ) -> Result<Resolved, ResolveError>
        ensures { HasGiven view_resolved result (simple_statement (scope_in self.now) (call_statement line routine.now (map view_expression_tree given.now) (map view_named yielding.now))) }
    {
        let (routine, section) = self.routine_named(routine)?;
        let values = self.resolve_all(given);
        let (given, yielding) = both(values, self.resolve_each::<Place>(yielding))?;
        if given.len() == section.given && yielding.len() == section.yielding {
            Ok(Resolved::Call {
                line,
                routine,
                given,
                yielding,
            })
        } else {
            Err(ResolveError::Unresolved)
        }
    }

    // An ADD or a SUBTRACT.
    #[tactic(auto, unfolding(ss_program::specs::View::view_statement))]
    fn resolve_change(
        &self,
        line: Line,
        sign: Sign,
        amount: &Expression,
        place: &Named,
    ) -> Result<Resolved, ResolveError>
        ensures { HasGiven view_resolved result (of_two (expression (scope_in self.now) (view_expression_tree amount.now)) (target (scope_in self.now) (view_named place.now)) (λ x p. Change line sign p x)) }
    {
        let value = self.resolve_expression(amount);
        let (value, target) = both(value, self.resolve_target(place))?;
        Ok(Resolved::Change {
            line,
            sign,
            target,
            value,
        })
    }

    /// A statement without statements in it. `Unresolved` for another.
    #[tactic(auto, unfolding(ss_names_meaning::specs::Statements::simple_statement, ss_tree::specs::View::view_statement_tree, ss_program::specs::View::view_statement))]
    pub(crate) fn resolve_simple(&self, tree: &Statement) -> Result<Resolved, ResolveError>
        ensures { HasGiven view_resolved result (simple_statement (scope_in self.now) (view_statement_tree tree.now)) }
    {
        match tree {
            Statement::Let {
                line,
                target,
                value,
            } => {
                let target = self.resolve_target(target);
                let (target, value) = both(target, self.resolve_expression(value))?;
                Ok(Resolved::Let {
                    line: *line,
                    target,
                    value,
                })
            }
            Statement::Add {
                line,
                amount,
                target,
            } => self.resolve_change(*line, Sign::Plus, amount, target),
            Statement::Subtract {
                line,
                amount,
                target,
            } => self.resolve_change(*line, Sign::Minus, amount, target),
            Statement::Call {
                line,
                routine,
                given,
                yielding,
            } => self.resolve_call_statement(*line, routine, given, yielding),
            Statement::Read { line, targets } => {
                let readers = self.resolve_each::<InputTarget>(targets.as_slice())?;
                Ok(Resolved::Read {
                    line: *line,
                    targets: readers,
                })
            }
            Statement::Print {
                line,
                items,
                pictures,
            } => {
                let lines = picture_lines(self.alloc, pictures)?;
                let (pictures, items) = beside(lines, self.resolve_items(items))?;
                Ok(Resolved::Print {
                    line: *line,
                    items,
                    pictures,
                })
            }
            Statement::Skip { line, count } => {
                let count = self.resolve_expression(count)?;
                Ok(Resolved::Skip { line: *line, count })
            }
            Statement::Create {
                line,
                class,
                called,
            } => {
                let class = self.class_named(ClassNeed::Single, class)?;
                let into = self.resolve_new_place(class.variable, called)?;
                Ok(Resolved::Create {
                    line: *line,
                    class: class.class,
                    into,
                })
            }
            Statement::CreateEvery { line, classes } => {
                let counted = self.resolve_each::<CountedClass>(classes.as_slice())?;
                Ok(Resolved::CreateEvery {
                    line: *line,
                    classes: counted,
                })
            }
            Statement::Destroy {
                line,
                class,
                called,
            } => {
                let class = self.class_named(ClassNeed::Single, class)?;
                let entity = self.resolve_entity_called(class.variable, called)?;
                Ok(Resolved::Destroy {
                    line: *line,
                    class: class.class,
                    entity,
                })
            }
            Statement::File {
                line,
                member,
                position,
                set,
            } => {
                let member = self.resolve_expression(member);
                let filed = both(member, self.resolve_position(position));
                let ((member, position), (set, owner)) = both(filed, self.resolve_set(set))?;
                Ok(Resolved::File {
                    line: *line,
                    set,
                    member,
                    position,
                    owner,
                })
            }
            Statement::RemoveEnd {
                line,
                end,
                target,
                set,
            } => {
                let into = self.resolve_target(target);
                let (into, (set, owner)) = both(into, self.resolve_set(set))?;
                Ok(Resolved::RemoveEnd {
                    line: *line,
                    end: *end,
                    set,
                    into,
                    owner,
                })
            }
            Statement::Remove { line, member, set } => {
                let member = self.resolve_expression(member);
                let (member, (set, owner)) = both(member, self.resolve_set(set))?;
                Ok(Resolved::Remove {
                    line: *line,
                    set,
                    member,
                    owner,
                })
            }
            Statement::ScheduleNew {
                line,
                class,
                called,
                given,
                when,
            } => self.schedule_new(*line, class, called, given, when),
            Statement::Schedule {
                line,
                class,
                called,
                given,
                when,
            } => self.schedule_old(*line, class, called, given, when),
            Statement::Cancel {
                line,
                class,
                called,
            } => {
                let class = self.class_named(ClassNeed::Notice, class)?;
                let notice = self.resolve_entity_called(class.variable, called)?;
                Ok(Resolved::Cancel {
                    line: *line,
                    class: class.class,
                    notice,
                })
            }
            Statement::Reset { line, targets } => {
                let restarts = self.resolve_each::<Restart>(targets.as_slice())?;
                Ok(Resolved::Reset {
                    line: *line,
                    restarts,
                })
            }
            Statement::Find { line, head } => {
                let found = Vec::new(self.alloc);
                let none = Vec::new(self.alloc);
                self.resolve_find(*line, head, found, none)
            }
            Statement::Return { .. } => Ok(Resolved::Return),
            Statement::Stop { .. } => Ok(Resolved::Stop),
            Statement::StartSimulation { .. } => Ok(Resolved::Simulate),
            Statement::If { .. } | Statement::Loop { .. } | Statement::FindIf { .. } => Err(
                ResolveError::Unresolved,
            ),
        }
    }
}
