//! Statements with their names resolved.

ghost use Rattle.std.specs.Prelude.{map};
ghost use Rattle.ss_tree.specs.View.{view_condition_tree, view_head_tree, view_statement_tree};
ghost use Rattle.ss_tree.specs.Tree.{statement_row};
ghost use Rattle.ss_program.specs.View.{view_body, view_statement as view_resolved};
ghost use Rattle.ss_names_meaning.specs.Answers.{HasGiven};
ghost use Rattle.ss_names_meaning.specs.Statements.{find_by, if_over, statement, statements};
ghost use Rattle.ss_check_bodies.specs.Results.{scope_in};

use crate::resolver::Resolver;
use crate::results::{both, followed};
use ss_base::Line;
use ss_names_meaning::ResolveError;
use ss_program::statement::Statement as Resolved;
use ss_tree::condition::Condition;
use ss_tree::head::Head;
use ss_tree::statement::{FindOutcome, Statement};

impl Resolver<'_> {
    // An IF around its sides.
    #[tactic(auto, using(ss_program::specs::Views::view_if_made))]
    fn resolve_if(
        &self,
        line: Line,
        condition: &Condition,
        then: Vec<Resolved>,
        otherwise: Vec<Resolved>,
    ) -> Result<Resolved, ResolveError>
        ensures { HasGiven view_resolved result (if_over line (scope_in self.now) (view_condition_tree condition.now) (view_body then.items) (view_body otherwise.items)) }
    {
        let condition = self.resolve_condition(condition)?;
        Ok(Resolved::If {
            line,
            condition,
            then,
            otherwise,
        })
    }

    // FIND THE FIRST CASE, where the body for this outcome comes first.
    fn resolve_find_by(
        &self,
        line: Line,
        head: &Head,
        outcome: FindOutcome,
        first: Vec<Resolved>,
        second: Vec<Resolved>,
    ) -> Result<Resolved, ResolveError>
        ensures { HasGiven view_resolved result (find_by outcome line (scope_in self.now) (view_head_tree head.now) (view_body first.items) (view_body second.items)) }
    {
        match outcome {
            FindOutcome::Found => self.resolve_find(line, head, first, second),
            FindOutcome::None => self.resolve_find(line, head, second, first),
        }
    }

    // A statement.
    #[cycle(nesting)]
    #[tactic(auto, unfolding(ss_names_meaning::specs::Statements::statement, ss_tree::specs::View::view_statement_tree), using(ss_tree::specs::Views::view_if_tree_made, ss_tree::specs::Views::view_loop_tree_made, ss_tree::specs::Views::view_find_if_made))]
    fn resolve_statement(&self, tree: &Statement) -> Result<Resolved, ResolveError>
        ensures { HasGiven view_resolved result (statement (scope_in self.now) (view_statement_tree tree.now)) }
    {
        match tree {
            Statement::If {
                line,
                condition,
                then,
                otherwise,
            } => {
                let first = self.resolve_body(then);
                let (then, otherwise) = both(first, self.resolve_body(otherwise))?;
                self.resolve_if(*line, condition, then, otherwise)
            }
            Statement::FindIf {
                line,
                head,
                outcome,
                then,
                otherwise,
            } => {
                let first = self.resolve_body(then);
                let (then, otherwise) = both(first, self.resolve_body(otherwise))?;
                self.resolve_find_by(*line, head, *outcome, then, otherwise)
            }
            Statement::Loop { line, head, body } => {
                let first = self.resolve_body(body)?;
                self.resolve_loop(*line, head, first)
            }
            Statement::Let { .. }
            | Statement::Add { .. }
            | Statement::Subtract { .. }
            | Statement::Call { .. }
            | Statement::Return { .. }
            | Statement::Stop { .. }
            | Statement::Read { .. }
            | Statement::StartSimulation { .. }
            | Statement::Find { .. }
            | Statement::Create { .. }
            | Statement::CreateEvery { .. }
            | Statement::Destroy { .. }
            | Statement::File { .. }
            | Statement::RemoveEnd { .. }
            | Statement::Remove { .. }
            | Statement::ScheduleNew { .. }
            | Statement::Schedule { .. }
            | Statement::Cancel { .. }
            | Statement::Reset { .. }
            | Statement::Print { .. }
            | Statement::Skip { .. } => self.resolve_simple(tree),
        }
    }

    /// Statements one after the other.
    #[cycle(nesting)]
    pub fn resolve_body(&self, trees: &[Statement]) -> Result<Vec<Resolved>, ResolveError>
        ensures { HasGiven (λ v. view_body v.items) result (statements (scope_in self.now) (statement_row (map view_statement_tree trees.now))) }
    {
        let mut resolved = Vec::new(self.alloc);
        for tree in trees {
            resolved = followed(resolved, self.resolve_statement(tree))?;
        }
        Ok(resolved)
    }
}
