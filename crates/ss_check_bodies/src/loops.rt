//! Loops around resolved statements.

ghost use Rattle.ss_tree.specs.View.{view_head_tree, view_loop_head};
ghost use Rattle.ss_program.specs.View.{view_body, view_statement as view_resolved};
ghost use Rattle.ss_names_meaning.specs.Answers.{HasGiven};
ghost use Rattle.ss_names_meaning.specs.Statements.{find, for_over, resolved_loop};
ghost use Rattle.ss_check_bodies.specs.Results.{over_seen, resolved_over, scope_in};

use crate::heads::phrases_of;
use crate::resolver::Resolver;
use crate::results::{beside, both};
use ss_base::Line;
use ss_names_meaning::ResolveError;
use ss_program::head::{Guard, Head as ResolvedHead, Phrase};
use ss_program::statement::Statement as Resolved;
use ss_tree::head::{Head, LoopHead};

impl Resolver<'_> {
    // What a FOR goes over, and its phrases.
    fn resolve_over(&self, head: &Head) -> Result<(ResolvedHead, Vec<Phrase>), ResolveError>
        ensures { HasGiven over_seen result (resolved_over (scope_in self.now) (view_head_tree head.now)) }
    {
        let over = self.resolve_head(head);
        both(over, self.resolve_each::<Phrase>(phrases_of(head)))
    }

    // A FOR with its body.
    #[tactic(auto, using(ss_program::specs::Views::view_for_made))]
    fn resolve_for(
        &self,
        line: Line,
        head: &Head,
        body: Vec<Resolved>,
    ) -> Result<Resolved, ResolveError>
        ensures { HasGiven view_resolved result (for_over line (scope_in self.now) (view_head_tree head.now) (view_body body.items)) }
    {
        let (head, phrases) = self.resolve_over(head)?;
        Ok(Resolved::For {
            line,
            head,
            phrases,
            body,
        })
    }

    /// A loop with its body.
    #[tactic(auto, using(ss_program::specs::Views::view_loop_made))]
    pub(crate) fn resolve_loop(
        &self,
        line: Line,
        head: &LoopHead,
        body: Vec<Resolved>,
    ) -> Result<Resolved, ResolveError>
        ensures { HasGiven view_resolved result (resolved_loop line (scope_in self.now) (view_loop_head head.now) (view_body body.items)) }
    {
        match head {
            LoopHead::For(head) => self.resolve_for(line, head, body),
            LoopHead::Guards(guards) => {
                let guards = self.resolve_each::<Guard>(guards.as_slice())?;
                Ok(Resolved::Loop { line, guards, body })
            }
        }
    }

    /// FIND THE FIRST CASE, with what follows where one was found and where none was.
    #[tactic(auto, using(ss_program::specs::Views::view_find_made))]
    pub(crate) fn resolve_find(
        &self,
        line: Line,
        head: &Head,
        found: Vec<Resolved>,
        none: Vec<Resolved>,
    ) -> Result<Resolved, ResolveError>
        ensures { HasGiven view_resolved result (find line (scope_in self.now) (view_head_tree head.now) (view_body found.items) (view_body none.items)) }
    {
        let ((found, none), (head, phrases)) = beside((found, none), self.resolve_over(head))?;
        Ok(Resolved::Find {
            line,
            head,
            phrases,
            found,
            none,
        })
    }
}
