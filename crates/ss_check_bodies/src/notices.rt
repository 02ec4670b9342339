//! Notices that are scheduled, and when.

ghost use Rattle.std.specs.Prelude.{map};
ghost use Rattle.ss_tree.specs.Tree.{schedule_new, schedule_statement};
ghost use Rattle.ss_tree.specs.View.{view_expression_tree, view_named, view_when_tree};
ghost use Rattle.std.specs.Option.{option_map};
ghost use Rattle.ss_program.specs.View.{view_statement as view_resolved, view_when as when_seen};
ghost use Rattle.ss_names_meaning.specs.Answers.{HasGiven};
ghost use Rattle.ss_names_meaning.specs.Statements.{simple_statement, when};
ghost use Rattle.ss_check_bodies.specs.Results.{scope_in};

use crate::resolver::Resolver;
use crate::results::{both, where_holds};
use ss_base::{Line, Name};
use ss_names_meaning::ResolveError;
use ss_names_uses::ClassNeed;
use ss_program::statement::{Statement as Resolved, When as ResolvedWhen};
use ss_tree::expression::{Expression, Named};
use ss_tree::statement::When;

impl Resolver<'_> {
    /// A new notice, if its class has at least as many attributes as values are given.
    #[tactic(auto, unfolding(ss_names_meaning::specs::Statements::simple_statement, ss_program::specs::View::view_statement), using(crate::proofs::Seen::where_seen))]
    pub(crate) fn schedule_new(
        &self,
        line: Line,
        class: &Name,
        called: &Option<Named>,
        given: &[Expression],
        when: &When,
    ) -> Result<Resolved, ResolveError>
        ensures { HasGiven view_resolved result (simple_statement (scope_in self.now) (schedule_new line class.now (option_map view_named called.now) (map view_expression_tree given.now) (view_when_tree when.now))) }
    {
        let class = self.class_named(ClassNeed::Notice, class)?;
        let into = self.resolve_new_place(class.variable, called);
        let with = both(into, self.resolve_all(given));
        let ((into, given), when) = both(with, self.resolve_when(when))?;
        let fits = given.len() <= class.attributes;
        where_holds(
            fits,
            Resolved::ScheduleNew {
                line,
                class: class.class,
                into,
                given,
                when,
            },
        )
    }

    /// A notice that is there already, if its class has at least as many attributes as values are given.
    #[tactic(auto, unfolding(ss_names_meaning::specs::Statements::simple_statement, ss_program::specs::View::view_statement), using(crate::proofs::Seen::where_seen))]
    pub(crate) fn schedule_old(
        &self,
        line: Line,
        class: &Name,
        called: &Option<Expression>,
        given: &[Expression],
        when: &When,
    ) -> Result<Resolved, ResolveError>
        ensures { HasGiven view_resolved result (simple_statement (scope_in self.now) (schedule_statement line class.now (option_map view_expression_tree called.now) (map view_expression_tree given.now) (view_when_tree when.now))) }
    {
        let class = self.class_named(ClassNeed::Notice, class)?;
        let notice = self.resolve_entity_called(class.variable, called);
        let with = both(notice, self.resolve_all(given));
        let ((notice, given), when) = both(with, self.resolve_when(when))?;
        let fits = given.len() <= class.attributes;
        where_holds(
            fits,
            Resolved::Schedule {
                line,
                class: class.class,
                notice,
                given,
                when,
            },
        )
    }

    /// The time for which a notice is scheduled.
    pub(crate) fn resolve_when(&self, tree: &When) -> Result<ResolvedWhen, ResolveError>
        ensures { HasGiven when_seen result (when (scope_in self.now) (view_when_tree tree.now)) }
    {
        match tree {
            When::At(time) => {
                let time = self.resolve_expression(time)?;
                Ok(ResolvedWhen::At { time })
            }
            When::In(units) => {
                let units = self.resolve_expression(units)?;
                Ok(ResolvedWhen::In { units })
            }
            When::Now => Ok(ResolvedWhen::Now),
        }
    }
}
