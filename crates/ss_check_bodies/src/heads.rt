//! Heads of loops with their names resolved.

ghost use Rattle.std.specs.Prelude.{◌≡◌, map};
ghost use Rattle.ss_tree.specs.Tree.{GuardTree, PhraseTree};
ghost use Rattle.ss_tree.specs.View.{view_expression_tree, view_guard_tree, view_head_tree, view_phrase_tree, view_start_tree};
ghost use Rattle.std.specs.Option.{option_map};
ghost use Rattle.ss_program.specs.Program.{Guard as GuardSeen, Phrase as PhraseSeen};
ghost use Rattle.ss_program.specs.View.{view_expression as view_resolved, view_guard as guard_seen, view_head as head_seen, view_phrase as phrase_seen, view_start as start_seen};
ghost use Rattle.std.specs.Option.{option_map as option_seen};
ghost use Rattle.ss_names_meaning.specs.Answers.{HasGiven, if_there};
ghost use Rattle.ss_names_meaning.specs.Expressions.{expression};
ghost use Rattle.ss_names_meaning.specs.Heads.{called_variable, guard, head, phrases_of, resolved_phrase, resolved_start};
ghost use Rattle.ss_check_bodies.specs.Results.{scope_in};

use crate::lists::FromTree;
use crate::resolver::Resolver;
use crate::results::both;
use ss_base::Name;
use ss_names_meaning::ResolveError;
use ss_names_uses::ClassNeed;
use ss_program::expression::{Expression as Resolved, Variable};
use ss_program::head::{
    Guard as ResolvedGuard, Head as ResolvedHead, Phrase as ResolvedPhrase, Start,
};
use ss_tree::expression::Expression;
use ss_tree::head::{Guard, Head, MemberStart, Phrase};

/// The phrases of a FOR.
pub(crate) fn phrases_of(head: &Head) -> &[Phrase]
    ensures { map view_phrase_tree result.now ≡ phrases_of (view_head_tree head.now) }
{
    match head {
        Head::Range { phrases, .. } | Head::Members { phrases, .. } | Head::Class { phrases, .. } =>
            phrases,
    }
}

impl FromTree for ResolvedPhrase {
    type Tree = Phrase;

    ghost TreeSeen = { PhraseTree };

    ghost tree_seen = { view_phrase_tree };

    ghost Seen = { PhraseSeen };

    ghost seen = { phrase_seen };

    ghost meaning = { resolved_phrase };

    fn from_tree(resolver: &Resolver<'_>, tree: &Phrase) -> Result<ResolvedPhrase, ResolveError> {
        let condition = resolver.resolve_condition(&tree.condition)?;
        Ok(ResolvedPhrase {
            kind: tree.kind,
            condition,
        })
    }
}

impl FromTree for ResolvedGuard {
    type Tree = Guard;

    ghost TreeSeen = { GuardTree };

    ghost tree_seen = { view_guard_tree };

    ghost Seen = { GuardSeen };

    ghost seen = { guard_seen };

    ghost meaning = { guard };

    fn from_tree(resolver: &Resolver<'_>, tree: &Guard) -> Result<ResolvedGuard, ResolveError> {
        let condition = resolver.resolve_condition(&tree.condition)?;
        Ok(ResolvedGuard {
            kind: tree.kind,
            condition,
        })
    }
}

impl Resolver<'_> {
    // The variable after CALLED, or else that of the class.
    fn called_variable(
        &self,
        implied: Variable,
        called: &Option<Name>,
    ) -> Result<Variable, ResolveError>
        ensures { HasGiven (λ x. x) result (called_variable (scope_in self.now) implied called.now) }
    {
        match called {
            None => Ok(implied),
            Some(name) => self.variable_named(name),
        }
    }

    // The member with which a FOR over a set begins.
    fn resolve_start(&self, tree: &MemberStart) -> Result<Start, ResolveError>
        ensures { HasGiven start_seen result (resolved_start (scope_in self.now) (view_start_tree tree.now)) }
    {
        match tree {
            MemberStart::End => Ok(Start::AtEnd),
            MemberStart::From(member) => {
                let member = self.resolve_expression(member)?;
                Ok(Start::From { member })
            }
            MemberStart::After(member) => {
                let member = self.resolve_expression(member)?;
                Ok(Start::After { member })
            }
        }
    }

    // The step of a FOR, where one is written.
    fn resolve_step(&self, tree: &Option<Expression>) -> Result<Option<Resolved>, ResolveError>
        ensures { HasGiven (option_seen view_resolved) result (if_there (expression (scope_in self.now)) (option_map view_expression_tree tree.now)) }
    {
        match tree {
            None => Ok(None),
            Some(tree) => {
                let step = self.resolve_expression(tree)?;
                Ok(Some(step))
            }
        }
    }

    /// What a FOR goes over.
    #[tactic(auto, unfolding(ss_names_meaning::specs::Heads::head))]
    pub(crate) fn resolve_head(&self, tree: &Head) -> Result<ResolvedHead, ResolveError>
        ensures { HasGiven head_seen result (head (scope_in self.now) (view_head_tree tree.now)) }
    {
        match tree {
            Head::Range {
                variable,
                from,
                to,
                step,
                ..
            } => {
                let variable = self.variable_named(variable)?;
                let first = self.resolve_expression(from);
                let bounds = both(first, self.resolve_expression(to));
                let ((first, limit), step) = both(bounds, self.resolve_step(step))?;
                Ok(ResolvedHead::Numbers {
                    variable,
                    first,
                    limit,
                    step,
                })
            }
            Head::Members {
                variable,
                set,
                start,
                reverse,
                ..
            } => {
                let variable = self.variable_named(variable)?;
                let set = self.resolve_set(set);
                let ((set, owner), start) = both(set, self.resolve_start(start))?;
                Ok(ResolvedHead::Members {
                    variable,
                    set,
                    owner,
                    start,
                    reverse: *reverse,
                })
            }
            Head::Class { class, called, .. } => {
                let class = self.class_named(ClassNeed::Permanent, class)?;
                let variable = self.called_variable(class.variable, called)?;
                Ok(ResolvedHead::Each {
                    variable,
                    class: class.class,
                })
            }
        }
    }
}
