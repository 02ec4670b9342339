//! Conditions with their names resolved.

ghost use Rattle.std.specs.Prelude.{List};
ghost use Rattle.ss_tree.specs.Tree.{TestTree};
ghost use Rattle.ss_tree.specs.View.{view_condition_tree, view_conjunction_tree, view_test_tree};
ghost use Rattle.ss_program.specs.Program.{Test as TestSeen};
ghost use Rattle.ss_program.specs.View.{view_condition as condition_seen, view_conjunction as conjunction_seen, view_test as test_seen};
ghost use Rattle.ss_names_meaning.specs.Answers.{HasGiven};
ghost use Rattle.ss_names_meaning.specs.Conditions.{condition, conjunction, one_test};
ghost use Rattle.ss_check_bodies.specs.Results.{scope_in};

use crate::lists::FromTree;
use crate::resolver::Resolver;
use crate::results::both;
use ss_names_meaning::ResolveError;
use ss_program::condition::{
    Condition as ResolvedCondition, Conjunction as ResolvedConjunction, Test as ResolvedTest,
};
use ss_tree::condition::{Condition, Conjunction, Test};

impl FromTree for ResolvedTest {
    type Tree = Test;

    ghost TreeSeen = { TestTree };

    ghost tree_seen = { view_test_tree };

    ghost Seen = { TestSeen };

    ghost seen = { test_seen };

    ghost meaning = { one_test };

    #[tactic(auto, unfolding(ss_names_meaning::specs::Conditions::one_test))]
    fn from_tree(resolver: &Resolver<'_>, tree: &Test) -> Result<ResolvedTest, ResolveError> {
        match tree {
            Test::Compare {
                left,
                relation,
                right,
            } => {
                let left = resolver.resolve_expression(left);
                let (left, right) = both(left, resolver.resolve_expression(right))?;
                Ok(ResolvedTest::Compare {
                    left,
                    relation: *relation,
                    right,
                })
            }
            Test::Empty { set, negated } => {
                let (set, owner) = resolver.resolve_set(set)?;
                Ok(ResolvedTest::Empty {
                    negated: *negated,
                    set,
                    owner,
                })
            }
            Test::Member {
                member,
                set,
                negated,
            } => {
                let member = resolver.resolve_expression(member);
                let (member, (set, owner)) = both(member, resolver.resolve_set(set))?;
                Ok(ResolvedTest::Member {
                    negated: *negated,
                    set,
                    member,
                    owner,
                })
            }
            Test::DataEnded { negated } => Ok(ResolvedTest::DataEnded { negated: *negated }),
        }
    }
}

impl FromTree for ResolvedConjunction {
    type Tree = Conjunction;

    ghost TreeSeen = { List TestTree };

    ghost tree_seen = { view_conjunction_tree };

    ghost Seen = { List TestSeen };

    ghost seen = { conjunction_seen };

    ghost meaning = { conjunction };

    fn from_tree(
        resolver: &Resolver<'_>,
        tree: &Conjunction,
    ) -> Result<ResolvedConjunction, ResolveError> {
        let tests = resolver.resolve_each::<ResolvedTest>(tree.tests.as_slice())?;
        Ok(ResolvedConjunction { tests })
    }
}

impl Resolver<'_> {
    /// A condition.
    pub(crate) fn resolve_condition(
        &self,
        tree: &Condition,
    ) -> Result<ResolvedCondition, ResolveError>
        ensures { HasGiven condition_seen result (condition (scope_in self.now) (view_condition_tree tree.now)) }
    {
        let alternatives = self.resolve_each::<ResolvedConjunction>(tree.alternatives.as_slice())?;
        Ok(ResolvedCondition { alternatives })
    }
}
