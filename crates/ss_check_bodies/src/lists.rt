//! Lists of trees, resolved one after the other.

ghost use Rattle.std.specs.Prelude.{Option, map};
ghost use Rattle.ss_names_scopes.specs.Scopes.{Scope};
ghost use Rattle.ss_names_meaning.specs.Answers.{HasGiven, each};
ghost use Rattle.ss_check_bodies.specs.Results.{scope_in};

use crate::resolver::Resolver;
use crate::results::followed;
use ss_names_meaning::ResolveError;

/// What trees of one kind become.
pub(crate) trait FromTree: Drop {
    type Tree;

    ghost TreeSeen: { Type 0 };

    ghost tree_seen: { Self.Tree → TreeSeen };

    ghost Seen: { Type 0 };

    ghost seen: { Self → Seen };

    ghost meaning: { Scope → TreeSeen → Option Seen };

    /// What this tree becomes.
    fn from_tree(resolver: &Resolver<'_>, tree: &Self::Tree) -> Result<Self, ResolveError>
        ensures { HasGiven seen result (meaning (scope_in resolver.now) (tree_seen tree.now)) };
}

impl Resolver<'_> {
    /// What these trees become.
    pub(crate) fn resolve_each<T: FromTree>(
        &self,
        trees: &[T::Tree],
    ) -> Result<Vec<T>, ResolveError>
        ensures { HasGiven (λ v. map T.seen v.items) result (each (T.meaning (scope_in self.now)) (map T.tree_seen trees.now)) }
    {
        let mut resolved = Vec::new(self.alloc);
        for tree in trees {
            resolved = followed(resolved, T::from_tree(self, tree))?;
        }
        Ok(resolved)
    }
}
