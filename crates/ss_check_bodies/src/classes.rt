//! Classes by the kind that their place needs.

ghost use Rattle.std.specs.Prelude.{◌≡◌};
ghost use Rattle.ss_tree.specs.Names.{NameBytes};
ghost use Rattle.ss_program.specs.declared.statement.CountedClass.{CountedClass as CountedSeen};
ghost use Rattle.ss_names_meaning.specs.Answers.{HasGiven};
ghost use Rattle.ss_names_meaning.specs.Classes.{class_named, class_number, count_of, counted, variable_named};
ghost use Rattle.ss_check_bodies.specs.Results.{scope_in};

use crate::lists::FromTree;
use crate::resolver::Resolver;
use ss_base::{Name, Spelling};
use ss_names::Meaning;
use ss_names_meaning::{NamedClass, ResolveError};
use ss_names_scopes::{is_kind, variable_of};
use ss_names_uses::ClassNeed;
use ss_program::expression::Variable;
use ss_program::statement::CountedClass;

// The number of a class of the kind that its place needs.
fn class_number(need: ClassNeed, meaning: Option<Meaning>) -> Option<usize>
    ensures { result ≡ class_number need meaning }
{
    match meaning {
        Some(Meaning::Class { class, kind, .. }) => {
            if is_kind(need, kind) {
                Some(class)
            } else {
                None
            }
        }
        _ => None,
    }
}

// The class whose N. this is.
fn count_of(meaning: Option<Meaning>) -> Option<CountedClass>
    ensures { result ≡ count_of meaning }
{
    match meaning {
        Some(Meaning::Count { count }) => Some(count),
        _ => None,
    }
}

impl FromTree for CountedClass {
    type Tree = Name;

    ghost TreeSeen = { NameBytes };

    ghost tree_seen = { λ name. name };

    ghost Seen = { CountedSeen };

    ghost seen = { λ class. class };

    ghost meaning = { counted };

    fn from_tree(resolver: &Resolver<'_>, tree: &Name) -> Result<CountedClass, ResolveError> {
        let names = resolver.scope.names;
        count_of(names.meanings.meaning(&Spelling::derived(b'N', tree))).ok_or(
            ResolveError::Unresolved,
        )
    }
}

impl Resolver<'_> {
    /// The variable that a name means here: of a class its own, which a local one may hide.
    pub(crate) fn variable_named(&self, name: &Name) -> Result<Variable, ResolveError>
        ensures { HasGiven (λ x. x) result (variable_named (scope_in self.now) name.now) }
    {
        match self.scope.meaning_of_name(name) {
            Some(meaning) => variable_of(meaning).ok_or(ResolveError::Unresolved),
            None => Err(ResolveError::Unresolved),
        }
    }

    /// The class of a name, if it is of the kind that its place needs.
    pub(crate) fn class_named(
        &self,
        need: ClassNeed,
        name: &Name,
    ) -> Result<NamedClass, ResolveError>
        ensures { HasGiven (λ x. x) result (class_named (scope_in self.now) need name.now) }
    {
        let Some(class) = class_number(need, self.scope.names.meaning(name)) else {
            return Err(ResolveError::Unresolved);
        };
        let variable = self.variable_named(name)?;
        let attributes = self.scope.names.attributes_of(class).len();
        Ok(NamedClass {
            class,
            attributes,
            variable,
        })
    }
}
