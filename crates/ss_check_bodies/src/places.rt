//! Targets, sets and statistics with their names resolved.

ghost use Rattle.std.specs.Prelude.{◌≡◌, None};
ghost use Rattle.ss_tree.specs.Tree.{NamedTree};
ghost use Rattle.ss_tree.specs.View.{view_expression_tree, view_named, view_position_tree};
ghost use Rattle.std.specs.Option.{option_map};
ghost use Rattle.ss_program.specs.Program.{InputTarget as TargetSeen, Place as PlaceSeen, Restart as RestartSeen};
ghost use Rattle.ss_program.specs.View.{view_expression as view_resolved, view_owner, view_place, view_position as position_seen, view_restart, view_target};
ghost use Rattle.std.specs.Option.{option_map as option_seen};
ghost use Rattle.ss_names_meaning.specs.Answers.{HasGiven};
ghost use Rattle.ss_names_meaning.specs.Expressions.{set_owner, place_of, set_named, set_number, set_of_name, target};
ghost use Rattle.ss_names_meaning.specs.Statements.{entity_called, new_place, position, reader, restart};
ghost use Rattle.ss_check_bodies.specs.Results.{scope_in};

use crate::lists::FromTree;
use crate::resolver::Resolver;
use crate::results::unresolved;
use ss_names::Meaning;
use ss_names_meaning::ResolveError;
use ss_names_scopes::mode_of;
use ss_program::expression::{Expression as Resolved, SetOwner, Variable};
use ss_program::statement::{InputTarget, Place, Position as ResolvedPosition, Restart};
use ss_tree::expression::{Designator, Expression, Named};
use ss_tree::statement::Position;

// The target that is of no entity.
fn place_alone(meaning: Meaning) -> Result<Place, ResolveError>
    ensures { HasGiven view_place result (place_of meaning None) }
{
    match meaning {
        Meaning::Variable { variable, .. } => Ok(Place::ToVariable { variable }),
        Meaning::Class { variable, .. } => Ok(Place::ToVariable {
            variable: Variable::Global { number: variable },
        }),
        Meaning::Count { count } => Ok(Place::ToCount { count }),
        _ => Err(ResolveError::Unresolved),
    }
}

// The target that a name means, of the entity that has it.
fn place_of(meaning: Meaning, entity: Option<Resolved>) -> Result<Place, ResolveError>
    ensures { HasGiven view_place result (place_of meaning (option_seen view_resolved entity)) }
{
    match entity {
        None => place_alone(meaning),
        Some(of) => match meaning {
            Meaning::Attribute { class, field, .. } => Ok(Place::ToAttribute { class, field, of }),
            _ => Err(unresolved(of)),
        },
    }
}

// The owner of a set.
fn set_owner(entity: Option<Resolved>) -> SetOwner
    ensures { view_owner result ≡ set_owner (option_seen view_resolved entity) }
{
    match entity {
        Some(entity) => SetOwner::Entity { entity },
        None => SetOwner::TheSystem,
    }
}

// The number of a set.
fn set_number(meaning: Option<Meaning>) -> Option<usize>
    ensures { result ≡ set_number meaning }
{
    match meaning {
        Some(Meaning::Set { set }) => Some(set),
        _ => None,
    }
}

impl FromTree for Place {
    type Tree = Named;

    ghost TreeSeen = { NamedTree };

    ghost tree_seen = { view_named };

    ghost Seen = { PlaceSeen };

    ghost seen = { view_place };

    ghost meaning = { target };

    fn from_tree(resolver: &Resolver<'_>, tree: &Named) -> Result<Place, ResolveError> {
        resolver.resolve_target(tree)
    }
}

impl FromTree for InputTarget {
    type Tree = Named;

    ghost TreeSeen = { NamedTree };

    ghost tree_seen = { view_named };

    ghost Seen = { TargetSeen };

    ghost seen = { view_target };

    ghost meaning = { reader };

    fn from_tree(resolver: &Resolver<'_>, tree: &Named) -> Result<InputTarget, ResolveError> {
        let (meaning, entity) = resolver.resolve_place(tree.designator, &tree.subscripts)?;
        let place = place_of(meaning, entity)?;
        match mode_of(meaning) {
            Some(mode) => Ok(InputTarget { place, mode }),
            None => Err(unresolved(place)),
        }
    }
}

impl FromTree for Restart {
    type Tree = Named;

    ghost TreeSeen = { NamedTree };

    ghost tree_seen = { view_named };

    ghost Seen = { RestartSeen };

    ghost seen = { view_restart };

    ghost meaning = { restart };

    fn from_tree(resolver: &Resolver<'_>, tree: &Named) -> Result<Restart, ResolveError> {
        let Some(statistic) = resolver.scope.history_of(&tree.designator) else {
            return Err(ResolveError::Unresolved);
        };
        let (_, of) = resolver.resolve_place(tree.designator, &tree.subscripts)?;
        Ok(Restart { statistic, of })
    }
}

impl Resolver<'_> {
    /// A target.
    pub(crate) fn resolve_target(&self, tree: &Named) -> Result<Place, ResolveError>
        ensures { HasGiven view_place result (target (scope_in self.now) (view_named tree.now)) }
    {
        let (meaning, entity) = self.resolve_place(tree.designator, &tree.subscripts)?;
        place_of(meaning, entity)
    }

    /// What takes the number of a new entity: the target after CALLED, or else the variable of the class.
    pub(crate) fn resolve_new_place(
        &self,
        variable: Variable,
        called: &Option<Named>,
    ) -> Result<Place, ResolveError>
        ensures { HasGiven view_place result (new_place (scope_in self.now) variable (option_map view_named called.now)) }
    {
        match called {
            None => Ok(Place::ToVariable { variable }),
            Some(tree) => self.resolve_target(tree),
        }
    }

    /// The entity after CALLED, or else the one in the variable of the class.
    #[tactic(auto, unfolding(ss_program::specs::View::view_expression))]
    pub(crate) fn resolve_entity_called(
        &self,
        variable: Variable,
        called: &Option<Expression>,
    ) -> Result<Resolved, ResolveError>
        ensures { HasGiven view_resolved result (entity_called (scope_in self.now) variable (option_map view_expression_tree called.now)) }
    {
        match called {
            None => Ok(Resolved::Fetch { variable }),
            Some(tree) => self.resolve_expression(tree),
        }
    }

    // The number of the set of a name, which nothing hides.
    fn set_of_name(&self, place: &Designator) -> Option<usize>
        ensures { result ≡ set_of_name (scope_in self.now) place.now }
    {
        match place {
            Designator::Name(name) => set_number(self.scope.names.meaning(name)),
            Designator::TimeV => None,
            Designator::TimeA => None,
        }
    }

    /// The number of the set that is named, and its owner.
    pub(crate) fn resolve_set(&self, tree: &Named) -> Result<(usize, SetOwner), ResolveError>
        ensures { HasGiven (λ p. (p.0, view_owner p.1)) result (set_named (scope_in self.now) (view_named tree.now)) }
    {
        let Some(set) = self.set_of_name(&tree.designator) else {
            return Err(ResolveError::Unresolved);
        };
        let subscript = self.resolve_subscript(&tree.subscripts)?;
        let entity = self.entity_of(Meaning::Set { set }, subscript)?;
        Ok((set, set_owner(entity)))
    }

    /// Where a member is filed.
    pub(crate) fn resolve_position(&self, tree: &Position) -> Result<ResolvedPosition, ResolveError>
        ensures { HasGiven position_seen result (position (scope_in self.now) (view_position_tree tree.now)) }
    {
        match tree {
            Position::Discipline => Ok(ResolvedPosition::ByDiscipline),
            Position::First => Ok(ResolvedPosition::AsFirst),
            Position::Last => Ok(ResolvedPosition::AsLast),
            Position::Before(member) => {
                let member = self.resolve_expression(member)?;
                Ok(ResolvedPosition::BeforeMember { member })
            }
            Position::After(member) => {
                let member = self.resolve_expression(member)?;
                Ok(ResolvedPosition::AfterMember { member })
            }
        }
    }
}
