//! Expressions with their names resolved.

ghost use Rattle.std.specs.Prelude.{◌≡◌, map, Some};
ghost use Rattle.ss_tree.specs.View.{view_expression_tree, view_term};
ghost use Rattle.ss_tree.specs.Tree.{ExpressionTree, call, expression_row, named};
ghost use Rattle.ss_program.specs.Program.{Calculate, Expression as ExpressionSeen};
ghost use Rattle.ss_program.specs.View.{view_expression as view_resolved};
ghost use Rattle.std.specs.Option.{option_map};
ghost use Rattle.ss_names_meaning.specs.Answers.{HasGiven, each};
ghost use Rattle.ss_names_meaning.specs.Expressions.{entity_implied, entity_of, expression, entity_or_implied, of_owner, one, place_named, resolved_operator, resolved_value, subscript, two, value_alone, value_of_entity, meaning_with_entity};
ghost use Rattle.ss_check_bodies.specs.Results.{factor, further_term, operation, operation_seen, scope_in};

use crate::lists::FromTree;
use crate::resolver::Resolver;
use crate::results::unresolved;
use ss_base::{Owner, Sign, Value};
use ss_names::Meaning;
use ss_names_meaning::ResolveError;
use ss_names_scopes::variable_of;
use ss_program::expression::{Expression as Resolved, Operation, Operator, Variable};
use ss_tree::expression::{Designator, Expression, Function, Term};
use std::alloc::Global;

// The value of what an entity has.
#[tactic(auto, unfolding(ss_program::specs::View::view_expression))]
fn value_of_entity(
    alloc: Global,
    meaning: Meaning,
    entity: Resolved,
) -> Result<Resolved, ResolveError>
    ensures { HasGiven view_resolved result (value_of_entity meaning (view_resolved entity)) }
{
    let of = Box::new(alloc, entity)?;
    match meaning {
        Meaning::Attribute { class, field, .. } => Ok(Resolved::Attribute { class, field, of }),
        Meaning::OfSet { query, set } => Ok(Resolved::OfSet {
            query,
            set,
            owner: of,
        }),
        Meaning::OfMember { query, set } => Ok(Resolved::OfMember {
            query,
            set,
            member: of,
        }),
        Meaning::Statistic { fold, statistic } => match fold {
            Some(fold) => Ok(Resolved::FigureOf {
                fold,
                statistic,
                entity: of,
            }),
            None => Err(unresolved(of)),
        },
        Meaning::NoticeTime => Ok(Resolved::TimeOf { notice: of }),
        _ => Err(unresolved(of)),
    }
}

// The value of what there is one of.
#[tactic(auto, unfolding(ss_program::specs::View::view_expression))]
fn value_alone(meaning: Meaning) -> Result<Resolved, ResolveError>
    ensures { HasGiven view_resolved result (value_alone meaning) }
{
    match meaning {
        Meaning::Variable { variable, .. } => Ok(Resolved::Fetch { variable }),
        Meaning::Class { variable, .. } => Ok(Resolved::Fetch {
            variable: Variable::Global { number: variable },
        }),
        Meaning::Count { count } => Ok(Resolved::Fetch {
            variable: Variable::Global {
                number: count.variable,
            },
        }),
        Meaning::OfSet { query, set } => Ok(Resolved::OfSystemSet { query, set }),
        Meaning::Statistic { fold, statistic } => match fold {
            Some(fold) => Ok(Resolved::Figure { fold, statistic }),
            None => Err(ResolveError::Unresolved),
        },
        Meaning::Clock => Ok(Resolved::Clock),
        _ => Err(ResolveError::Unresolved),
    }
}

/// The value of what a name means, of the entity that has it; a mean is no value.
pub(crate) fn resolved_value(
    alloc: Global,
    meaning: Meaning,
    entity: Option<Resolved>,
) -> Result<Resolved, ResolveError>
    ensures { HasGiven view_resolved result (resolved_value meaning (option_map view_resolved entity)) }
{
    match entity {
        Some(entity) => value_of_entity(alloc, meaning, entity),
        None => value_alone(meaning),
    }
}

// What joins a further term to a sum.
fn resolved_operator(sign: Sign) -> Operator
    ensures { result ≡ resolved_operator sign }
{
    match sign {
        Sign::Plus => Operator::Add,
        Sign::Minus => Operator::Subtract,
    }
}

// An operation on two numbers.
#[tactic(auto, using(ss_program::specs::Views::view_calculate_made))]
fn calculate(
    alloc: Global,
    first: Box<Resolved>,
    operator: Operator,
    right: Resolved,
) -> Result<Resolved, ResolveError>
    ensures { HasGiven view_resolved result (Some (Calculate operator (view_resolved first.value) (view_resolved right))) }
{
    let mut further = Vec::new(alloc);
    further.push(Operation {
        operator,
        operand: right,
    })?;
    Ok(Resolved::Calculate { first, further })
}

impl FromTree for Resolved {
    type Tree = Expression;

    ghost TreeSeen = { ExpressionTree };

    ghost tree_seen = { view_expression_tree };

    ghost Seen = { ExpressionSeen };

    ghost seen = { view_resolved };

    ghost meaning = { expression };

    fn from_tree(resolver: &Resolver<'_>, tree: &Expression) -> Result<Resolved, ResolveError> {
        resolver.resolve_expression(tree)
    }
}

impl Resolver<'_> {
    // ---- what is named

    // The entity in the variable of a class.
    #[tactic(auto, unfolding(ss_program::specs::View::view_expression))]
    fn entity_implied(&self, class: usize) -> Result<Resolved, ResolveError>
        ensures { HasGiven view_resolved result (entity_implied (scope_in self.now) class) }
    {
        let Some(meaning) = self.scope.meaning_of_class(class) else {
            return Err(ResolveError::Unresolved);
        };
        match variable_of(meaning) {
            Some(variable) => Ok(Resolved::Fetch { variable }),
            None => Err(ResolveError::Unresolved),
        }
    }

    // Of each entity of a class: the one in the subscript, or else the one in the variable of the class.
    fn of_class(
        &self,
        class: usize,
        subscript: Option<Resolved>,
    ) -> Result<Option<Resolved>, ResolveError>
        ensures { HasGiven (option_map view_resolved) result (entity_or_implied (scope_in self.now) class (option_map view_resolved subscript)) }
    {
        match subscript {
            Some(entity) => Ok(Some(entity)),
            None => {
                let entity = self.entity_implied(class)?;
                Ok(Some(entity))
            }
        }
    }

    // The entity by its owner: THE SYSTEM takes no subscript.
    fn of_owner(
        &self,
        owner: Owner,
        subscript: Option<Resolved>,
    ) -> Result<Option<Resolved>, ResolveError>
        ensures { HasGiven (option_map view_resolved) result (of_owner (scope_in self.now) owner (option_map view_resolved subscript)) }
    {
        match owner {
            Owner::Class(class) => self.of_class(class, subscript),
            Owner::System => match subscript {
                Some(entity) => Err(unresolved(entity)),
                None => Ok(None),
            },
        }
    }

    /// The entity that has what a name means: that of the subscript, or else the one in the variable of its class. None for what no
    /// entity has, which takes no subscript.
    pub(crate) fn entity_of(
        &self,
        meaning: Meaning,
        subscript: Option<Resolved>,
    ) -> Result<Option<Resolved>, ResolveError>
        ensures { HasGiven (option_map view_resolved) result (entity_of (scope_in self.now) meaning (option_map view_resolved subscript)) }
    {
        match meaning {
            Meaning::NoticeTime => Ok(subscript),
            _ => self.of_owner(self.scope.names.owner_of(meaning), subscript),
        }
    }

    // What is named, and the entity that has it, by the subscript.
    fn with_entity(
        &self,
        place: Designator,
        subscript: Option<Resolved>,
    ) -> Result<(Meaning, Option<Resolved>), ResolveError>
        ensures { HasGiven (λ p. (p.0, option_map view_resolved p.1)) result (meaning_with_entity (scope_in self.now) place (option_map view_resolved subscript)) }
    {
        match self.scope.meaning(place) {
            Some(meaning) => {
                let entity = self.entity_of(meaning, subscript)?;
                Ok((meaning, entity))
            }
            None => Err(unresolved(subscript)),
        }
    }

    /// What is named, with its subscripts, and the entity that has it.
    pub(crate) fn resolve_place(
        &self,
        place: Designator,
        subscripts: &[Expression],
    ) -> Result<(Meaning, Option<Resolved>), ResolveError>
        ensures { HasGiven (λ p. (p.0, option_map view_resolved p.1)) result (place_named (scope_in self.now) place (expression_row (map view_expression_tree subscripts.now))) }
    {
        let subscript = self.resolve_subscript(subscripts)?;
        self.with_entity(place, subscript)
    }

    // ---- expressions

    // The expression with its names resolved.
    #[cycle(resolving)]
    #[tactic(auto, unfolding(ss_tree::specs::View::view_expression_tree, ss_program::specs::View::view_expression, ss_names_meaning::specs::Expressions::expression), using(ss_tree::specs::Views::view_named_made))]
    pub(crate) fn resolve_expression(&self, tree: &Expression) -> Result<Resolved, ResolveError>
        ensures { HasGiven view_resolved result (expression (scope_in self.now) (view_expression_tree tree.now)) }
    {
        match tree {
            Expression::Number(number) => Ok(Resolved::Constant {
                value: Value::Whole(*number),
            }),
            Expression::Text(text) => Ok(Resolved::Constant {
                value: Value::Text(*text),
            }),
            Expression::Named(named) => { self.resolve_named(named.designator, &named.subscripts) }
            Expression::Call {
                function,
                arguments,
            } => self.resolve_call(*function, arguments),
            Expression::Parenthesised(inner) => self.resolve_expression(inner),
            Expression::Product { first, further } => {
                let first = self.resolve_expression(first)?;
                let first = Box::new(self.alloc, first)?;
                let further = self.resolve_factors(further)?;
                Ok(Resolved::Calculate { first, further })
            }
            Expression::Signed { sign, term } => {
                let term = self.resolve_expression(term)?;
                let term = Box::new(self.alloc, term)?;
                Ok(Resolved::Signed { sign: *sign, term })
            }
            Expression::Sum { first, further } => {
                let first = self.resolve_expression(first)?;
                let first = Box::new(self.alloc, first)?;
                let further = self.resolve_terms(further)?;
                Ok(Resolved::Calculate { first, further })
            }
        }
    }

    // What is named, with its subscripts.
    #[cycle(resolving)]
    #[tactic(auto, unfolding(ss_names_meaning::specs::Expressions::expression))]
    fn resolve_named(
        &self,
        designator: Designator,
        subscripts: &[Expression],
    ) -> Result<Resolved, ResolveError>
        ensures { HasGiven view_resolved result (expression (scope_in self.now) (named designator (expression_row (map view_expression_tree subscripts.now)))) }
    {
        let subscript = self.resolve_subscript(subscripts)?;
        let (meaning, entity) = self.with_entity(designator, subscript)?;
        resolved_value(self.alloc, meaning, entity)
    }

    // The subscript, if there is one.
    #[cycle(resolving)]
    #[tactic(auto, unfolding(ss_names_meaning::specs::Expressions::subscript))]
    pub(crate) fn resolve_subscript(
        &self,
        subscripts: &[Expression],
    ) -> Result<Option<Resolved>, ResolveError>
        ensures { HasGiven (option_map view_resolved) result (subscript (scope_in self.now) (expression_row (map view_expression_tree subscripts.now))) }
    {
        match subscripts {
            [] => Ok(None),
            [only] => {
                let entity = self.resolve_expression(only)?;
                Ok(Some(entity))
            }
            [_, _, ..] => Err(ResolveError::Unresolved),
        }
    }

    // A function with its arguments.
    #[cycle(resolving)]
    #[tactic(auto, unfolding(ss_names_meaning::specs::Expressions::expression, ss_program::specs::View::view_expression))]
    fn resolve_call(
        &self,
        function: Function,
        arguments: &[Expression],
    ) -> Result<Resolved, ResolveError>
        ensures { HasGiven view_resolved result (expression (scope_in self.now) (call function (expression_row (map view_expression_tree arguments.now)))) }
    {
        match function {
            Function::One(operator) => {
                let argument = self.resolve_one(arguments)?;
                let argument = Box::new(self.alloc, argument)?;
                Ok(Resolved::Unary { operator, argument })
            }
            Function::Two(operator) => self.resolve_operation(operator, arguments),
        }
    }

    // A function of two numbers, by what it makes of them.
    #[cycle(resolving)]
    fn resolve_operation(
        &self,
        operator: Operator,
        arguments: &[Expression],
    ) -> Result<Resolved, ResolveError>
        ensures { HasGiven view_resolved result (operation (scope_in self.now) operator (expression_row (map view_expression_tree arguments.now))) }
    {
        let (left, right) = self.resolve_two(arguments)?;
        calculate(self.alloc, left, operator, right)
    }

    // One argument.
    #[cycle(resolving)]
    #[tactic(auto, unfolding(ss_names_meaning::specs::Expressions::one))]
    fn resolve_one(&self, arguments: &[Expression]) -> Result<Resolved, ResolveError>
        ensures { HasGiven view_resolved result (one (scope_in self.now) (expression_row (map view_expression_tree arguments.now))) }
    {
        match arguments {
            [only] => self.resolve_expression(only),
            [] => Err(ResolveError::Unresolved),
            [_, _, ..] => Err(ResolveError::Unresolved),
        }
    }

    // Two arguments, the left one in a box.
    #[cycle(resolving)]
    #[tactic(auto, unfolding(ss_names_meaning::specs::Expressions::two))]
    fn resolve_two(
        &self,
        arguments: &[Expression],
    ) -> Result<(Box<Resolved>, Resolved), ResolveError>
        ensures { HasGiven (λ p. (view_resolved p.0.value, view_resolved p.1)) result (two (scope_in self.now) (expression_row (map view_expression_tree arguments.now))) }
    {
        match arguments {
            [left, right] => {
                let left = self.resolve_expression(left)?;
                let left = Box::new(self.alloc, left)?;
                let right = self.resolve_expression(right)?;
                Ok((left, right))
            }
            [] => Err(ResolveError::Unresolved),
            [_] => Err(ResolveError::Unresolved),
            [_, _, _, ..] => Err(ResolveError::Unresolved),
        }
    }

    // The further factors of a product.
    #[cycle(resolving)]
    fn resolve_factors(&self, trees: &[Expression]) -> Result<Vec<Operation>, ResolveError>
        ensures { HasGiven (λ v. map operation_seen v.items) result (each (factor (scope_in self.now)) (map view_expression_tree trees.now)) }
    {
        let mut operations = Vec::new(self.alloc);
        for tree in trees {
            let operand = self.resolve_expression(tree)?;
            operations.push(Operation {
                operator: Operator::Multiply,
                operand,
            })?;
        }
        Ok(operations)
    }

    // The further terms of a sum.
    #[cycle(resolving)]
    fn resolve_terms(&self, trees: &[Term]) -> Result<Vec<Operation>, ResolveError>
        ensures { HasGiven (λ v. map operation_seen v.items) result (each (further_term (scope_in self.now)) (map view_term trees.now)) }
    {
        let mut operations = Vec::new(self.alloc);
        for tree in trees {
            let operand = self.resolve_expression(&tree.value)?;
            operations.push(Operation {
                operator: resolved_operator(tree.sign),
                operand,
            })?;
        }
        Ok(operations)
    }

    /// Expressions.
    pub(crate) fn resolve_all(&self, trees: &[Expression]) -> Result<Vec<Resolved>, ResolveError>
        ensures { HasGiven (λ v. map view_resolved v.items) result (each (expression (scope_in self.now)) (map view_expression_tree trees.now)) }
    {
        self.resolve_each(trees)
    }
}
