//! Items of PRINT with their names resolved.

ghost use Rattle.std.specs.Prelude.{map, option_map};
ghost use Rattle.ss_tree.specs.Tree.{ExpressionTree, expression_row, named};
ghost use Rattle.ss_tree.specs.View.{view_expression_tree};
ghost use Rattle.ss_program.specs.Program.{AValue, PrintItem as ItemSeen};
ghost use Rattle.ss_program.specs.View.{view_expression as view_resolved, view_item};
ghost use Rattle.std.specs.Option.{option_map};
ghost use Rattle.ss_names_meaning.specs.Answers.{HasGiven, each};
ghost use Rattle.ss_names_meaning.specs.Expressions.{expression, item, resolved_item, resolved_value};
ghost use Rattle.ss_check_bodies.specs.Results.{scope_in};

use crate::expressions::resolved_value;
use crate::lists::FromTree;
use crate::resolver::Resolver;
use ss_names::Meaning;
use ss_names_meaning::ResolveError;
use ss_program::expression::Expression as Resolved;
use ss_program::statement::PrintItem;
use ss_tree::expression::{Designator, Expression};
use std::alloc::Global;

// An item that is a value.
fn value_item(
    alloc: Global,
    meaning: Meaning,
    entity: Option<Resolved>,
) -> Result<PrintItem, ResolveError>
    ensures { HasGiven view_item result (option_map AValue (resolved_value meaning (option_map view_resolved entity))) }
{
    let value = resolved_value(alloc, meaning, entity)?;
    Ok(PrintItem::Value { value })
}

// What PRINT shows of what a name means, of the entity that has it.
fn resolved_item(
    alloc: Global,
    meaning: Meaning,
    entity: Option<Resolved>,
) -> Result<PrintItem, ResolveError>
    ensures { HasGiven view_item result (resolved_item meaning (option_map view_resolved entity)) }
{
    match meaning {
        Meaning::Statistic { fold, statistic } => match fold {
            Some(_) => value_item(alloc, meaning, entity),
            None => match entity {
                Some(entity) => Ok(PrintItem::MeanOf { statistic, entity }),
                None => Ok(PrintItem::Mean { statistic }),
            },
        },
        _ => value_item(alloc, meaning, entity),
    }
}

impl FromTree for PrintItem {
    type Tree = Expression;

    ghost TreeSeen = { ExpressionTree };

    ghost tree_seen = { view_expression_tree };

    ghost Seen = { ItemSeen };

    ghost seen = { view_item };

    ghost meaning = { item };

    fn from_tree(resolver: &Resolver<'_>, tree: &Expression) -> Result<PrintItem, ResolveError> {
        resolver.resolve_item(tree)
    }
}

impl Resolver<'_> {
    // What is named, with its subscripts.
    fn resolve_named_item(
        &self,
        designator: Designator,
        subscripts: &[Expression],
    ) -> Result<PrintItem, ResolveError>
        ensures { HasGiven view_item result (item (scope_in self.now) (named designator (expression_row (map view_expression_tree subscripts.now)))) }
    {
        let (meaning, entity) = self.resolve_place(designator, subscripts)?;
        resolved_item(self.alloc, meaning, entity)
    }

    // A value.
    fn resolve_value_item(&self, tree: &Expression) -> Result<PrintItem, ResolveError>
        ensures { HasGiven view_item result (option_map AValue (expression (scope_in self.now) (view_expression_tree tree.now))) }
    {
        let value = self.resolve_expression(tree)?;
        Ok(PrintItem::Value { value })
    }

    // An item: a mean where that is named alone, through any parentheses, and else a value.
    #[tactic(auto, unfolding(ss_tree::specs::View::view_expression_tree), using(ss_tree::specs::Views::view_named_made))]
    fn resolve_item(&self, tree: &Expression) -> Result<PrintItem, ResolveError>
        ensures { HasGiven view_item result (item (scope_in self.now) (view_expression_tree tree.now)) }
    {
        match tree {
            Expression::Named(named) => {
                self.resolve_named_item(named.designator, &named.subscripts)
            }
            Expression::Parenthesised(inner) => self.resolve_item(inner),
            Expression::Number(_)
            | Expression::Text(_)
            | Expression::Call { .. }
            | Expression::Product { .. }
            | Expression::Signed { .. }
            | Expression::Sum { .. } => self.resolve_value_item(tree),
        }
    }

    /// The items of a PRINT.
    pub(crate) fn resolve_items(&self, trees: &[Expression]) -> Result<Vec<PrintItem>, ResolveError>
        ensures { HasGiven (λ v. map view_item v.items) result (each (item (scope_in self.now)) (map view_expression_tree trees.now)) }
    {
        self.resolve_each(trees)
    }
}
