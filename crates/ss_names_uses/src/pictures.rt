//! The items of a PRINT and the fields of its pictures.

ghost use Rattle.std.specs.Prelude.{◌≡◌, ◌++◌, map, slice_get, IfOk};
ghost use Rattle.ss_picture.specs.Pictures.{picture_fields};
ghost use Rattle.ss_tree.specs.View.{view_expression_tree};
ghost use Rattle.ss_names_uses.specs.Uses.{as_mean, fields_of_pictures, in_field, in_field_at, in_item, in_item_at, in_items, in_places, of_decimals, of_fit};

use crate::expressions::{add, add_expression, add_named};
use crate::used::{Role, Use, Used};
use ss_base::{Line, PictureLine};
use ss_picture::{Field, Picture};
use ss_tree::expression::Expression;
use std::alloc::{AllocError, Global};

// Adds the fields of a picture.
fn add_fields(alloc: Global, into: &mut Vec<Field>, picture: &PictureLine) -> Result<(), AllocError>
    ensures { IfOk result (λ _. into.new.items ≡ into.old.items ++ picture_fields picture.now) }
{
    let picture = Picture::of(alloc, picture.bytes())?;
    into.extend_from_slice(picture.fields())
}

// The fields of some pictures, from the left, one picture after another.
fn fields_of(alloc: Global, pictures: &[PictureLine]) -> Result<Vec<Field>, AllocError>
    ensures { IfOk result (λ fields. fields.items ≡ fields_of_pictures pictures.now) }
{
    let mut fields = Vec::new(alloc);
    for picture in pictures {
        add_fields(alloc, &mut fields, picture)?;
    }
    Ok(fields)
}

// What an item is in a field with decimals: it has to be a MEAN.
#[tactic(auto, unfolding(ss_tree::specs::View::view_expression_tree))]
fn as_mean(item: &Expression) -> Used
    ensures { result ≡ as_mean (view_expression_tree item.now) }
{
    match item {
        Expression::Named(named) => Used::Mean {
            place: named.designator,
        },
        Expression::Parenthesised(inner) => as_mean(inner),
        Expression::Number(_)
        | Expression::Text(_)
        | Expression::Call { .. }
        | Expression::Product { .. }
        | Expression::Signed { .. }
        | Expression::Sum { .. } => Used::Unfit,
    }
}

// What an item is in a field of so many decimals, which may be at most 9.
fn of_decimals(item: &Expression, decimals: usize) -> Used
    ensures { result ≡ of_decimals (view_expression_tree item.now) decimals }
{
    if decimals <= 9 {
        as_mean(item)
    } else {
        Used::Unfit
    }
}

// Adds the use of an item in its field, if that has decimals.
fn add_field(
    into: &mut Vec<Use>,
    line: Line,
    item: &Expression,
    field: Field,
) -> Result<(), AllocError>
    ensures { IfOk result (λ _. into.new.items ≡ into.old.items ++ in_field line (view_expression_tree item.now) field) }
{
    if field.decimals == 0 {
        return Ok(());
    }
    add(into, line, of_decimals(item, field.decimals))
}

// The field in a place, if there is one.
fn field_at(fields: &[Field], place: usize) -> Option<Field>
    ensures { result ≡ slice_get fields.now place }
{
    fields.get(place).copied()
}

// Adds the use of an item in the field in the same place, if there is one.
fn add_field_at(
    into: &mut Vec<Use>,
    line: Line,
    fields: &[Field],
    place: usize,
    item: &Expression,
) -> Result<(), AllocError>
    ensures { IfOk result (λ _. into.new.items ≡ into.old.items ++ in_field_at line fields.now place (view_expression_tree item.now)) }
{
    match field_at(fields, place) {
        Some(field) => add_field(into, line, item, field),
        None => Ok(()),
    }
}

// Adds the uses of an item: a place named alone, in any parentheses, may be a MEAN.
#[tactic(auto, unfolding(ss_tree::specs::View::view_expression_tree), using(crate::proofs::Rows::item_named))]
fn add_item(into: &mut Vec<Use>, line: Line, item: &Expression) -> Result<(), AllocError>
    ensures { IfOk result (λ _. into.new.items ≡ into.old.items ++ in_item line (view_expression_tree item.now)) }
{
    match item {
        Expression::Named(named) => add_named(into, line, Role::Item, false, named),
        Expression::Parenthesised(inner) => add_item(into, line, inner),
        Expression::Number(_)
        | Expression::Text(_)
        | Expression::Call { .. }
        | Expression::Product { .. }
        | Expression::Signed { .. }
        | Expression::Sum { .. } => add_expression(into, line, false, item),
    }
}

// Adds the uses of an item and of its field.
fn add_item_at(
    into: &mut Vec<Use>,
    line: Line,
    fields: &[Field],
    place: usize,
    item: &Expression,
) -> Result<(), AllocError>
    ensures { IfOk result (λ _. into.new.items ≡ into.old.items ++ in_item_at line fields.now place (view_expression_tree item.now)) }
{
    add_field_at(into, line, fields, place, item)?;
    add_item(into, line, item)
}

// Adds the uses of items, each with the field in its place.
#[tactic(auto, using(crate::proofs::Rows::places_more, std::proofs::lemmas::Grind::common_steps))]
fn add_placed_items(
    into: &mut Vec<Use>,
    line: Line,
    fields: &[Field],
    items: &[Expression],
) -> Result<(), AllocError>
    ensures { IfOk result (λ _. into.new.items ≡ into.old.items ++ in_places (in_item_at line fields.now) 0 (map view_expression_tree items.now)) }
{
    for (place, item) in items.iter().enumerate() {
        add_item_at(into, line, fields, place, item)?;
    }
    Ok(())
}

// Adds the use of fields that don't fit their items, if they don't.
fn add_fit(into: &mut Vec<Use>, line: Line, fits: bool) -> Result<(), AllocError>
    ensures { IfOk result (λ _. into.new.items ≡ into.old.items ++ of_fit line fits) }
{
    if fits {
        Ok(())
    } else {
        add(into, line, Used::Unfit)
    }
}

// Adds the uses of items with fields.
fn add_items(
    into: &mut Vec<Use>,
    line: Line,
    items: &[Expression],
    fields: &[Field],
) -> Result<(), AllocError>
    ensures { IfOk result (λ _. into.new.items ≡ into.old.items ++ in_items line (map view_expression_tree items.now) fields.now) }
{
    let fits = items.len() == fields.len();
    add_fit(into, line, fits)?;
    add_placed_items(into, line, fields, items)
}

// Adds the uses of a PRINT.
pub(crate) fn add_print(
    alloc: Global,
    into: &mut Vec<Use>,
    line: Line,
    items: &[Expression],
    pictures: &[PictureLine],
) -> Result<(), AllocError>
    ensures { IfOk result (λ _. into.new.items ≡ into.old.items ++ in_items line (map view_expression_tree items.now) (fields_of_pictures pictures.now)) }
{
    let fields = fields_of(alloc, pictures)?;
    add_items(into, line, items, &fields)
}
