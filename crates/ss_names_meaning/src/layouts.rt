//! Classes and sets.

ghost use Rattle.std.specs.Prelude.{◌≡◌, IfOk};
ghost use Rattle.ss_names_declarations.specs.NameTable.{value_for};
ghost use Rattle.ss_names_meaning.specs.Answers.{HasGiven, each, upto};
ghost use Rattle.ss_names.specs.Table.{mode_of_attribute};
ghost use Rattle.ss_names_meaning.specs.Layouts.{class_layout, layout, set_layout};

use crate::error::ResolveError;
use ss_base::{ClassLayout, Layout, Mode, Name, SetLayout};
use ss_names::{Attribute, Names, Set};
use ss_names_declarations::value_at;
use std::alloc::{AllocError, Global};

/// An attribute by its name.
pub(crate) fn attribute_named(names: &Names, name: &Name) -> Option<Attribute>
    ensures { result ≡ value_for names.now.attributes name.now }
{
    names.attributes.get(name).copied()
}

// The mode of an attribute.
fn field_mode(names: &Names, name: &Name) -> Result<Mode, ResolveError>
    ensures { HasGiven (λ x. x) result (mode_of_attribute names.now name.now) }
{
    match attribute_named(names, name) {
        Some(attribute) => Ok(attribute.mode),
        None => Err(ResolveError::Unresolved),
    }
}

// The modes of attributes.
fn field_modes(alloc: Global, names: &Names, trees: &[Name]) -> Result<Vec<Mode>, ResolveError>
    ensures { HasGiven (λ v. v.items) result (each (mode_of_attribute names.now) trees.now) }
{
    let mut resolved = Vec::new(alloc);
    for tree in trees {
        let one = field_mode(names, tree)?;
        resolved.push(one)?;
    }
    Ok(resolved)
}

// The class of this number.
fn class_layout(alloc: Global, names: &Names, number: usize) -> Result<ClassLayout, ResolveError>
    ensures { HasGiven (λ x. x) result (class_layout names.now number) }
{
    let Some(kind) = value_at(&names.classes, number) else {
        return Err(ResolveError::Unresolved);
    };
    let fields = field_modes(alloc, names, names.attributes_of(number))?;
    Ok(ClassLayout { kind, fields })
}

// So many classes.
fn classes_laid(
    alloc: Global,
    names: &Names,
    count: usize,
) -> Result<Vec<ClassLayout>, ResolveError>
    ensures { HasGiven (λ v. v.items) result (each (class_layout names.now) (upto count)) }
{
    let mut resolved = Vec::new(alloc);
    for number in 0..count {
        let one = class_layout(alloc, names, number)?;
        resolved.push(one)?;
    }
    Ok(resolved)
}

// A set.
fn set_layout(set: &Set) -> Result<SetLayout, ResolveError>
    ensures { HasGiven (λ x. x) result (set_layout set.now) }
{
    let Some(owner) = set.owner else {
        return Err(ResolveError::Unresolved);
    };
    let Some(member) = set.member else {
        return Err(ResolveError::Unresolved);
    };
    Ok(SetLayout { owner, member })
}

// Sets.
fn sets_laid(alloc: Global, trees: &[Set]) -> Result<Vec<SetLayout>, ResolveError>
    ensures { HasGiven (λ v. v.items) result (each set_layout trees.now) }
{
    let mut resolved = Vec::new(alloc);
    for tree in trees {
        let one = set_layout(tree)?;
        resolved.push(one)?;
    }
    Ok(resolved)
}

/// The classes and the sets.
pub(crate) fn resolve_layout(alloc: Global, names: &Names) -> Result<Layout, ResolveError>
    ensures { HasGiven (λ x. x) result (layout names.now) }
{
    let classes = classes_laid(alloc, names, names.classes.len())?;
    let sets = sets_laid(alloc, &names.sets)?;
    Layout::new(classes, sets).ok_or(ResolveError::Unresolved)
}

/// The classes and the sets, by their numbers. None if a set has no owner or no class of members. None if they are too many
/// for a layout.
///
/// # Errors
/// `AllocError` where memory is refused.
pub fn layout(alloc: Global, names: &Names) -> Result<Option<Layout>, AllocError>
    ensures { IfOk result (λ l. l ≡ layout names.now) }
{
    match resolve_layout(alloc, names) {
        Ok(layout) => Ok(Some(layout)),
        Err(ResolveError::Unresolved) => Ok(None),
        Err(ResolveError::Memory) => Err(AllocError),
    }
}
