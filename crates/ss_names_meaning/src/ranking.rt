//! The disciplines of sets, and the keys that break the ties of notices.

ghost use Rattle.std.specs.Prelude.{◌==◌};
ghost use Rattle.std.specs.List.{filter};
ghost use Rattle.ss_names_declarations.specs.NameTable.{same_name};
ghost use Rattle.ss_names_meaning.specs.Answers.{HasGiven, each};
ghost use Rattle.ss_names_meaning.specs.Layouts.{discipline, disciplines, rank_key, ordered, rank_keys, ranked_by, tie_keys, tied_by};

use crate::error::ResolveError;
use crate::layouts::attribute_named;
use ss_base::{Discipline, Name, RankKey, RankKeys};
use ss_names::{DefinedOrder, Names, RankedBy, Set, TiedBy};
use ss_names_declarations::SetRule;
use std::alloc::Global;

// An attribute of a class as a key.
fn key_of(names: &Names, class: usize, high: bool, name: &Name) -> Result<RankKey, ResolveError>
    ensures { HasGiven (λ x. x) result (rank_key names.now class high name.now) }
{
    let Some(known) = attribute_named(names, name) else {
        return Err(ResolveError::Unresolved);
    };
    if known.class == class {
        Ok(RankKey {
            field: known.field,
            high,
        })
    } else {
        Err(ResolveError::Unresolved)
    }
}

// A key of a ranked set, by the class of its members.
fn ranked_by(names: &Names, class: usize, key: &RankedBy) -> Result<RankKey, ResolveError>
    ensures { HasGiven (λ x. x) result (ranked_by names.now class key.now) }
{
    key_of(names, class, key.high, &key.attribute)
}

// A key that breaks the ties of a class.
fn tied_by(names: &Names, class: usize, tie: &TiedBy) -> Result<RankKey, ResolveError>
    ensures { HasGiven (λ x. x) result (tied_by names.now class tie.now) }
{
    key_of(names, class, tie.high, &tie.attribute)
}

// The keys among these of a DEFINE, by its number, for a class of members.
fn rank_keys_among(
    alloc: Global,
    names: &Names,
    class: usize,
    statement: usize,
    keys: &[RankedBy],
) -> Result<Vec<RankKey>, ResolveError>
    ensures { HasGiven (λ v. v.items) result (each (ranked_by names.now class) (filter (λ k. k.statement == statement) keys.now)) }
{
    let mut resolved = Vec::new(alloc);
    for key in keys {
        if key.statement == statement {
            let one = ranked_by(names, class, key)?;
            resolved.push(one)?;
        }
    }
    Ok(resolved)
}

// The keys of a DEFINE, by its number, for a class of members.
fn rank_keys(
    alloc: Global,
    names: &Names,
    class: usize,
    statement: usize,
) -> Result<Vec<RankKey>, ResolveError>
    ensures { HasGiven (λ v. v.items) result (rank_keys names.now class statement) }
{
    rank_keys_among(alloc, names, class, statement, &names.rank_keys)
}

// The keys among these that break the ties of a class, by its number and its name.
fn ties_among(
    alloc: Global,
    names: &Names,
    class: usize,
    name: Name,
    keys: &[TiedBy],
) -> Result<Vec<RankKey>, ResolveError>
    ensures { HasGiven (λ v. v.items) result (each (tied_by names.now class) (filter (λ k. same_name k.class name) keys.now)) }
{
    let mut resolved = Vec::new(alloc);
    for tie in keys {
        if tie.class == name {
            let one = tied_by(names, class, tie)?;
            resolved.push(one)?;
        }
    }
    Ok(resolved)
}

/// The keys that break the ties of a class, by its number and its name.
pub fn resolve_ties(
    alloc: Global,
    names: &Names,
    class: usize,
    name: Name,
) -> Result<Vec<RankKey>, ResolveError>
    ensures { HasGiven (λ v. v.items) result (tie_keys names.now class name) }
{
    ties_among(alloc, names, class, name, &names.tie_keys)
}

// The discipline of a set, by its DEFINE and by the class of its members, if it has one. It is FIFO without a DEFINE.
fn ordered(
    alloc: Global,
    names: &Names,
    member: Option<usize>,
    order: Option<DefinedOrder>,
) -> Result<Discipline, ResolveError>
    ensures { HasGiven (λ x. x) result (ordered names.now member order) }
{
    let Some(order) = order else {
        return Ok(Discipline::Fifo);
    };
    match order.rule {
        SetRule::Fifo => Ok(Discipline::Fifo),
        SetRule::Lifo => Ok(Discipline::Lifo),
        SetRule::Ranked => match member {
            Some(class) => {
                let keys = rank_keys(alloc, names, class, order.statement)?;
                Ok(Discipline::Ranked(RankKeys::new(keys)))
            }
            None => Err(ResolveError::Unresolved),
        },
    }
}

// The discipline of a set.
fn discipline(alloc: Global, names: &Names, set: &Set) -> Result<Discipline, ResolveError>
    ensures { HasGiven (λ x. x) result (discipline names.now set.now) }
{
    ordered(alloc, names, set.member, set.order)
}

// The disciplines of sets.
fn disciplines_of(
    alloc: Global,
    names: &Names,
    trees: &[Set],
) -> Result<Vec<Discipline>, ResolveError>
    ensures { HasGiven (λ v. v.items) result (each (discipline names.now) trees.now) }
{
    let mut resolved = Vec::new(alloc);
    for tree in trees {
        let one = discipline(alloc, names, tree)?;
        resolved.push(one)?;
    }
    Ok(resolved)
}

/// The disciplines of the sets.
pub(crate) fn resolve_disciplines(
    alloc: Global,
    names: &Names,
) -> Result<Vec<Discipline>, ResolveError>
    ensures { HasGiven (λ v. v.items) result (disciplines names.now) }
{
    disciplines_of(alloc, names, &names.sets)
}
