//! N. of permanent classes, and statistics.

ghost use Rattle.std.specs.Prelude.{◌≡◌, ◌++◌, slice_get, IfOk, OnOk};
ghost use Rattle.std.specs.List.{flat_map};
ghost use Rattle.std.specs.Map.{values_of};
ghost use Rattle.ss_names_meaning.specs.Answers.{HasGiven, each, upto};
ghost use Rattle.ss_names_meaning.specs.Layouts.{count_by, counts, resolved_statistic, statistics};

use crate::error::ResolveError;
use ss_base::Weighting;
use ss_names::{Meaning, Names};
use ss_program::sections::{Statistic, Subject};
use ss_program::statement::CountedClass;
use std::alloc::{AllocError, Global};

// Adds the permanent class whose N. this is, if it is one.
fn add_count(counted: &mut Vec<CountedClass>, meaning: &Meaning) -> Result<(), AllocError>
    ensures { OnOk result (counted.new.items ≡ counted.old.items ++ count_by meaning.now) }
{
    match meaning {
        Meaning::Count { count } => {
            counted.push(*count)?;
            Ok(())
        }
        _ => Ok(()),
    }
}

// The permanent classes whose N. is among these.
fn counts_among(alloc: Global, meanings: &[Meaning]) -> Result<Vec<CountedClass>, AllocError>
    ensures { IfOk result (λ v. v.items ≡ flat_map count_by meanings.now) }
{
    let mut counted = Vec::new(alloc);
    for meaning in meanings {
        add_count(&mut counted, meaning)?;
    }
    Ok(counted)
}

/// N. of each permanent class, in the order of the text.
pub(crate) fn resolve_counts(alloc: Global, names: &Names) -> Result<Vec<CountedClass>, AllocError>
    ensures { IfOk result (λ v. v.items ≡ counts names.now) }
{
    counts_among(alloc, names.meanings.values())
}

// How the history of this number is weighted.
fn weighting_at(names: &Names, number: usize) -> Option<Weighting>
    ensures { result ≡ slice_get (values_of names.now.histories) number }
{
    names.histories.values().get(number).copied()
}

// What the history of this number is of.
fn subject_at(names: &Names, number: usize) -> Option<Option<Subject>>
    ensures { result ≡ slice_get names.now.subjects number }
{
    names.subjects.get(number).copied()
}

// The statistic of the history of this number.
fn resolved_statistic(names: &Names, number: usize) -> Result<Statistic, ResolveError>
    ensures { HasGiven (λ x. x) result (resolved_statistic names.now number) }
{
    let Some(weighting) = weighting_at(names, number) else {
        return Err(ResolveError::Unresolved);
    };
    let Some(known) = subject_at(names, number) else {
        return Err(ResolveError::Unresolved);
    };
    let Some(subject) = known else {
        return Err(ResolveError::Unresolved);
    };
    Ok(Statistic { subject, weighting })
}

// The statistics of so many histories.
fn statistics_upto(
    alloc: Global,
    names: &Names,
    count: usize,
) -> Result<Vec<Statistic>, ResolveError>
    ensures { HasGiven (λ v. v.items) result (each (resolved_statistic names.now) (upto count)) }
{
    let mut resolved = Vec::new(alloc);
    for number in 0..count {
        let one = resolved_statistic(names, number)?;
        resolved.push(one)?;
    }
    Ok(resolved)
}

/// The statistics, one for each history.
pub(crate) fn resolve_statistics(
    alloc: Global,
    names: &Names,
) -> Result<Vec<Statistic>, ResolveError>
    ensures { HasGiven (λ v. v.items) result (statistics names.now) }
{
    statistics_upto(alloc, names, names.histories.len())
}
