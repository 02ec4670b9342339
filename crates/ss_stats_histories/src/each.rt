//! What is done with each of some statistics.

ghost use Rattle.std.specs.Prelude.{◌≡◌, ◌<◌, [], true, false, ◌≤ℤ◌, pos, map, fold, length, IfOk, OnOk, IsTrue, MatchResult, IfSome, Some, None};
ghost use Rattle.std.specs.List.{All};
ghost use Rattle.std.specs.Ordering.{int_eq};
ghost use Rattle.ss_base.specs.declared.value.Value.TheVariants.{Whole};
ghost use Rattle.ss_base.specs.Layout.{same_owner};
ghost use Rattle.ss_meaning.specs.Histories.{home};
ghost use Rattle.ss_stats_histories.specs.Each.{shown, bare, IsKeptUntil, HasRoom, begun_shown, ended_shown, noted_one, noted_by, renewed_one, changed_at, refused_at, stops_at, first_at, has_at};
ghost use Rattle.ss_stats_histories.specs.Places.{has_some};
ghost use Rattle.ss_stats_histories.specs.Records.{statistics_of, rows_of, none_in, is_home, is_up_to};

use crate::kept::Kept;
use crate::unnoted::Unnoted;
use ss_base::{Layout, Owner, Value};
use ss_program::sections::{Statistic, Subject};
use std::alloc::{AllocError, Global};

/// The first reason why a history of an entity in the statistics at some places takes no number.
pub(crate) fn first_refused(
    kept: &[Kept],
    places: &[usize],
    entity: i64,
    now: i64,
) -> Option<Unnoted>
    requires within { All (λ j. j < length kept.now) places.now }
    requires until { All (IsKeptUntil now) kept.now }
    ensures { result ≡ first_at (refused_at entity (map shown kept.now)) places.now }
{
    let mut found = None;
    for place in places {
        found = found.or(kept[*place].refused(entity, now));
    }
    found
}

/// Whether the statistic at a place has a history of an entity.
pub(crate) fn has_at(kept: &[Kept], place: usize, entity: i64) -> bool
    ensures { result ≡ has_at entity (map shown kept.now) place }
{
    match kept.get(place) {
        Some(kept) => kept.has(entity),
        None => false,
    }
}

/// Starts the history of an entity afresh in the statistic at a place, if it has one there, with the present value.
pub(crate) fn renew_at(kept: &mut [Kept], place: usize, entity: i64, now: i64, present: i64)
    requires there { IsTrue (has_at entity (map shown kept.old) place) }
    requires until { All (IsKeptUntil now) kept.old }
    ensures shown { map shown kept.new ≡ changed_at (renewed_one entity now present) (map shown kept.old) place }
    ensures until { All (IsKeptUntil now) kept.new }
{
    kept[place].renew(entity, now, present);
}

/// Notes a value in the histories of an entity that aren't full in the statistics at some places.
pub(crate) fn note_each(kept: &mut [Kept], places: &[usize], entity: i64, now: i64, value: i64)
    requires within { All (λ j. j < length kept.old) places.now }
    requires until { All (IsKeptUntil now) kept.old }
    ensures shown { map shown kept.new ≡ fold (changed_at (noted_one entity now value)) (map shown kept.old) places.now }
    ensures until { All (IsKeptUntil now) kept.new }
{
    for place in places {
        kept[*place].note(entity, now, value);
    }
}

/// Whether there is a statistic.
#[inline(always)]
pub(crate) fn has_any(kept: &[Kept]) -> bool
    ensures { result ≡ false → statistics_of kept.now ≡ [] }
{
    match kept {
        [] => false,
        [..] => true,
    }
}

/// Whether there is a place.
#[inline(always)]
pub(crate) fn has_some(places: &[usize]) -> bool
    ensures { result ≡ has_some places.now }
{
    match places {
        [] => false,
        [..] => true,
    }
}

/// Notes a number in the history of an entity in the statistic at a place, or says why that takes none; then nothing
/// changes.
#[inline(always)]
pub(crate) fn note_here(
    kept: &mut [Kept],
    place: usize,
    entity: i64,
    now: i64,
    number: i64,
) -> Option<Unnoted>
    requires within { place < length kept.old }
    requires until { All (IsKeptUntil now) kept.old }
    ensures refused { result ≡ refused_at entity (map shown kept.old) place }
    ensures same { IfSome result (λ _. kept.new ≡ kept.old) }
    ensures shown { map shown kept.new ≡ changed_at (noted_one entity now number) (map shown kept.old) place }
    ensures until { All (IsKeptUntil now) kept.new }
{
    kept[place].note_or_refuse(entity, now, number)
}

// Notes a number in the histories of an entity in the statistics at some places, as `note_all` does.
#[inline(never)]
fn note_refusable(
    kept: &mut [Kept],
    places: &[usize],
    entity: i64,
    now: i64,
    number: i64,
) -> Result<(), Unnoted>
    requires within { All (λ j. j < length kept.old) places.now }
    requires until { All (IsKeptUntil now) kept.old }
    ensures noted { MatchResult result (λ _. (first_at (stops_at (Whole number) entity (map shown kept.old)) places.now ≡ None) × (map shown kept.new ≡ fold (changed_at (noted_by entity now (Whole number))) (map shown kept.old) places.now)) (λ e. (first_at (stops_at (Whole number) entity (map shown kept.old)) places.now ≡ Some e) × (kept.new ≡ kept.old)) }
    ensures until { All (IsKeptUntil now) kept.new }
{
    match first_refused(kept, places, entity, now) {
        Some(refused) => Err(refused),
        None => {
            note_each(kept, places, entity, now, number);
            Ok(())
        }
    }
}

// Does the work of `note_all` for a number; nothing where there is no place.
#[inline(always)]
fn note_number(
    kept: &mut [Kept],
    places: &[usize],
    entity: i64,
    now: i64,
    number: i64,
) -> Result<(), Unnoted>
    requires within { All (λ j. j < length kept.old) places.now }
    requires until { All (IsKeptUntil now) kept.old }
    ensures noted { MatchResult result (λ _. (first_at (stops_at (Whole number) entity (map shown kept.old)) places.now ≡ None) × (map shown kept.new ≡ fold (changed_at (noted_by entity now (Whole number))) (map shown kept.old) places.now)) (λ e. (first_at (stops_at (Whole number) entity (map shown kept.old)) places.now ≡ Some e) × (kept.new ≡ kept.old)) }
    ensures until { All (IsKeptUntil now) kept.new }
{
    match places {
        [] => Ok(()),
        [place] => match note_here(kept, *place, entity, now, number) {
            None => Ok(()),
            Some(unnoted) => Err(unnoted),
        },
        [..] => note_refusable(kept, places, entity, now, number),
    }
}

/// Notes a value in the histories of an entity in the statistics at some places. The error is the first reason why one of
/// them doesn't note it; then nothing changes.
#[inline(always)]
pub(crate) fn note_all(
    kept: &mut [Kept],
    places: &[usize],
    entity: i64,
    now: i64,
    value: Value,
) -> Result<(), Unnoted>
    requires within { All (λ j. j < length kept.old) places.now }
    requires until { All (IsKeptUntil now) kept.old }
    ensures noted { MatchResult result (λ _. (first_at (stops_at value entity (map shown kept.old)) places.now ≡ None) × (map shown kept.new ≡ fold (changed_at (noted_by entity now value)) (map shown kept.old) places.now)) (λ e. (first_at (stops_at value entity (map shown kept.old)) places.now ≡ Some e) × (kept.new ≡ kept.old)) }
    ensures until { All (IsKeptUntil now) kept.new }
{
    match value {
        Value::Whole(number) => note_number(kept, places, entity, now, number),
        Value::Text(_) => if has_some(places) {
            Err(Unnoted::TypeError)
        } else {
            Ok(())
        },
    }
}

#[inline(always)]
fn same_owner(a: Owner, b: Owner) -> bool
    ensures { result ≡ same_owner a b }
{
    match (a, b) {
        (Owner::System, Owner::System) => true,
        (Owner::Class(c), Owner::Class(d)) => c == d,
        (Owner::System, Owner::Class(_)) => false,
        (Owner::Class(_), Owner::System) => false,
    }
}

// Whose the subject of a statistic is.
#[inline(always)]
fn home(layout: &Layout, subject: Subject) -> Owner
    ensures { result ≡ home layout.now subject }
{
    match subject {
        Subject::OfVariable { .. } => Owner::System,
        Subject::OfAttribute { class, .. } => Owner::Class(class as usize),
        Subject::OfCount { set } => {
            match layout.sets.get(set as usize) {
                Some(set) => set.owner,
                None => Owner::System,
            }
        }
    }
}

#[inline(always)]
fn is_home(layout: &Layout, whose: Owner, statistic: Statistic) -> bool
    ensures { result ≡ is_home layout.now whose statistic }
{
    same_owner(home(layout, statistic.subject), whose)
}

/// Makes room for so many histories more in each statistic that is kept of what an owner has. No history changes. The
/// error comes where memory was refused.
pub(crate) fn reserve_each(
    kept: &mut [Kept],
    layout: &Layout,
    whose: Owner,
    count: i64,
) -> Result<(), AllocError>
    ensures bare { map bare kept.new ≡ map bare kept.old }
    ensures room { OnOk result (All (HasRoom layout.now whose count) kept.new) }
{
    for place in 0..kept.len() {
        reserve_one(&mut kept[place], layout, whose, count)?;
    }
    Ok(())
}

fn reserve_one(kept: &mut Kept, layout: &Layout, whose: Owner, count: i64) -> Result<(), AllocError>
    ensures bare { bare kept.new ≡ bare kept.old }
    ensures room { OnOk result (HasRoom layout.now whose count kept.new) }
{
    if is_home(layout, whose, kept.statistic()) {
        kept.reserve(count)?;
    }
    Ok(())
}

/// Starts the history of an entity in each statistic that is kept of what an owner has.
#[inline(always)]
pub(crate) fn begin_each(kept: &mut [Kept], layout: &Layout, whose: Owner, entity: i64, now: i64)
    requires now { pos 0 ≤ℤ now }
    requires room { All (HasRoom layout.now whose (pos 1)) kept.old }
    requires until { All (IsKeptUntil now) kept.old }
    ensures shown { map shown kept.new ≡ map (begun_shown layout.now whose (int_eq entity) now) (map shown kept.old) }
    ensures until { All (IsKeptUntil now) kept.new }
{
    for place in 0..kept.len() {
        begin_one(&mut kept[place], layout, whose, entity, now);
    }
}

#[inline(always)]
fn begin_one(kept: &mut Kept, layout: &Layout, whose: Owner, entity: i64, now: i64)
    requires now { pos 0 ≤ℤ now }
    requires room { HasRoom layout.now whose (pos 1) kept.old }
    requires until { IsKeptUntil now kept.old }
    ensures shown { shown kept.new ≡ begun_shown layout.now whose (int_eq entity) now (shown kept.old) }
    ensures until { IsKeptUntil now kept.new }
{
    if is_home(layout, whose, kept.statistic()) {
        kept.begin(entity, now);
    }
}

/// Starts the histories of the entities 1 to a number in each statistic that is kept of what an owner has.
pub(crate) fn begin_all_each(kept: &mut [Kept], layout: &Layout, whose: Owner, count: i64, now: i64)
    requires now { pos 0 ≤ℤ now }
    requires room { All (HasRoom layout.now whose count) kept.old }
    requires until { All (IsKeptUntil now) kept.old }
    ensures shown { map shown kept.new ≡ map (begun_shown layout.now whose (is_up_to count) now) (map shown kept.old) }
    ensures until { All (IsKeptUntil now) kept.new }
{
    for place in 0..kept.len() {
        begin_all_one(&mut kept[place], layout, whose, count, now);
    }
}

fn begin_all_one(kept: &mut Kept, layout: &Layout, whose: Owner, count: i64, now: i64)
    requires now { pos 0 ≤ℤ now }
    requires room { HasRoom layout.now whose count kept.old }
    requires until { IsKeptUntil now kept.old }
    ensures shown { shown kept.new ≡ begun_shown layout.now whose (is_up_to count) now (shown kept.old) }
    ensures until { IsKeptUntil now kept.new }
{
    if is_home(layout, whose, kept.statistic()) {
        kept.begin_all(count, now);
    }
}

/// Gives back what is kept of an entity in each statistic that is kept of what its class has.
#[inline(always)]
pub(crate) fn end_each(kept: &mut [Kept], layout: &Layout, whose: Owner, entity: i64, latest: i64)
    requires until { All (IsKeptUntil latest) kept.old }
    ensures shown { map shown kept.new ≡ map (ended_shown layout.now whose entity) (map shown kept.old) }
    ensures until { All (IsKeptUntil latest) kept.new }
{
    for place in 0..kept.len() {
        end_one(&mut kept[place], layout, whose, entity, latest);
    }
}

#[inline(always)]
fn end_one(kept: &mut Kept, layout: &Layout, whose: Owner, entity: i64, latest: i64)
    requires until { IsKeptUntil latest kept.old }
    ensures shown { shown kept.new ≡ ended_shown layout.now whose entity (shown kept.old) }
    ensures until { IsKeptUntil latest kept.new }
{
    if is_home(layout, whose, kept.statistic()) {
        kept.end(entity);
    }
}

/// These statistics, of which no history started yet. The error comes where memory was refused.
pub(crate) fn none_started(alloc: Global, statistics: &[Statistic]) -> Result<Vec<Kept>, AllocError>
    ensures statistics { IfOk result (λ kept. statistics_of kept.items ≡ statistics.now) }
    ensures rows { IfOk result (λ kept. rows_of kept.items ≡ map none_in statistics.now) }
{
    let mut kept = Vec::with_capacity(alloc, statistics.len())?;
    for statistic in statistics {
        kept.push_reserved(Kept::new(alloc, *statistic));
    }
    Ok(kept)
}
