//! What a program says of a class: it is looked up as entities come and go.

ghost use Rattle.std.specs.Prelude.{◌≡◌, ◌<◌, List, [], length, Some, None, slice_get, slice_set, IfOk, IfSome};
ghost use Rattle.std.specs.List.{list_any};
ghost use Rattle.ss_base.specs.Plain.{PlainLayout};
ghost use Rattle.ss_base.specs.declared.layout.Owner.TheVariants.{Class};
ghost use Rattle.ss_machine_time.specs.Records.{is_home};
ghost use Rattle.ss_meaning.specs.Events.{Ranked, ranked_from};
ghost use Rattle.ss_meaning.specs.Store.{Notices};
ghost use Rattle.ss_program.specs.declared.sections.Statistic.{Statistic as StatisticSeen};
ghost use Rattle.ss_machine_world.specs.Classes.{AreSaid, has_keys, with_rank};

use ss_base::{Layout, Owner, RankKey};
use ss_code_instructions::NoticeClass;
use ss_program::sections::{Statistic, Subject};
use std::alloc::{AllocError, Global};

/// What a program says of a class: whether some statistic has a history of each of its entities, its rank among the classes of
/// notices, where it is one of them, and whether attributes break ties of its notices.
#[derive(Clone, Copy)]
pub struct ClassEntry {
    pub is_watched: bool,
    pub has_ties: bool,
    pub rank: usize,
}

/// Whether a statistic has a history of each entity of a class.
#[inline(always)]
pub(crate) fn is_watched(classes: &[ClassEntry], class: usize) -> bool
    requires class { class < length classes.now }
    ensures { (l : PlainLayout) (es : List Notices) (ss : List StatisticSeen) → AreSaid l es ss classes.now → result ≡ list_any (is_home l (Class class)) ss }
{
    classes[class].is_watched
}

/// The rank of a class of notices.
#[inline(always)]
pub(crate) fn rank_of(classes: &[ClassEntry], class: usize) -> usize
    requires class { class < length classes.now }
    ensures { (l : PlainLayout) (es : List Notices) (ss : List StatisticSeen) → AreSaid l es ss classes.now → (r : Ranked) → ranked_from 0 es class ≡ Some r → result ≡ r.rank }
{
    classes[class].rank
}

/// Whether attributes break ties of the notices of a class.
#[inline(always)]
pub(crate) fn has_ties(classes: &[ClassEntry], class: usize) -> bool
    requires class { class < length classes.now }
    ensures { (l : PlainLayout) (es : List Notices) (ss : List StatisticSeen) → AreSaid l es ss classes.now → (r : Ranked) → ranked_from 0 es class ≡ Some r → result ≡ has_keys r.said.ties }
{
    classes[class].has_ties
}

// Whether this statistic has a history of each entity of a class.
fn is_about(layout: &Layout, class: usize, statistic: &Statistic) -> bool
    ensures { result ≡ is_home layout.now (Class class) statistic.now }
{
    match statistic.subject {
        Subject::OfVariable { .. } => false,
        Subject::OfAttribute { class: of, .. } => of == class,
        Subject::OfCount { set } => match layout.sets.get(set) {
            None => false,
            Some(found) => match found.owner {
                Owner::System => false,
                Owner::Class(owner) => owner == class,
            },
        },
    }
}

// Whether one of these statistics has one.
fn is_about_any(layout: &Layout, class: usize, statistics: &[Statistic]) -> bool
    ensures { result ≡ list_any (is_home layout.now (Class class)) statistics.now }
{
    statistics.iter().any(|it| is_about(layout, class, it))
}

// What a program says of each class of a layout, but for the ranks. The error comes where memory was refused.
fn unranked_entries(
    alloc: Global,
    layout: &Layout,
    statistics: &[Statistic],
) -> Result<Vec<ClassEntry>, AllocError>
    ensures { IfOk result (λ classes. AreSaid layout.now [] statistics.now classes.items) }
{
    let mut classes = Vec::with_capacity(alloc, layout.classes.len())?;
    for class in 0..layout.classes.len() {
        classes.push(ClassEntry {
            is_watched: is_about_any(layout, class, statistics),
            has_ties: false,
            rank: 0,
        })?;
    }
    Ok(classes)
}

// Whether there are keys.
fn has_keys(keys: &[RankKey]) -> bool
    ensures { result ≡ has_keys keys.now }
{
    match keys {
        [] => false,
        [..] => true,
    }
}

// Notes the rank of a class of notices, and whether it has ties.
fn note_rank(classes: &mut [ClassEntry], rank: usize, notice: &NoticeClass)
    ensures known { IfSome (slice_get classes.old notice.now.class) (λ entry. classes.new ≡ slice_set classes.old notice.now.class (with_rank rank notice.now entry)) }
    ensures unknown { slice_get classes.old notice.now.class ≡ None → classes.new ≡ classes.old }
{
    let class = notice.class();
    if class < classes.len() {
        classes[class] = ClassEntry {
            is_watched: classes[class].is_watched,
            has_ties: has_keys(notice.ties().as_slice()),
            rank,
        };
    }
}

// Notes the ranks of the classes of notices, the last first: of two entries of one class the first counts.
fn note_ranks(classes: &mut [ClassEntry], notices: &[NoticeClass])
    ensures { (l : PlainLayout) (ss : List StatisticSeen) → AreSaid l [] ss classes.old → AreSaid l notices.now ss classes.new }
{
    let mut rank = notices.len();
    while rank > 0 {
        rank -= 1;
        note_rank(classes, rank, &notices[rank]);
    }
}

/// What a program says of each class of a layout. The error comes where memory was refused.
pub(crate) fn class_entries(
    alloc: Global,
    layout: &Layout,
    notices: &[NoticeClass],
    statistics: &[Statistic],
) -> Result<Vec<ClassEntry>, AllocError>
    ensures { IfOk result (λ classes. AreSaid layout.now notices.now statistics.now classes.items) }
{
    let mut classes = unranked_entries(alloc, layout, statistics)?;
    note_ranks(&mut classes, notices);
    Ok(classes)
}
