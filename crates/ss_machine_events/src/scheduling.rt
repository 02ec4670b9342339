//! Scheduling: the time of an event, and filing a notice among those that are pending.

ghost use Rattle.std.specs.Prelude.{◌≡◌, ◌<◌, length, slice_get, Some, Ok, IfOk};
ghost use Rattle.std.specs.List.{All};
ghost use Rattle.ss_base.specs.declared.value.Value.TheVariants.{Whole};
ghost use Rattle.ss_world.specs.State.{known_in};
ghost use Rattle.ss_meaning.specs.Entities.{attribute};
ghost use Rattle.ss_meaning.specs.Events.{not_past, ties_of, filed_notice};
ghost use Rattle.ss_meaning.specs.Store.{Notices, Store as StoreSeen};
ghost use Rattle.ss_machine_world.specs.Seen.{HasAnswer, HasChangedWithMemory, with_seen};
ghost use Rattle.ss_machine_events.specs.Scheduled.{time_after, HasKeyField, IsNoticeClass, IsUntied, IsTied, HasAddedTie, IsDoneIf, scheduled_known, IsUnfiled};

use ss_base::{FaultKind, RankKey, Refused, Value, plus};
use ss_events::Key;
use ss_machine_world::world::World;
use ss_world::Tie;
use std::alloc::Global;

/// A time that is not past. Faults: 13.
#[inline(always)]
pub fn time_at(world: &World, time: i64) -> Result<i64, FaultKind>
    ensures { HasAnswer (not_past time) world.now result }
{
    if time < world.timeline.time() {
        return Err(FaultKind::PastTime);
    }
    Ok(time)
}

/// The time that is so many units from now. Faults: 14, then 13.
#[inline(always)]
pub fn time_in(world: &World, units: i64) -> Result<i64, FaultKind>
    ensures { HasAnswer (time_after units) world.now result }
{
    match plus(world.timeline.time(), units) {
        Ok(time) => time_at(world, time),
        Err(kind) => Err(kind),
    }
}

// A tie is added after others. The error comes where memory was refused.
#[inline(always)]
fn put_tie(ties: &mut Vec<Tie>, value: Value, high: bool) -> Result<(), Refused>
    ensures { IsTied value high ties.old.items ties.new.items result }
{
    match ties.push(Tie { value, high }) {
        Ok(()) => Ok(()),
        Err(_) => Err(Refused::Memory),
    }
}

// The value that an attribute of a notice has now, as one more tie.
#[inline(always)]
fn freeze_one(
    world: &World,
    class: usize,
    notice: i64,
    key: RankKey,
    ties: &mut Vec<Tie>,
) -> Result<(), Refused>
    requires class { class < length world.now.heap.layout.classes }
    requires known { known_in world.now.heap class notice ≡ Ok tt }
    requires field { HasKeyField world.now.heap.layout class key }
    ensures { HasAddedTie (attribute class key.field (Whole notice)) key.high world.now ties.old.items ties.new.items result }
{
    match world.population.value(class, key.field, notice) {
        Err(kind) => Err(Refused::Fault(kind)),
        Ok(value) => put_tie(ties, value, key.high),
    }
}

// The values that attributes of a notice have now, as ties. The error comes where memory was refused.
fn frozen(
    world: &World,
    alloc: Global,
    class: usize,
    notice: i64,
    keys: &[RankKey],
) -> Result<Vec<Tie>, Refused>
    requires class { class < length world.now.heap.layout.classes }
    requires known { known_in world.now.heap class notice ≡ Ok tt }
    requires fields { All (HasKeyField world.now.heap.layout class) keys.now }
    ensures { IfOk result (λ ties. (s : StoreSeen) → ties_of class (Whole notice) (with_seen s world.now) keys.now ≡ Ok ties.items) }
{
    let mut ties = Vec::new(alloc);
    for key in keys {
        match freeze_one(world, class, notice, *key, &mut ties) {
            Err(refused) => return Err(refused),
            Ok(()) => {}
        }
    }
    Ok(ties)
}

// A notice is pending under a key; and says whether it is.
#[inline(always)]
fn file_under(world: &mut World, key: Key, notice: i64) -> bool
    ensures { IsDoneIf (scheduled_known key notice) result world.old world.new }
{
    match world.timeline.schedule(key, notice) {
        Ok(()) => true,
        Err(_) => false,
    }
}

// The attributes that break ties of the notices of the class of this rank.
#[inline(always)]
fn keys_of(world: &World, rank: usize) -> &[RankKey]
    requires { rank < length world.now.notices }
    ensures { (said : Notices) → slice_get world.now.notices rank ≡ Some said → result.now ≡ said.ties }
{
    let notices = world.notices.as_slice();
    let said = &notices[rank];
    said.ties().as_slice()
}

// A notice of a class with ties is pending, by the values that the attributes which break ties have now; and says whether it is.
#[inline(never)]
fn schedule_tied(world: &mut World, alloc: Global, class: usize, notice: i64, time: i64) -> bool
    requires notices { IsNoticeClass world.old class }
    requires known { known_in world.old.heap class notice ≡ Ok tt }
    ensures { IsDoneIf (filed_notice class (Whole notice) time) result world.old world.new }
{
    let rank = world.rank(class);
    let keys = keys_of(world, rank);
    match frozen(world, alloc, class, notice, keys) {
        Ok(ties) => file_under(world, Key::with_ties(time, rank, ties), notice),
        Err(_) => false,
    }
}

// A notice of a class without ties is pending; and says whether it is.
#[inline(never)]
fn schedule_untied(world: &mut World, alloc: Global, class: usize, notice: i64, time: i64) -> bool
    requires notices { IsNoticeClass world.old class }
    requires known { known_in world.old.heap class notice ≡ Ok tt }
    requires untied { IsUntied world.old.notices class }
    ensures { IsDoneIf (filed_notice class (Whole notice) time) result world.old world.new }
{
    let rank = world.rank(class);
    file_under(world, Key::with_ties(time, rank, Vec::new(alloc)), notice)
}

// A notice that is there is pending; and says whether it is.
#[inline(always)]
fn file(world: &mut World, alloc: Global, class: usize, notice: i64, time: i64) -> bool
    requires notices { IsNoticeClass world.old class }
    requires known { known_in world.old.heap class notice ≡ Ok tt }
    ensures { IsDoneIf (filed_notice class (Whole notice) time) result world.old world.new }
{
    if world.has_ties(class) {
        schedule_tied(world, alloc, class, notice, time)
    } else {
        schedule_untied(world, alloc, class, notice, time)
    }
}

// Why a notice is not pending.
#[cold]
#[inline(never)]
fn unfiled(world: &World, notice: i64, time: i64) -> Refused
    ensures { IsUnfiled time notice world.now result }
{
    match world.timeline.may_schedule(time, notice) {
        Err(kind) => Refused::Fault(kind),
        Ok(()) => Refused::Memory,
    }
}

/// A notice is filed among those that are pending: for this time, by the rank of its class and the values that the attributes which
/// break ties have now. Faults: 1 to 4, then 13 where the time is before TIME.V, then 11, then 14 after the last scheduling. It is out
/// of memory only where none of these is due. Nothing changes after a fault, or where memory was refused.
#[inline(always)]
pub fn schedule(
    world: &mut World,
    alloc: Global,
    class: usize,
    notice: i64,
    time: i64,
) -> Result<(), Refused>
    requires notices { IsNoticeClass world.old class }
    ensures { HasChangedWithMemory (filed_notice class (Whole notice) time) world.old world.new result }
{
    match world.population.known(class, notice) {
        Err(kind) => Err(Refused::Fault(kind)),
        Ok(()) => {
            if file(world, alloc, class, notice, time) {
                return Ok(());
            }
            Err(unfiled(world, notice, time))
        }
    }
}
