//! Events: which comes next.

ghost use Rattle.ss_machine_events.specs.Events.{IsNextNotice};

use ss_machine_world::world::World;

/// Takes out the notice that comes next, and answers its number. TIME.V is then its time. None where no notice is pending. The notice
/// is remembered, so that it is found sooner.
#[inline(always)]
pub fn next_event(world: &mut World) -> Option<i64>
    ensures { IsNextNotice world.old world.new result }
{
    match world.timeline.next() {
        None => None,
        Some(notice) => {
            world.population.meet(notice);
            Some(notice)
        }
    }
}
