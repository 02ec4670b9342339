//! What is asked of a machine between two runs: nothing changes by it.

ghost use Rattle.std.specs.Prelude.{◌≡◌};
ghost use Rattle.ss_world.specs.PendingList.{least_event};
ghost use Rattle.ss_machine_world.specs.Counts.{IsMemberCount};

use ss_machine_instructions::state::State;
use ss_machine_world::world::World;

// How many members the set of an owner has, where there are both.
fn count_in_world(world: &mut World, set: usize, owner: i64) -> Option<i64>
    ensures count { IsMemberCount world.old.heap set owner result }
    ensures same { world.new ≡ world.old }
{
    world.population.find_count(set, owner)
}

// The time and the notice of the event that comes next, if there is one.
fn upcoming_in_world(world: &mut World) -> Option<(i64, i64)>
    ensures next { result ≡ least_event world.old.pending }
    ensures same { world.new ≡ world.old }
{
    world.timeline.upcoming()
}

/// How many members the set of an owner has, where there are both.
pub fn count_in_state(state: &mut State, set: usize, owner: i64) -> Option<i64>
    ensures count { IsMemberCount state.old.world.heap set owner result }
    ensures same { state.new ≡ state.old }
{
    count_in_world(&mut state.world, set, owner)
}

/// The time and the notice of the event that comes next, if there is one.
pub fn upcoming_in_state(state: &mut State) -> Option<(i64, i64)>
    ensures next { result ≡ least_event state.old.world.pending }
    ensures same { state.new ≡ state.old }
{
    upcoming_in_world(&mut state.world)
}
