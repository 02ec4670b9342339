//! What a run works on beside its variables.

ghost use Rattle.std.specs.Prelude.{◌≡◌, ◌<◌, length, Some, IfOk, map, pos};
ghost use Rattle.ss_world.specs.State.{first_state};
ghost use Rattle.std.specs.Ordering.{int_eq};
ghost use Rattle.ss_base.specs.declared.layout.Owner.TheVariants.{System};
ghost use Rattle.ss_world.specs.PendingList.{none_pending};
ghost use Rattle.ss_machine_time.specs.Records.{columns_of};
ghost use Rattle.ss_meaning.specs.Events.{Ranked, ranked_from};
ghost use Rattle.ss_meaning.specs.Histories.{no_histories, starting};
ghost use Rattle.ss_machine_world.specs.Classes.{has_keys};

use crate::class::{ClassEntry, class_entries, has_ties, rank_of};
use ss_base::{Discipline, Layout};
use ss_code_instructions::NoticeClass;
use ss_machine_entities::population::Population;
use ss_machine_time::Timeline;
use ss_program::sections::Statistic;
use ss_world::TieShape;
use std::alloc::{AllocError, Global};
use std::marker::Model;

/// What a run works on beside its variables: the entities, their sets, the time, the notices
/// that are pending, and the histories that statistics are taken of.
#[derive(Drop)]
pub struct World {
    /// The entities and their sets.
    pub population: Population,
    pub(crate) disciplines: Vec<Discipline>,
    /// The classes of notices, by their ranks.
    pub notices: Vec<NoticeClass>,
    /// TIME.V, the notices that are pending, and the histories.
    pub timeline: Timeline,
    // What the program says of each class.
    pub(crate) classes: Vec<ClassEntry>,
}

impl Model for World {
    ghost use Rattle.ss_machine_world.specs.Seen.{Seen};
    ghost use Rattle.ss_machine_world.specs.Classes.{AreSaid};

    ghost Value = { Seen };

    ghost view = { λ s. record { disciplines = s.disciplines.items; notices = s.notices.items; statistics = s.timeline.histories.statistics; heap = s.population; time = s.timeline.time; pending = s.timeline.pending; histories = s.timeline.histories.rows } };

    ghost invariant = { λ s. AreSaid s.population.layout s.notices.items s.timeline.histories.statistics s.classes.items };
}

impl World {
    /// A world without entities, at the time 0, with nothing pending: the sets of the layout are ordered by the
    /// disciplines, and its classes of notices come in this order, with ties of these shapes. The histories of the
    /// statistics of what the system has are started. The error comes where memory was refused.
    pub fn new(
        alloc: Global,
        layout: Layout,
        disciplines: Vec<Discipline>,
        notices: Vec<NoticeClass>,
        shapes: &[Vec<TieShape>],
        statistics: &[Statistic],
    ) -> Result<World, AllocError>
        ensures world { IfOk result (λ world. world ≡ record { disciplines = disciplines.items; notices = notices.items; statistics = statistics.now; heap = first_state layout; time = pos 0; pending = none_pending (map (λ ties. ties.items) shapes.now); histories = world.histories }) }
        ensures histories { IfOk result (λ world. columns_of world.histories ≡ starting layout System (int_eq (pos 0)) (pos 0) statistics.now (no_histories statistics.now)) }
    {
        let population = Population::new(alloc, layout)?;
        let plan = population.layout();
        let timeline = Timeline::new(alloc, plan, shapes, statistics)?;
        let classes = class_entries(alloc, plan, &notices, statistics)?;
        Ok(World {
            population,
            disciplines,
            notices,
            timeline,
            classes,
        })
    }

    /// The rank of a class of notices.
    #[inline(always)]
    pub fn rank(&self, class: usize) -> usize
        requires class { class < length self.now.heap.layout.classes }
        ensures { (r : Ranked) → ranked_from 0 self.now.notices class ≡ Some r → result ≡ r.rank }
    {
        rank_of(&self.classes, class)
    }

    /// Whether attributes break ties of the notices of a class.
    #[inline(always)]
    pub fn has_ties(&self, class: usize) -> bool
        requires class { class < length self.now.heap.layout.classes }
        ensures { (r : Ranked) → ranked_from 0 self.now.notices class ≡ Some r → result ≡ has_keys r.said.ties }
    {
        has_ties(&self.classes, class)
    }
}
