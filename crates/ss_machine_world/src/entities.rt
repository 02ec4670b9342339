//! Entities that come and go, and how many of a class there are.

ghost use Rattle.std.specs.Prelude.{◌≡◌, ℕ, ◌<◌, true, List, length, slice_get, None, Ok, Err, IfSome};
ghost use Rattle.ss_base.specs.declared.value.Value.TheVariants.{Whole};
ghost use Rattle.ss_meaning.specs.Entities.{is_single, is_permanent, made_one, gone, without};
ghost use Rattle.ss_meaning.specs.Events.{unscheduled};
ghost use Rattle.ss_meaning.specs.Histories.{ending};
ghost use Rattle.ss_meaning.specs.Store.{Store as StoreSeen, Notices as NoticesSeen};
ghost use Rattle.ss_meaning.specs.Values.{Fails};
ghost use Rattle.ss_world.specs.PendingList.{is_pending};
ghost use Rattle.ss_machine_time.specs.Times.{IsAt, columns};
ghost use Rattle.ss_machine_world.specs.Classes.{AreSaid};
ghost use Rattle.ss_machine_world.specs.Numbers.{created_all_known, count_open};
ghost use Rattle.ss_machine_world.specs.Seen.{HasAnswer, HasChanged, IsAlwaysOk, HasMade, HasChangedWithMemory, with_seen};

use crate::class::{ClassEntry, is_watched};
use crate::world::World;
use ss_base::{FaultKind, Layout, Refused};
use ss_machine_time::Timeline;

impl World {
    /// A new entity of a class whose entities come and go, with its histories: its number. Faults: 14 after the last number. It is
    /// out of memory only where that is not due.
    #[inline(always)]
    pub fn create(&mut self, class: usize) -> Result<i64, Refused>
        requires class { class < length self.old.heap.layout.classes }
        requires single { is_single (slice_get self.old.heap.layout.classes class) ≡ true }
        ensures { HasMade (made_one class) self.old self.new result }
    {
        if !is_watched(&self.classes, class) {
            return self.population.create(class);
        }
        match self.create_watched(class) {
            Some(number) => Ok(number),
            None => Err(self.uncreated()),
        }
    }

    // A new entity of a class of which there are histories, if it could be made. Room for them is made first.
    #[inline(never)]
    fn create_watched(&mut self, class: usize) -> Option<i64>
        requires class { class < length self.old.heap.layout.classes }
        requires single { is_single (slice_get self.old.heap.layout.classes class) ≡ true }
        ensures made { IfSome result (λ number. HasMade (made_one class) self.old self.new (Ok number)) }
        ensures same { result ≡ None → self.new ≡ self.old }
    {
        if self
            .timeline
            .reserve(self.population.layout(), class, 1)
            .is_err()
        {
            return None;
        }
        match self.population.create(class) {
            Ok(number) => {
                self.timeline.start(self.population.layout(), class, number);
                Some(number)
            }
            Err(_) => None,
        }
    }

    // Why there is no new entity.
    #[cold]
    #[inline(never)]
    fn uncreated(&self) -> Refused
        ensures { (class : ℕ) → is_single (slice_get self.now.heap.layout.classes class) ≡ true → HasMade (made_one class) self.now self.now (Err result) }
    {
        match self.population.may_create() {
            Err(kind) => Refused::Fault(kind),
            Ok(()) => Refused::Memory,
        }
    }

    /// All entities of a permanent class, so many, whose histories start. Faults: 18 where they are made, then 22 for a bad count.
    /// It is out of memory only where neither is due.
    pub fn create_all(&mut self, class: usize, count: i64) -> Result<(), Refused>
        requires class { class < length self.old.heap.layout.classes }
        requires permanent { is_permanent (slice_get self.old.heap.layout.classes class) ≡ true }
        ensures { HasChangedWithMemory (created_all_known class count) self.old self.new result }
    {
        match self.population.may_create_all(class, count) {
            Err(kind) => Err(Refused::Fault(kind)),
            Ok(()) => self.create_counted(class, count),
        }
    }

    // All entities of a permanent class, for a count at which no fault is due: room for the histories is made first.
    fn create_counted(&mut self, class: usize, count: i64) -> Result<(), Refused>
        requires class { class < length self.old.heap.layout.classes }
        requires permanent { is_permanent (slice_get self.old.heap.layout.classes class) ≡ true }
        requires well { IsAlwaysOk (created_all_known class count) self.old }
        ensures { HasChangedWithMemory (created_all_known class count) self.old self.new result }
    {
        if self
            .timeline
            .reserve(self.population.layout(), class, count)
            .is_err()
        {
            return Err(Refused::Memory);
        }
        match self.population.create_all(class, count) {
            Ok(()) => {
                let made = self.population.count(class);
                self.timeline
                    .start_all(self.population.layout(), class, made);
                Ok(())
            }
            Err(refused) => Err(refused),
        }
    }

    /// An entity goes, and its histories end, unless it is pending. Faults: 1 to 4, then 21, then 9 and 10.
    #[inline(always)]
    pub fn destroy(&mut self, class: usize, number: i64) -> Result<(), FaultKind>
        requires class { class < length self.old.heap.layout.classes }
        requires single { is_single (slice_get self.old.heap.layout.classes class) ≡ true }
        ensures { HasChanged (without class (Whole number)) self.old self.new result }
    {
        if self.timeline.is_scheduled(number) {
            return Err(self.scheduled(class, number));
        }
        self.remove_entity(class, number)
    }

    // Why an entity that is pending does not go.
    #[cold]
    #[inline(never)]
    fn scheduled(&self, class: usize, number: i64) -> FaultKind
        requires class { class < length self.now.heap.layout.classes }
        requires pending { is_pending number self.now.pending.entries ≡ true }
        ensures { (s : StoreSeen) → without class (Whole number) (with_seen s self.now) ≡ Err (Fails result) }
    {
        match self.population.known(class, number) {
            Ok(()) => FaultKind::Scheduled,
            Err(kind) => kind,
        }
    }

    /// An entity goes, and its histories end, whether or not it is pending. Faults: 1 to 4, then 9 and 10.
    #[inline(always)]
    pub fn remove_entity(&mut self, class: usize, number: i64) -> Result<(), FaultKind>
        requires class { class < length self.old.heap.layout.classes }
        requires single { is_single (slice_get self.old.heap.layout.classes class) ≡ true }
        ensures { HasChanged (gone class (Whole number)) self.old self.new result }
    {
        match self.population.destroy(class, number) {
            Ok(()) => {
                end_histories(
                    &mut self.timeline,
                    &self.classes,
                    self.population.layout(),
                    class,
                    number,
                );
                Ok(())
            }
            Err(kind) => Err(kind),
        }
    }

    /// Whether N. of a permanent class may be assigned a value. Faults: 18 where its entities are made.
    pub fn look_count(&self, class: usize) -> Result<(), FaultKind>
        ensures { HasAnswer (count_open class) self.now result }
    {
        if self.population.is_made(class) {
            return Err(FaultKind::CreatedTwice);
        }
        Ok(())
    }

    /// A notice is pending no longer. It stays, and so does its TIME.A. Faults: 1 to 4, then 12.
    #[inline(never)]
    pub fn cancel(&mut self, class: usize, notice: i64) -> Result<(), FaultKind>
        requires class { class < length self.old.heap.layout.classes }
        ensures { HasChanged (unscheduled class (Whole notice)) self.old self.new result }
    {
        match self.population.known(class, notice) {
            Ok(()) => self.timeline.cancel(notice),
            Err(kind) => Err(kind),
        }
    }
}

// The histories of an entity of a class end, where it has any.
#[inline(always)]
fn end_histories(
    timeline: &mut Timeline,
    classes: &[ClassEntry],
    layout: &Layout,
    class: usize,
    number: i64,
)
    requires class { class < length classes.now }
    requires said { (es : List NoticesSeen) × AreSaid layout.now es timeline.old.histories.statistics classes.now }
    ensures ended { columns timeline.new ≡ ending layout.now class number timeline.old.histories.statistics (columns timeline.old) }
    ensures same { IsAt timeline.old timeline.new }
{
    if !is_watched(classes, class) {
        return;
    }
    timeline.end(layout, class, number);
}
