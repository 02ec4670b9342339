//! Statistics: what histories note, what they say, and RESET. The entity of a statistic that has none is 0.

ghost use Rattle.std.specs.Prelude.{◌≡◌, ◌<◌, length, pos, Some, Option, IfOk, slice_get};
ghost use Rattle.ss_base.specs.declared.layout.Mode.TheVariants.{Integer};
ghost use Rattle.ss_base.specs.declared.value.Value.{Value as ValueSeen};
ghost use Rattle.ss_base.specs.declared.value.Value.TheVariants.{Whole};
ghost use Rattle.ss_machine_time.specs.Figures.{subject_in, variable_in, statistic_variable, renewed_known};
ghost use Rattle.ss_meaning.specs.Histories.{noted};
ghost use Rattle.ss_meaning.specs.Statistics.{figure, mean, reset};
ghost use Rattle.ss_picture.specs.Suited.{IsMean};
ghost use Rattle.ss_program.specs.declared.sections.Subject.{Subject as SubjectSeen};
ghost use Rattle.ss_program.specs.declared.sections.Subject.TheVariants.{OfVariable};
ghost use Rattle.ss_world.specs.State.{modes_of};
ghost use Rattle.ss_machine_world.specs.Numbers.{IsReferenceToSubject, IsSubject, HasValidSubject, IsHeldBySubject, attribute_noted, count_noted, looked_in, present_in, or_full};
ghost use Rattle.ss_machine_world.specs.Seen.{IsRight, HasAnswer, HasChanged, HasChangedWhere, as_value, without_value};

use crate::world::World;
use ss_base::{FaultKind, Value};
use ss_machine_time::Unnoted;
use ss_program::expression::Fold;
use ss_program::sections::Subject;

impl World {
    /// Notes the value of a global variable. Faults: 14.
    #[inline(never)]
    pub fn note_variable(&mut self, number: usize, value: i64) -> Result<(), FaultKind>
        ensures { HasChanged (noted (OfVariable number) (pos 0) (Whole value)) self.old self.new result }
    {
        let subject = Subject::OfVariable { number };
        or_full(self.timeline.note(subject, 0, Value::Whole(value)))
    }

    /// Notes the value of an attribute of an entity. Faults: 1 to 5, then 14.
    #[inline(never)]
    pub fn note_attribute(
        &mut self,
        class: usize,
        field: usize,
        entity: i64,
    ) -> Result<(), FaultKind>
        requires class { class < length self.old.heap.layout.classes }
        requires mode { slice_get (modes_of self.old.heap.layout class) field ≡ Some Integer }
        ensures { HasChanged (attribute_noted class field entity) self.old self.new result }
    {
        match self.population.whole(class, field, entity) {
            Ok(value) => {
                let subject = Subject::OfAttribute { class, field };
                or_full(self.timeline.note(subject, entity, Value::Whole(value)))
            }
            Err(kind) => Err(kind),
        }
    }

    /// Notes N. of the set of an owner. Faults: 1 to 5, then 14.
    #[inline(never)]
    pub fn note_count(&mut self, set: usize, owner: i64) -> Result<(), FaultKind>
        requires set { set < length self.old.heap.layout.sets }
        ensures { HasChanged (count_noted set owner) self.old self.new result }
    {
        match self.population.member_count(set, owner) {
            Ok(count) => or_full(self.timeline.note_count(set, owner, count)),
            Err(kind) => Err(kind),
        }
    }

    // Whether an entity has a subject. Faults: 1 to 5.
    fn look_subject(&self, subject: Subject, entity: i64) -> Result<(), FaultKind>
        requires subject { IsSubject self.now.heap.layout subject }
        ensures { result ≡ looked_in self.now.heap subject entity }
    {
        match subject {
            Subject::OfVariable { .. } => Ok(()),
            Subject::OfAttribute { class, .. } => self.population.known(class, entity),
            Subject::OfCount { set } => self.population.look_owner(set, entity),
        }
    }

    // Whether an entity has the subject of a statistic. Faults: 1 to 5.
    fn look_statistic(&self, statistic: usize, entity: i64) -> Result<(), FaultKind>
        requires subject { HasValidSubject self.now statistic }
        ensures { (t : SubjectSeen) → subject_in self.now.statistics statistic ≡ Some t → result ≡ looked_in self.now.heap t entity }
    {
        match self.timeline.subject(statistic) {
            None => Err(FaultKind::NoEntity),
            Some(subject) => self.look_subject(subject, entity),
        }
    }

    /// What a statistic says of an entity: NUMBER, SUM, MAXIMUM or MINIMUM. Faults: 1 to 5, then 14 for a sum of more than 64 bits.
    #[inline(never)]
    pub fn figure(&self, fold: Fold, statistic: usize, entity: i64) -> Result<i64, FaultKind>
        requires subject { HasValidSubject self.now statistic }
        ensures { (o : Option ValueSeen) → IsReferenceToSubject self.now statistic o entity → HasAnswer (figure fold statistic o) self.now (as_value result) }
    {
        match self.look_statistic(statistic, entity) {
            Err(kind) => Err(kind),
            Ok(()) => match self.timeline.figure(fold, statistic, entity) {
                None => Err(FaultKind::NoEntity),
                Some(answer) => answer,
            },
        }
    }

    /// Whether a statistic has a mean of an entity. Faults: 1 to 5.
    #[inline(never)]
    pub fn look_mean(&self, statistic: usize, entity: i64) -> Result<(), FaultKind>
        requires subject { HasValidSubject self.now statistic }
        ensures { (o : Option ValueSeen) → IsReferenceToSubject self.now statistic o entity → HasAnswer (without_value (mean statistic o)) self.now result }
    {
        self.look_statistic(statistic, entity)
    }

    /// The exact sum and the number of which a statistic is the mean, of an entity. The number is at least 0, and their quotient,
    /// where it isn't 0, lies from -2^63 to 2^63, so that they can be printed. Faults: 1 to 5.
    #[inline(never)]
    pub fn mean(&self, statistic: usize, entity: i64) -> Result<(i128, i64), FaultKind>
        requires subject { HasValidSubject self.now statistic }
        ensures value { (o : Option ValueSeen) → IsReferenceToSubject self.now statistic o entity → HasAnswer (mean statistic o) self.now result }
        ensures is_mean { IfOk result (λ mean. IsMean mean.0 mean.1) }
    {
        match self.look_statistic(statistic, entity) {
            Err(kind) => Err(kind),
            Ok(()) => match self.timeline.mean(statistic, entity) {
                None => Err(FaultKind::NoEntity),
                Some(mean) => Ok(mean),
            },
        }
    }

    /// The global variable that a statistic is about, if it is about one.
    pub fn variable_of(&self, statistic: usize) -> Option<usize>
        ensures { result ≡ statistic_variable self.now.statistics statistic }
    {
        variable_in(self.timeline.subject(statistic))
    }

    // The value that a subject has, of an entity, where a global variable holds this. Faults: 1 to 5.
    fn present(&mut self, subject: Subject, entity: i64, held: i64) -> Result<i64, FaultKind>
        requires subject { IsSubject self.old.heap.layout subject }
        ensures value { as_value result ≡ present_in self.old.heap subject entity held }
        ensures same { self.new ≡ self.old }
    {
        match subject {
            Subject::OfVariable { .. } => Ok(held),
            Subject::OfAttribute { class, field } => self.population.whole(class, field, entity),
            Subject::OfCount { set } => self.population.member_count(set, entity),
        }
    }

    // The value that the subject of a statistic has, of an entity. Faults: 1 to 5.
    fn present_value(&mut self, statistic: usize, entity: i64, held: i64) -> Result<i64, FaultKind>
        requires subject { HasValidSubject self.old statistic }
        ensures value { (t : SubjectSeen) → subject_in self.old.statistics statistic ≡ Some t → as_value result ≡ present_in self.old.heap t entity held }
        ensures same { self.new ≡ self.old }
    {
        match self.timeline.subject(statistic) {
            None => Err(FaultKind::NoEntity),
            Some(subject) => self.present(subject, entity, held),
        }
    }

    // The history of a statistic of an entity starts afresh, with the present value.
    fn renew(&mut self, statistic: usize, entity: i64, present: i64) -> Result<(), FaultKind>
        ensures { HasChanged (renewed_known statistic entity present) self.old self.new result }
    {
        if self.timeline.renew(statistic, entity, present) {
            Ok(())
        } else {
            Err(FaultKind::NoEntity)
        }
    }

    /// The history of a statistic of an entity starts afresh, with the value that its subject has; a global variable
    /// (`variable_of`) holds this value. Faults: 1 to 5. Nothing changes after a fault.
    #[inline(never)]
    pub fn reset(&mut self, statistic: usize, entity: i64, held: i64) -> Result<(), FaultKind>
        requires subject { HasValidSubject self.old statistic }
        ensures { (o : Option ValueSeen) → IsReferenceToSubject self.old statistic o entity → HasChangedWhere (λ s. IsRight (reset statistic o s) × IsHeldBySubject statistic held s) (reset statistic o) self.old self.new result }
    {
        match self.present_value(statistic, entity, held) {
            Err(kind) => Err(kind),
            Ok(present) => self.renew(statistic, entity, present),
        }
    }
}

// The global variable that a subject is.
fn variable_in(subject: Option<Subject>) -> Option<usize>
    ensures { result ≡ variable_in subject }
{
    match subject {
        Some(Subject::OfVariable { number }) => Some(number),
        _ => None,
    }
}

// The answer of noting a value: a history that there is not notes nothing.
#[inline(always)]
fn or_full(answer: Result<(), Unnoted>) -> Result<(), FaultKind>
    ensures { result ≡ or_full answer }
{
    match answer {
        Ok(()) | Err(Unnoted::TypeError) => Ok(()),
        Err(Unnoted::Full) => Err(FaultKind::Overflow),
    }
}
