//! Sets: filing by the discipline, and where walks along them begin.

ghost use Rattle.std.specs.Prelude.{◌≡◌, ◌<◌, length, Some, slice_get};
ghost use Rattle.ss_base.specs.declared.layout.Discipline.{Discipline};
ghost use Rattle.ss_meaning.specs.Sets.{outset};
ghost use Rattle.ss_world.specs.Disciplines.{HasMemberKeys, filed};
ghost use Rattle.ss_machine_world.specs.Numbers.{begun_from};
ghost use Rattle.ss_machine_world.specs.Seen.{HasRearranged};

use crate::world::World;
use ss_base::FaultKind;

impl World {
    /// Files a member in the set of an owner, 0 for the system, by the discipline of the set. No history notes that. Faults: those
    /// of the member (1 to 5), those of the owner, then 6.
    #[inline(always)]
    pub fn file_ranked(&mut self, set: usize, owner: i64, member: i64) -> Result<(), FaultKind>
        requires set { set < length self.old.heap.layout.sets }
        requires keys { (d : Discipline) → slice_get self.old.disciplines set ≡ Some d → HasMemberKeys self.old.heap.layout set d }
        ensures { (d : Discipline) → slice_get self.old.disciplines set ≡ Some d → HasRearranged (λ h. filed h d set owner member) self.old self.new result }
    {
        match self.disciplines.get(set) {
            None => Err(FaultKind::NoEntity),
            Some(discipline) => self.population.file(discipline, set, owner, member),
        }
    }

    /// The member with which a walk begins: the first of the set of an owner, or in reverse the last, 0 for none. Faults: 1 to 5.
    #[inline(never)]
    pub fn begun(&mut self, set: usize, owner: i64, reverse: bool) -> Result<i64, FaultKind>
        requires set { set < length self.old.heap.layout.sets }
        ensures value { result ≡ outset reverse self.old.heap set owner }
        ensures same { self.new ≡ self.old }
    {
        if reverse {
            self.population.last(set, owner)
        } else {
            self.population.first(set, owner)
        }
    }

    /// The member with which a walk begins that goes from a member on, or from the one that comes after it, 0 for none. Faults: those
    /// of the member (1 to 5), those of the owner, then 7 where it is not in this set.
    #[inline(never)]
    pub fn begun_at(
        &mut self,
        set: usize,
        owner: i64,
        member: i64,
        reverse: bool,
        after: bool,
    ) -> Result<i64, FaultKind>
        requires set { set < length self.old.heap.layout.sets }
        ensures value { result ≡ begun_from reverse after self.old.heap set owner member }
        ensures same { self.new ≡ self.old }
    {
        match self.population.is_in(set, owner, member) {
            Err(kind) => Err(kind),
            Ok(false) => Err(FaultKind::NotFiled),
            Ok(true) => {
                if !after {
                    Ok(member)
                } else if reverse {
                    self.population.previous(set, member)
                } else {
                    self.population.next(set, member)
                }
            }
        }
    }
}
