// Whether an entity has members in a set.
ghost use Rattle.std.specs.Prelude.{◌≡◌, ℕ, suc, ◌+◌, ◌^◌, ◌<◌, Some, slice_get, length};
ghost use Rattle.ss_base.specs.declared.layout.SetLayout.{SetLayout};
ghost use Rattle.ss_world.specs.State.{has_members, members_of};
ghost use Rattle.ss_records_words.specs.Places.{class_at_place};
ghost use Rattle.ss_records_entities.specs.Parts.{IsKept};

use crate::records::Records;
use ss_base::Owner;
use ss_records_blocks::BlockPlace;

impl Records {
    /// Whether the entity has members in its set of the name s: a touch.
    pub fn owns_in(&mut self, s: usize, place: BlockPlace, number: u64) -> bool
        requires kept { IsKept self.old }
        requires set { s < length self.old.layout.sets }
        requires entry { (i : ℕ) × (slice_get self.old.directory.places i ≡ Some (Some place)) × (number ≡ suc i) }
        requires class { (t : SetLayout) → slice_get self.old.layout.sets s ≡ Some t → t.owner ≡ Owner.Class (class_at_place self.old.blocks.cells place) }
        requires touches { self.old.blocks.touches + 1 < 2 ^ 64 }
        ensures value { result ≡ has_members (members_of self.old.notes.lists s number) }
        ensures same { self.new ≡ record self.old { blocks = self.new.blocks } }
        ensures cells { self.new.blocks.cells ≡ self.old.blocks.cells }
        ensures touches { (self.new.blocks.touches ≡ self.old.blocks.touches + 1) × (self.new.blocks.total ≡ self.old.blocks.total + 1) }
    {
        let base = self.layout.owner_base(s);
        self.blocks.count(place, base + 2) != 0
    }
}
