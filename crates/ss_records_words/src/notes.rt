// The lists that the links show, for contracts alone.
ghost use Rattle.std.specs.Prelude.{◌≡◌, List, []};
ghost use base.Fml.{ftrue};
ghost use Rattle.ss_world.specs.State.{Members, members_of, with_members};
ghost use Rattle.ss_world.specs.Sets.{put_before, less};

use std::marker::Model;

/// It takes no space.
#[derive(Drop)]
pub struct Notes {
    ghost lists: { List Members },
}

impl Model for Notes {
    ghost also_owns = { λ _. ftrue };

    ghost also_shares = { λ _ _ _. ftrue };
}

impl Notes {
    pub fn new() -> Notes
        ensures { result.lists ≡ [] }
    {
        Notes {}
    }

    /// Notes that x is directly before y in the set s of the owner o, or last where y is no member.
    pub fn put_before(&mut self, s: usize, o: u64, x: u64, y: u64)
        ensures { self.new.lists ≡ with_members self.old.lists s o (put_before y x (members_of self.old.lists s o)) }
    {}

    /// Notes that x has left the set s of the owner o.
    pub fn take_out(&mut self, s: usize, o: u64, x: u64)
        ensures { self.new.lists ≡ with_members self.old.lists s o (less x (members_of self.old.lists s o)) }
    {}
}
