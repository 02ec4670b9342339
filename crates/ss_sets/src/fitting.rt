// Whether a discipline fits a set.
ghost use Rattle.std.specs.Prelude.{◌↔◌, ◌<◌, length, IsTrue};
ghost use Rattle.ss_world.specs.Disciplines.{HasMemberKeys};

use ss_base::{Discipline, Layout};

/// Whether the keys of a discipline are fields of the class of a set's members, which `file` asks of its caller.
pub fn fits(layout: &Layout, set: usize, discipline: &Discipline) -> bool
    requires set { set < length layout.now.sets }
    ensures { IsTrue result ↔ HasMemberKeys layout.now set discipline.now }
{
    match discipline {
        Discipline::Fifo | Discipline::Lifo => true,
        Discipline::Ranked(keys) => {
            let fields = match layout.classes.get(layout.sets[set].member) {
                Some(class) => class.fields.len(),
                None => 0,
            };
            keys.as_slice().iter().all(|key| key.field < fields)
        }
    }
}
