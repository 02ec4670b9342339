//! What a PRINT shows.

ghost use Rattle.std.specs.Prelude.{◌≡◌, ◌+◌, ◌<◌, ◌^◌, length, Option, Some, OnOk};
ghost use Rattle.std.specs.List.{AllByRecursion};
ghost use Rattle.ss_base.specs.declared.value.Value.{Value as ValueSeen};
ghost use Rattle.ss_code_instructions.specs.Machine.{mean_item};
ghost use Rattle.ss_meaning.specs.Statistics.{mean};
ghost use Rattle.ss_meaning.specs.Store.{Store};
ghost use Rattle.ss_machine_world.specs.Seen.{with_seen};
ghost use Rattle.ss_machine_world.specs.Numbers.{HasValidSubject, IsReferenceToSubject};
ghost use Rattle.ss_picture.specs.declared.items.Item.{Item as ItemSeen};
ghost use Rattle.ss_machine.specs.Shown.{IsPrintable, CanShowOne, CanShow, AreShown, IsShown, cells_of};

use ss_base::Value;
use ss_code_instructions::item::ItemKind;
use ss_machine_instructions::state::State;
use ss_picture::Item;
use std::alloc::{AllocError, Global};

/// What printing uses again and again, so that it takes no memory once it has some: the line that is filled, and the items
/// that are shown.
#[derive(Drop)]
pub struct Buffers {
    pub(crate) line: Vec<u8>,
    pub(crate) items: Vec<Item>,
}

impl Buffers {
    /// Neither has any memory yet.
    pub fn new(alloc: Global) -> Buffers {
        Buffers {
            line: Vec::new(alloc),
            items: Vec::new(alloc),
        }
    }
}

// A mean as an item. It was looked at before, so that there is one.
fn mean_item(state: &State, statistic: usize, entity: i64) -> Item
    requires { HasValidSubject state.now.world statistic }
    ensures shown { (o : Option ValueSeen) → IsReferenceToSubject state.now.world statistic o entity → (s : Store) (x : ItemSeen) → mean_item (mean statistic o (with_seen s state.now.world)) ≡ Some x → x ≡ result }
    ensures printable { IsPrintable result }
{
    match state.world.mean(statistic, entity) {
        Ok((sum, number)) => Item::Mean(sum, number),
        Err(_) => Item::Mean(0, 0),
    }
}

// The item of a kind, which takes the value at a place, if it takes one.
fn item_of(state: &State, kind: ItemKind, at: usize) -> Item
    requires { CanShowOne state.now.world state.now.rows at kind }
    ensures shown { IsShown state.now.world state.now.rows at kind result }
    ensures printable { IsPrintable result }
{
    match kind {
        ItemKind::Number => Item::Is(Value::Whole(state.rows.number_at(at))),
        ItemKind::Text => Item::Is(Value::Text(state.rows.text_at(at))),
        ItemKind::Mean { statistic } => mean_item(state, statistic, 0),
        ItemKind::MeanOf { statistic } => {
            let entity = state.rows.number_at(at);
            mean_item(state, statistic, entity)
        }
    }
}

// How many cells an item of a kind takes.
fn cells_of(kind: ItemKind) -> usize
    ensures { result ≡ cells_of kind }
{
    match kind {
        ItemKind::Mean { .. } => 0,
        ItemKind::Number | ItemKind::Text | ItemKind::MeanOf { .. } => 1,
    }
}

/// Fills a buffer, whatever it holds, with the items of these kinds, which take the values from a place on.
pub(crate) fn show(
    items: &mut Vec<Item>,
    state: &State,
    kinds: &[ItemKind],
    from: usize,
) -> Result<(), AllocError>
    requires can { CanShow state.now.world state.now.rows from kinds.now }
    requires small { length state.now.rows.numbers < 2 ^ 63 }
    ensures shown { OnOk result (AreShown state.now.world state.now.rows from kinds.now items.new.items) }
    ensures printable { OnOk result (AllByRecursion IsPrintable items.new.items) }
{
    // The checker needs to see the type of what an item holds.
    let _value = Value::Whole(0);
    items.clear();
    let mut at = from;
    for kind in kinds {
        let item = item_of(state, *kind, at);
        items.push(item)?;
        at += cells_of(*kind);
    }
    Ok(())
}
