//! What is asked of a machine that rests. None is the answer where there is nothing of that kind.

ghost use Rattle.std.specs.Prelude.{◌↔◌, ◌<◌, IsTrue, length};
ghost use Rattle.ss_world.specs.State.{modes_of};

use ss_base::{Layout, Mode, Value};
use ss_code_instructions::address::Address;
use ss_code_instructions::instruction::Instruction;
use ss_machine::Machine;
use ss_program::expression::Fold;

/// The instruction at which it is.
pub fn instruction(machine: &Machine) -> Option<Instruction> {
    machine.code().instruction(machine.here().place)
}

/// TIME.V.
pub fn time(machine: &Machine) -> i64 {
    machine.state().world.timeline.time()
}

/// The value of this mode at a place of the rows: the global variables lie in the first places, by their numbers.
pub fn value(machine: &Machine, place: usize, mode: Mode) -> Option<Value> {
    let rows = &machine.state().rows;
    if place >= rows.len() {
        return None;
    }
    Some(match mode {
        Mode::Integer => Value::Whole(rows.number_at(place)),
        Mode::Alpha => Value::Text(rows.text_at(place)),
    })
}

/// The whole number at an address of the present frame.
pub fn number(machine: &Machine, address: &Address) -> Option<i64> {
    let place = (machine.here().frame & address.mask).saturating_add(address.number);
    match value(machine, place, Mode::Integer) {
        Some(Value::Whole(number)) => Some(number),
        _ => None,
    }
}

// Whether there is a class of this number, with a field of this number.
fn has_field(layout: &Layout, class: usize, field: usize) -> bool
    ensures { IsTrue result ↔ ((class < length layout.now.classes) × (field < length (modes_of layout.now class))) }
{
    match layout.classes.get(class) {
        Some(found) => field < found.fields.len(),
        None => false,
    }
}

/// An attribute of an entity.
pub fn attribute(machine: &Machine, class: usize, field: usize, entity: i64) -> Option<Value> {
    let population = &machine.state().world.population;
    if !has_field(population.layout(), class, field) {
        return None;
    }
    population.value(class, field, entity).ok()
}

/// NUMBER, SUM, MAXIMUM or MINIMUM of a statistic of an entity. None where it has none, or a sum is an OVERFLOW.
pub fn figure(machine: &Machine, fold: Fold, statistic: usize, entity: i64) -> Option<i64> {
    let timeline = &machine.state().world.timeline;
    timeline.figure(fold, statistic, entity)?.ok()
}

/// The exact sum and the number of which a statistic of an entity is the mean.
pub fn mean(machine: &Machine, statistic: usize, entity: i64) -> Option<(i128, i64)> {
    machine.state().world.timeline.mean(statistic, entity)
}

/// The class of a temporary entity or a notice.
pub fn class_of(machine: &Machine, entity: i64) -> Option<usize> {
    machine.state().world.population.class_of(entity)
}

/// How many entities are living, permanent ones and notices among them.
pub fn living_count(machine: &Machine) -> u64 {
    machine.state().world.population.living_count()
}
