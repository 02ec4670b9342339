//! What a program says of its classes and sets, its notices and its statistics, copied for its code.

ghost use Rattle.std.specs.Prelude.{◌≡◌, slice_get, map, IfOk};
ghost use Rattle.ss_world.specs.State.{modes_of};
ghost use Rattle.ss_meaning.specs.Meaning.{tie_shapes, said_of};
ghost use Rattle.ss_program.specs.View.{view_event, view_program};
ghost use Rattle.ss_code.specs.Running.{said_by};

use crate::code::ProgramFacts;
use ss_base::{Layout, Mode};
use ss_code_instructions::NoticeClass;
use ss_program::sections::{Event, Program};
use ss_world::TieShape;
use std::alloc::{AllocError, Global};

// The mode of a field, where there is one.
fn mode_of_field(layout: &Layout, class: usize, field: usize) -> Option<Mode>
    ensures { result ≡ slice_get (modes_of layout.now class) field }
{
    match layout.classes.get(class) {
        None => None,
        Some(found) => found.fields.get(field).copied(),
    }
}

// What the ties of a class of notices are.
fn shapes(alloc: Global, layout: &Layout, event: &Event) -> Result<Vec<TieShape>, AllocError>
    ensures { IfOk result (λ made. made.items ≡ tie_shapes layout.now (view_event event.now)) }
{
    let mut made = Vec::new(alloc);
    for key in event.ties.as_slice() {
        if let Some(mode) = mode_of_field(layout, event.class, key.field) {
            made.push(TieShape {
                mode,
                high: key.high,
            })?;
        }
    }
    Ok(made)
}

// What the ties of all classes of notices are.
fn all_shapes(
    alloc: Global,
    layout: &Layout,
    events: &[Event],
) -> Result<Vec<Vec<TieShape>>, AllocError>
    ensures { IfOk result (λ made. map (λ shapes. shapes.items) made.items ≡ map (tie_shapes layout.now) (map view_event events.now)) }
{
    let mut made = Vec::new(alloc);
    for event in events {
        let own = shapes(alloc, layout, event)?;
        made.push(own)?;
    }
    Ok(made)
}

// The description of a class of notices.
fn notice_class(alloc: Global, event: &Event) -> Result<NoticeClass, AllocError>
    ensures { IfOk result (λ made. made ≡ said_of (view_event event.now)) }
{
    let ties = event.ties.clone()?;
    Ok(NoticeClass::new(
        event.class,
        ties,
        event.line,
        event.given.len(),
        event.saved,
    ))
}

// The descriptions of all classes of notices.
fn notice_classes(alloc: Global, events: &[Event]) -> Result<Vec<NoticeClass>, AllocError>
    ensures { IfOk result (λ made. made.items ≡ map said_of (map view_event events.now)) }
{
    let mut made = Vec::new(alloc);
    for event in events {
        let class = notice_class(alloc, event)?;
        made.push(class)?;
    }
    Ok(made)
}

/// What a program says, in memory of its own. The error comes where memory was refused.
pub(crate) fn program_facts(alloc: Global, program: &Program) -> Result<ProgramFacts, AllocError>
    ensures { IfOk result (λ said. said ≡ said_by (view_program program.now)) }
{
    let layout = program.layout.clone()?;
    let disciplines = program.disciplines.to_vec(alloc)?;
    let notices = notice_classes(alloc, &program.events)?;
    let ties = all_shapes(alloc, &program.layout, &program.events)?;
    let statistics = Vec::from_slice(alloc, &program.statistics)?;
    Ok(ProgramFacts {
        layout,
        disciplines,
        notices,
        ties,
        statistics,
    })
}
