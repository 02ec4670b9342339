//! The statements of sections in one list, with those inside others.

use explain_pages::Made;
use ss_tree::program::Section;
use ss_tree::statement::Statement;
use std::alloc::Global;

/// A statement, and the one after it, if they are side by side.
#[derive(Clone, Copy)]
pub struct Listed<'a> {
    pub statement: &'a Statement,
    pub next: Option<&'a Statement>,
}

// Adds the statements of a body, without those inside them.
fn add_body<'a>(all: &mut Vec<Listed<'a>>, body: &'a [Statement]) -> Made<()> {
    for (place, statement) in body.iter().enumerate() {
        let next = body.get(place.saturating_add(1));
        all.push(Listed { statement, next })?;
    }
    Ok(())
}

// The bodies inside a statement.
fn bodies_of(statement: &Statement) -> (&[Statement], &[Statement]) {
    match statement {
        Statement::If {
            then,
            otherwise,
            ..
        }
        | Statement::FindIf {
            then,
            otherwise,
            ..
        } => (then.as_slice(), otherwise.as_slice()),
        Statement::Loop { body, .. } => (body.as_slice(), &[]),
        _ => (&[], &[]),
    }
}

// Adds the statements inside those that are listed, and inside these.
fn add_inner<'a>(all: &mut Vec<Listed<'a>>) -> Made<()> {
    for place in 0..u64::MAX {
        let Some(one) = all.get(place as usize).copied() else {
            break;
        };
        let (first, second) = bodies_of(one.statement);
        add_body(all, first)?;
        add_body(all, second)?;
    }
    Ok(())
}

/// The statements of sections, each before those inside it.
pub fn statements_of(alloc: Global, sections: &[Section]) -> Made<Vec<Listed<'_>>> {
    let mut all = Vec::new(alloc);
    for section in sections {
        add_body(&mut all, &section.body)?;
    }
    add_inner(&mut all)?;
    Ok(all)
}

/// The line of the first STOP of a section, with those inside other statements last.
pub fn stop_in(alloc: Global, section: &Section) -> Made<Option<u32>> {
    let mut all = Vec::new(alloc);
    add_body(&mut all, &section.body)?;
    add_inner(&mut all)?;
    Ok(first_stop(all.as_slice()))
}

fn first_stop(all: &[Listed<'_>]) -> Option<u32> {
    for one in all {
        if let Statement::Stop { line } = one.statement {
            return Some(line.0);
        }
    }
    None
}

/// The line of a statement.
pub fn line_of(statement: &Statement) -> u32 {
    match statement {
        Statement::Let { line, .. }
        | Statement::Add { line, .. }
        | Statement::Subtract { line, .. }
        | Statement::Call { line, .. }
        | Statement::Return { line }
        | Statement::Stop { line }
        | Statement::Read { line, .. }
        | Statement::StartSimulation { line }
        | Statement::If { line, .. }
        | Statement::Loop { line, .. }
        | Statement::Find { line, .. }
        | Statement::FindIf { line, .. }
        | Statement::Create { line, .. }
        | Statement::CreateEvery { line, .. }
        | Statement::Destroy { line, .. }
        | Statement::File { line, .. }
        | Statement::RemoveEnd { line, .. }
        | Statement::Remove { line, .. }
        | Statement::ScheduleNew { line, .. }
        | Statement::Schedule { line, .. }
        | Statement::Cancel { line, .. }
        | Statement::Reset { line, .. }
        | Statement::Print { line, .. }
        | Statement::Skip { line, .. } => line.0,
    }
}
