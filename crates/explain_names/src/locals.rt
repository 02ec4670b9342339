//! Notes on local names: those that are assigned and never used, or used and never assigned.

use crate::needs::{Need, names_serving};
use explain_pages::Part::{Bytes, Words};
use explain_pages::{Made, Page, nearest};
use ss_base::Name;
use ss_names::Names;
use ss_names_scopes::{Locals, local_of};
use ss_names_uses::{Role, Use, Used};
use std::alloc::Global;

/// The most notes of a kind, or on the names of a section.
pub const NOTED: usize = 20;

/// The most names that one is compared with.
const COMPARED: usize = 1000;

/// How a local name is used in a section: the first line that assigns it, and the first that takes its value.
#[derive(Clone, Copy)]
struct Usage {
    name: Name,
    assigned: Option<u32>,
    taken: Option<u32>,
    /// Whether the head of the section or a DEFINE names it.
    is_declared: bool,
}

// Notes a use of a local name.
fn note_use(usage: &mut Usage, one: &Use) {
    let line = Some(one.line.0);
    match &one.what {
        Used::Place { role, .. } => {
            if matches!(role, Role::Target | Role::LoopVariable) {
                usage.assigned = usage.assigned.or(line);
            }
            if !matches!(role, Role::Target) {
                usage.taken = usage.taken.or(line);
            }
        }
        _ => usage.is_declared = true,
    }
}

// How each local name of a section is used, by its number: they are numbered as they are used first.
fn usages_of(alloc: Global, names: &Names, locals: &Locals, uses: &[Use]) -> Made<Vec<Usage>> {
    let mut usages = Vec::new(alloc);
    for one in uses {
        if let Some(name) = local_of(names, &one.what) {
            let number = locals.number(&name).unwrap_or(usize::MAX);
            if number == usages.len() {
                let line: Option<u32> = None;
                usages.push(Usage {
                    name,
                    assigned: line,
                    taken: line,
                    is_declared: false,
                })?;
            }
            if let Some(usage) = usages.get_mut(number) {
                note_use(usage, one);
            }
        }
    }
    Ok(usages)
}

// What is odd about how a local name is used: the line, and the words for it.
fn oddity_of(usage: &Usage) -> Option<(u32, &'static str)> {
    if usage.is_declared {
        return None;
    }
    match (usage.assigned, usage.taken) {
        (Some(line), None) => Some((line, "a value is put into this local name, and never used")),
        (None, Some(line)) => Some((
            line,
            "this local name is used, and nothing is put into it: it is 0",
        )),
        _ => None,
    }
}

// The name that is spelled most like this local one: of a value for all sections, or of another local one.
fn likely_name(alloc: Global, names: &Names, usages: &[Usage], name: &Name) -> Made<Option<Name>> {
    let mut near = names_serving(alloc, names, Need::Value, COMPARED)?;
    for one in usages.iter().take(COMPARED) {
        near.push(one.name)?;
    }
    nearest(alloc, name.bytes(), near.as_slice())
}

// Whether a local name is used oddly, which is then noted.
fn note_local(page: &mut Page<'_>, names: &Names, usages: &[Usage], usage: &Usage) -> Made<bool> {
    let Some((line, words)) = oddity_of(usage) else {
        return Ok(false);
    };
    let likely = likely_name(page.alloc(), names, usages, &usage.name)?;
    let (name, words) = (Bytes(usage.name.bytes()), Words(words));
    match &likely {
        Some(found) => {
            let parts = [name, words, Bytes(found.bytes())];
            page.note(line, ", {}: {}. Is it {}?", &parts)?;
        }
        None => page.note(line, ", {}: {}", &[name, words])?,
    }
    Ok(true)
}

fn note_locals(page: &mut Page<'_>, names: &Names, usages: &[Usage]) -> Made<()> {
    let mut count: usize = 0;
    for usage in usages {
        if count >= NOTED || page.is_full() {
            break;
        }
        if note_local(page, names, usages, usage)? {
            count = count.saturating_add(1);
        }
    }
    Ok(())
}

/// Adds notes on the local names of a section.
pub fn add_locals(page: &mut Page<'_>, names: &Names, locals: &Locals, uses: &[Use]) -> Made<()> {
    let usages = usages_of(page.alloc(), names, locals, uses)?;
    note_locals(page, names, usages.as_slice())
}
