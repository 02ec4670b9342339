//! A program whose names are looked at.

use explain_pages::Made;
use ss_lex::Token;
use ss_names::Names;
use ss_names_scopes::Locals;
use ss_names_uses::{Use, uses_of};
use ss_tree::program::{Program, Section};
use std::alloc::Global;

/// A program, with its tokens, its table, and the uses and the local variables of its sections.
#[derive(Clone, Copy)]
pub struct Read<'a> {
    pub tokens: &'a [Token],
    pub program: &'a Program,
    pub names: &'a Names,
    pub uses: &'a [Vec<Use>],
    pub locals: &'a [Locals],
}

/// The uses of each section.
pub fn all_uses(alloc: Global, sections: &[Section]) -> Made<Vec<Vec<Use>>> {
    let mut all = Vec::new(alloc);
    for section in sections {
        let one = uses_of(alloc, section)?;
        all.push(one)?;
    }
    Ok(all)
}
