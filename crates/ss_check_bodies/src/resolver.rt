//! What the names of a section are resolved by.

use ss_names_scopes::Scope;
use std::alloc::Global;

/// Resolves the names of a section by what they mean in its scope. What it makes is in memory of this allocator.
///
/// A contract sees its scope (`scope_in`).
#[derive(Clone, Copy)]
pub struct Resolver<'a> {
    pub alloc: Global,
    pub scope: Scope<'a>,
}
