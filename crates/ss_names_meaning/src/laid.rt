//! What the table lays out, in one struct.

ghost use Rattle.ss_names_meaning.specs.Answers.{HasGiven};
ghost use Rattle.ss_names_meaning.specs.Layouts.{resolved_layout};
ghost use Rattle.ss_names_meaning.specs.View.{view_laid};

use crate::error::ResolveError;
use crate::globals::{resolve_counts, resolve_statistics};
use crate::layouts::resolve_layout;
use crate::ranking::resolve_disciplines;
use ss_base::{Discipline, Layout, Mode};
use ss_names::Names;
use ss_program::sections::Statistic;
use ss_program::statement::CountedClass;
use std::alloc::Global;

/// What the table lays out: classes, sets and their disciplines, global variables and statistics.
#[derive(Drop)]
pub struct Laid {
    pub layout: Layout,
    pub disciplines: Vec<Discipline>,
    pub globals: Vec<Mode>,
    pub counts: Vec<CountedClass>,
    pub statistics: Vec<Statistic>,
}

/// What the table of names lays out.
pub fn lay_out(alloc: Global, names: &Names) -> Result<Laid, ResolveError>
    ensures { HasGiven view_laid result (resolved_layout names.now) }
{
    let layout = resolve_layout(alloc, names)?;
    let disciplines = resolve_disciplines(alloc, names)?;
    let globals = Vec::from_slice(alloc, names.variables.values())?;
    let counts = resolve_counts(alloc, names)?;
    let statistics = resolve_statistics(alloc, names)?;
    Ok(Laid {
        layout,
        disciplines,
        globals,
        counts,
        statistics,
    })
}
