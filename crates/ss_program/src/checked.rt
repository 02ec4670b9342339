//! Programs that are well typed.

use crate::sections::Program;
use std::marker::Model;

/// A program that is well typed: there is no other way to make one than to show that.
///
/// A contract sees it as the program.
#[derive(Drop)]
pub struct Checked {
    pub(crate) program: Program,
}

impl Model for Checked {
    ghost use Rattle.std.specs.Coded.{codes};
    ghost use Rattle.ss_program.specs.declared.sections.Program.{Program as ProgramSeen};
    ghost use Rattle.ss_program.specs.contracts.sections.Program as row;
    ghost use Rattle.ss_program.specs.View.{view_program};
    ghost use Rattle.ss_program.specs.WellTyped.{IsWellTyped};

    ghost Value = { ProgramSeen };

    ghost coded = { Prim.hlevel (codes, row.the_row.coded) };

    ghost view = { λ c. c.program };

    ghost invariant = { λ c. IsWellTyped (view_program c.program) };
}
