//! The law of programs that break no rule.

ghost use Rattle.ss_check_laws.specs.ProgramLaws.{ProgramsResolve};

use crate::body_laws::laws;
use ss_names_laws::table_laws::{laws_of_sections, laws_of_tables};

/// A program that breaks no rule has a resolved form, and that is well typed.
pub fn programs_resolve()
    ensures { ProgramsResolve }
{
    laws();
    laws_of_tables();
    laws_of_sections();
}
