//! Laws of what a text means.

ghost use Rattle.ss_engine.specs.Laws.{EachHasOne, TextEndingsStay, NeverGoesWrong, OneMeaning, OneProgram, ProgramsAreTyped, RefusedIsIllFormed, ReportsGrow};

use ss_check::programs_resolve;
use ss_code_instructions::laws::laws_of_pieces;
use ss_lex::{one_answer, one_list};
use ss_meaning::laws::laws as laws_of_types;
use ss_parse::one_tree;

/// A well-formed text has one program, which is well typed and never goes wrong. So it means one run for each input and
/// each number of ticks.
pub fn laws()
    ensures one_program { OneProgram }
    ensures one_meaning { OneMeaning }
    ensures each_has_one { EachHasOne }
    ensures typed { ProgramsAreTyped }
    ensures never_wrong { NeverGoesWrong }
{
    one_list();
    one_tree();
    programs_resolve();
    laws_of_types();
}

/// A text that is refused is not well formed, but where memory was refused or its code is too long.
pub fn refusals_are_due()
    ensures refused { RefusedIsIllFormed }
{
    one_list();
    one_answer();
    one_tree();
}

/// More ticks extend the report of a text; and where it ends otherwise than by a pause, its
/// ending and its report stay for every greater number of them.
pub fn longer_bounds_extend_the_report()
    ensures reports_grow { ReportsGrow }
    ensures endings_stay { TextEndingsStay }
{
    laws();
    laws_of_pieces();
}
