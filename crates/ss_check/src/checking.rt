//! The check of a program.

ghost use Rattle.std.specs.Prelude.{◌≡◌, ◌≤◌, map, None, IfOk, IfErr, OnOk};
ghost use Rattle.ss_tree.specs.Nodes.{tree_nodes};
ghost use Rattle.ss_tree.specs.View.{view_program_tree, view_section};
ghost use Rattle.ss_tables_rules.specs.Broken.{refusal_of_declarations as declared_refusal};
ghost use Rattle.ss_names.specs.Table.{table};
ghost use Rattle.ss_names_scopes.specs.Locals.{locals_of};
ghost use Rattle.ss_program.specs.Checking.{checked_program};
ghost use Rattle.ss_program.specs.Nodes.{nodes};
ghost use Rattle.ss_program.specs.View.{view_program as program_seen};
ghost use Rattle.ss_tables.specs.Tables.{AreTablesOf, IsReportedError};
ghost use Rattle.ss_check.specs.Checking.{HasProgram, IsReportedBreach, refusal_of};

use crate::program::resolve;
use ss_check_laws::program_laws::programs_resolve;
use ss_check_laws::size_laws::laws_of_sizes;
use ss_check_rules::{CheckError, judge};
use ss_names::Names;
use ss_names_scopes::Locals;
use ss_program::checked::Checked;
use ss_tables::{TableError, Tables};
use ss_tree::program::Program;
use ss_tree::release::release_tree;
use std::alloc::Global;

// The local variables of each section, if the program breaks no rule on what it does with its names.
fn keep_rules(alloc: Global, program: &Program, names: &Names) -> Result<Vec<Locals>, CheckError>
    requires { names.now ≡ table (view_program_tree program.now) }
    ensures locals { IfOk result (λ found. found.items ≡ map (locals_of names.now) (map view_section program.now.sections.items)) }
    ensures kept { OnOk result (refusal_of (view_program_tree program.now) ≡ None) }
    ensures refused { IfErr result (λ e. IsReportedBreach e (refusal_of (view_program_tree program.now))) }
{
    let (broken, locals) = judge(alloc, program, names)?;
    match broken {
        Some(error) => Err(error),
        None => Ok(locals),
    }
}

// The resolved program, by its table, if it breaks no rule.
fn checked(alloc: Global, program: &Program, names: &Names) -> Result<Checked, CheckError>
    requires names { names.now ≡ table (view_program_tree program.now) }
    requires declared { declared_refusal (view_program_tree program.now) ≡ None }
    ensures checked { IfOk result (λ c. HasProgram (view_program_tree program.now) (checked_program c)) }
    ensures nodes { IfOk result (λ c. nodes (program_seen (checked_program c)) ≤ tree_nodes (view_program_tree program.now)) }
    ensures refused { IfErr result (λ e. IsReportedBreach e (refusal_of (view_program_tree program.now))) }
{
    programs_resolve();
    laws_of_sizes();
    let locals = keep_rules(alloc, program, names)?;
    match resolve(alloc, program, names, &locals)? {
        Some(resolved) => Ok(Checked::new(resolved)),
        None => unreachable!(),
    }
}

/// The program with its names resolved, if it breaks no rule on what it does with its names and values, the refusals
/// 71 to 79. The tables are those of the program.
///
/// The result is well typed, and has no more nodes than the tree.
///
/// # Errors
/// The first rule that the program breaks, in the order 71, 72, 78, 79, 75, 76, 74, 73, 77, with the line of
/// the first place where it does, 0 for `NoMain`; `Memory` where memory is refused.
pub fn check(alloc: Global, program: Program, tables: Tables) -> Result<Checked, CheckError>
    requires tables { AreTablesOf (view_program_tree program) tables }
    ensures checked { IfOk result (λ c. HasProgram (view_program_tree program) (checked_program c)) }
    ensures nodes { IfOk result (λ c. nodes (program_seen (checked_program c)) ≤ tree_nodes (view_program_tree program)) }
    ensures refused { IfErr result (λ e. IsReportedBreach e (refusal_of (view_program_tree program))) }
{
    let names = tables.into_names();
    let result = checked(alloc, &program, &names);
    names.release();
    release_tree(program);
    result
}

/// The program with its names resolved, if it breaks no rule: its tables are made, and it is checked by them.
///
/// # Errors
/// As [`Tables::of`] where it breaks a rule by what it declares, 51 to 60. Else the answer within is that of [`check`].
pub fn check_tree(
    alloc: Global,
    program: Program,
) -> Result<Result<Checked, CheckError>, TableError>
    ensures misdeclared { IfErr result (λ e. IsReportedError e (declared_refusal (view_program_tree program))) }
    ensures declared { IfOk result (λ r. declared_refusal (view_program_tree program) ≡ None) }
    ensures checked { IfOk result (λ r. IfOk r (λ c. HasProgram (view_program_tree program) (checked_program c))) }
    ensures nodes { IfOk result (λ r. IfOk r (λ c. nodes (program_seen (checked_program c)) ≤ tree_nodes (view_program_tree program))) }
    ensures refused { IfOk result (λ r. IfErr r (λ e. IsReportedBreach e (refusal_of (view_program_tree program)))) }
{
    match Tables::of(alloc, &program) {
        Ok(tables) => Ok(check(alloc, program, tables)),
        Err(error) => {
            release_tree(program);
            Err(error)
        }
    }
}
