//! The first rule that a program breaks by what it declares.

ghost use Rattle.std.specs.Prelude.{◌≡◌, option_map, IfOk};
ghost use Rattle.ss_tables_rules.specs.declared.error.TableError.TheVariants as e;
ghost use Rattle.ss_tree.specs.View.{view_program_tree};
ghost use Rattle.ss_names.specs.Filling.{first_line};
ghost use Rattle.ss_names.specs.Table.{clashes, declared};
ghost use Rattle.ss_names_declarations.specs.Declarations.{declarations as declarations_seen};
ghost use Rattle.ss_tables_rules.specs.Broken.{refusal_of_declarations};

use crate::declarations::declared_breaks;
use crate::error::TableError;
use crate::keys::misranked;
use crate::modes::unmoded;
use crate::once::repeated;
use ss_base::{Line, Name};
use ss_names::Names;
use ss_names_declarations::{Declaration, Declared, Seed};
use ss_tree::program::Program;
use std::alloc::{AllocError, Global};
use std::hash::{DefaultHasher, Hash};

// The name that a declaration is of.
fn name_of(what: &Declared) -> Option<Name> {
    match what {
        Declared::Class { class: name, .. }
        | Declared::Attribute {
            attribute: name,
            ..
        }
        | Declared::Owner { set: name, .. }
        | Declared::Member { set: name, .. }
        | Declared::Variable { variable: name, .. }
        | Declared::Order { set: name, .. }
        | Declared::RankKey {
            attribute: name,
            ..
        }
        | Declared::Priority { class: name }
        | Declared::Ties { class: name }
        | Declared::TieKey {
            attribute: name,
            ..
        }
        | Declared::Subject { subject: name, .. }
        | Declared::Statistic {
            statistic: name,
            ..
        }
        | Declared::Routine { routine: name, .. }
        | Declared::Event { class: name, .. }
        | Declared::Parameter {
            parameter: name,
            ..
        }
        | Declared::Local { variable: name, .. } => Some(*name),
        Declared::Normally { .. } | Declared::PriorityOrder | Declared::Main => None,
    }
}

/// The seed for tables of the names of these declarations.
pub fn seed_of(declarations: &[Declaration]) -> Seed {
    let mut names = DefaultHasher::new();
    for declaration in declarations {
        name_of(&declaration.what).hash(&mut names);
    }
    Seed::of(&names)
}

// The breach of a name that is declared as two things.
fn clash_breach(clash: Option<Line>) -> Option<TableError>
    ensures { result ≡ option_map e.Twice clash }
{
    match clash {
        Some(line) => Some(TableError::Twice(line)),
        None => None,
    }
}

/// The first rule that a program breaks by what it declares, in the order of the rules' numbers, with the first line where
/// it does; None where it breaks none. The declarations are those of the program, the table is made from them, and the clash is
/// the first line where one of them declares a name as another thing than before.
///
/// # Errors
/// `AllocError` where memory is refused.
pub fn refusal_of(
    alloc: Global,
    seed: Seed,
    names: &Names,
    clash: Option<Line>,
    declarations: &[Declaration],
    program: &Program,
) -> Result<Option<TableError>, AllocError>
    requires declarations { declarations.now ≡ declarations_seen (view_program_tree program.now) }
    requires names { names.now ≡ declared declarations.now }
    requires clash { clash ≡ first_line (clashes declarations.now) }
    ensures { IfOk result (λ b. b ≡ refusal_of_declarations (view_program_tree program.now)) }
{
    let twice = clash_breach(clash);
    let once = repeated(alloc, seed, names, declarations, twice)?;
    let by_table = declared_breaks(names, declarations, once);
    let by_keys = misranked(names, &program.preamble, by_table);
    unmoded(alloc, names, &program.sections, by_keys)
}
