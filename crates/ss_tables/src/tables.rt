//! The tables of a program.

ghost use Rattle.std.specs.Prelude.{◌≡◌, ◌<◌, length, slice_get, option_map, is_some, Some, IfSome, IfOk, IfErr};
ghost use Rattle.std.specs.Map.{keys_of};
ghost use Rattle.ss_tree.specs.Tree.{ProgramTree};
ghost use Rattle.ss_tree.specs.View.{view_program_tree};
ghost use Rattle.ss_names_declarations.specs.Declarations.{declarations as declarations_seen};
ghost use Rattle.ss_names_declarations.specs.NameTable.{place_in};
ghost use Rattle.ss_tables_rules.specs.Broken.{refusal_of_declarations};
ghost use Rattle.ss_names_meaning.specs.Layouts.{layout};
ghost use Rattle.ss_tables.specs.Tables.{AreTablesOf, AreNamesUnless, IsReportedError, is_declared};

use ss_base::Layout;
use ss_names::{NameId, Names};
use ss_names_declarations::{Declaration, declarations_of};
use ss_names_laws::table_laws::laws_of_tables;
use ss_names_meaning::layout;
use ss_tables_rules::{TableError, refusal_of, seed_of};
use ss_tree::program::Program;
use std::alloc::{AllocError, Global};
use std::marker::Model;

/// What a program declares that breaks none of the rules on it, the refusals 51 to 60.
///
/// A contract sees the table of names (`Table` of ss_names).
#[derive(Drop)]
pub struct Tables {
    names: Names,
}

impl Model for Tables {
    ghost use Rattle.ss_names.specs.Table.{Table};
    ghost use Rattle.ss_tables.specs.Tables.{AreTables};

    ghost Value = { Table };

    ghost view = { λ t. t.names };

    ghost invariant = { λ t. AreTables t.names };
}

// The names, unless a rule is broken or memory was refused.
fn names_unless(
    names: Names,
    broken: Result<Option<TableError>, AllocError>,
) -> Result<Names, TableError>
    ensures { AreNamesUnless names broken result }
{
    match broken {
        Ok(None) => Ok(names),
        Ok(Some(error)) => {
            names.release();
            Err(error)
        }
        Err(_) => {
            names.release();
            Err(TableError::Memory)
        }
    }
}

// The table of names of a program with these declarations, if it breaks no rule.
fn names_of(
    alloc: Global,
    program: &Program,
    declarations: &[Declaration],
) -> Result<Names, TableError>
    requires { declarations.now ≡ declarations_seen (view_program_tree program.now) }
    ensures made { IfOk result (λ names. AreTablesOf (view_program_tree program.now) names) }
    ensures refused { IfErr result (λ e. IsReportedError e (refusal_of_declarations (view_program_tree program.now))) }
{
    let seed = seed_of(declarations);
    let (names, clash) = Names::of(alloc, seed, declarations)?;
    let broken = refusal_of(alloc, seed, &names, clash, declarations, program);
    names_unless(names, broken)
}

impl Tables {
    /// The tables of a program.
    ///
    /// # Errors
    /// The first rule that the program breaks by what it declares, in the order of their numbers 51 to 60,
    /// with the line of the first place where it does; `Memory` where memory is refused.
    pub fn of(alloc: Global, program: &Program) -> Result<Tables, TableError>
        ensures made { IfOk result (λ t. AreTablesOf (view_program_tree program.now) t) }
        ensures refused { IfErr result (λ e. IsReportedError e (refusal_of_declarations (view_program_tree program.now))) }
    {
        let declarations = declarations_of(alloc, program)?;
        let names = names_of(alloc, program, &declarations)?;
        Ok(Tables { names })
    }

    /// The global or derived name of this spelling, in capitals. None just where the program declares none.
    pub fn find(&self, spelling: &[u8]) -> Option<NameId>
        ensures declared { (p : ProgramTree) → AreTablesOf p self.now → is_some result ≡ is_declared p spelling.now }
        ensures place { option_map (λ id. id.0) result ≡ place_in self.now.meanings spelling.now }
        ensures named { IfSome result (λ id. slice_get (keys_of self.now.meanings) id.0 ≡ Some spelling.now) }
    {
        self.names.find(spelling)
    }

    /// How many global and derived names there are. They have the places below that.
    pub fn len(&self) -> usize
        ensures { result ≡ length self.now.meanings }
    {
        self.names.len()
    }

    /// The spelling of a name, which is one of these tables. It is found there again.
    pub fn name(&self, id: NameId) -> &[u8]
        requires { id.0 < length self.now.meanings }
        ensures spelled { slice_get (keys_of self.now.meanings) id.0 ≡ Some result.now }
        ensures found { place_in self.now.meanings result.now ≡ Some id.0 }
    {
        self.names.name(id)
    }

    /// The classes with their kinds and the modes of their fields, which are their attributes, and the sets with
    /// their owners and the classes of their members; each by its number in the table.
    ///
    /// # Errors
    /// `AllocError` where memory is refused.
    pub fn layout(&self, alloc: Global) -> Result<Layout, AllocError>
        ensures { IfOk result (λ laid. layout self.now ≡ Some laid) }
    {
        laws_of_tables();
        match layout(alloc, &self.names)? {
            Some(laid) => Ok(laid),
            None => unreachable!(),
        }
    }

    /// The table of names.
    pub fn names(&self) -> &Names
        ensures { result.now ≡ self.now }
    {
        &self.names
    }

    /// The table of names, in place of the tables.
    pub fn into_names(self) -> Names
        ensures { result ≡ self }
    {
        self.names
    }
}
