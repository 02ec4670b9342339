//! Local variables.

ghost use Rattle.std.specs.Prelude.{◌≡◌, ◌==◌, map, length, slice_get, IfOk, OnOk};
ghost use Rattle.std.specs.List.{flat_map, fold, position};
ghost use Rattle.std.specs.Map.{keys_of, values_of, lookup};
ghost use Rattle.std.specs.Option.{option_or};
ghost use Rattle.ss_names_declarations.specs.NameTable.{first_entries, same_name, value_for, with_first};
ghost use Rattle.ss_names_scopes.specs.Locals.{defined, defined_by, is_local_place, may_be_variable, local_of, local_place, local_used, locals, moded_in, uses_seen};

use ss_base::{Mode, Name};
use ss_names::{Names, value_mode};
use ss_names_declarations::{Seed, Table, insert_first, value_at};
use ss_names_uses::{Role, Use, Used};
use ss_tree::expression::Designator;
use std::alloc::{AllocError, Global};
use std::hash::{DefaultHasher, Hash};
use std::marker::Model;

/// The local variables of a section, each with its mode, in the order of their numbers: parameters, given ones before
/// yielded ones, then those of DEFINEs, then those that are only used. A mode that nothing gives is None.
///
/// A contract sees the list of their names with their modes.
#[derive(Drop)]
pub struct Locals {
    entries: Table<Name, Option<Mode>>,
}

impl Model for Locals {
    ghost use Rattle.std.specs.Prelude.{List, Option, ℕ};
    ghost use Rattle.ss_base.specs.declared.layout.Mode.{Mode as ValueMode};

    ghost Value = { List (List ℕ × Option ValueMode) };

    ghost view = { λ l. l.entries };
}

// Whether a name without subscript is a variable in this role.
fn may_be_variable(role: Role) -> bool
    ensures { result ≡ may_be_variable role }
{
    match role {
        Role::Set => false,
        _ => true,
    }
}

// Whether a name with so many subscripts is a local variable in this role.
fn is_local_place(names: &Names, role: Role, name: &Name, subscripts: usize) -> bool
    ensures { result ≡ is_local_place names.now role name.now subscripts }
{
    may_be_variable(role) && subscripts == 0 && names.meaning(name).is_none()
}

// The local variable that a place names.
fn local_place(names: &Names, role: Role, place: &Designator, subscripts: usize) -> Option<Name>
    ensures { result ≡ local_place names.now role place.now subscripts }
{
    match place {
        Designator::Name(name) => {
            if is_local_place(names, role, name, subscripts) {
                Some(*name)
            } else {
                None
            }
        }
        Designator::TimeV => None,
        Designator::TimeA => None,
    }
}

/// The local variable that a use names: a parameter, one of a DEFINE, or a name without subscript that is used as a
/// variable and isn't global.
pub fn local_of(names: &Names, used: &Used) -> Option<Name>
    ensures { result ≡ local_of names.now used.now }
{
    match used {
        Used::Parameter { name } => Some(*name),
        Used::Local { name, .. } => Some(*name),
        Used::Place {
            role,
            place,
            subscripts,
            ..
        } => local_place(names, *role, place, *subscripts),
        _ => None,
    }
}

// The seed for a table of the names that are used here.
fn seed_of(uses: &[Use]) -> Seed {
    let mut names = DefaultHasher::new();
    for one in uses {
        match &one.what {
            Used::Parameter { name } | Used::Local { name, .. } => name.hash(&mut names),
            Used::Place {
                place: Designator::Name(name),
                ..
            } => name.hash(&mut names),
            _ => {}
        }
    }
    Seed::of(&names)
}

// Adds the mode that a use gives, if it is a local DEFINE.
fn add_mode(modes: &mut Table<Name, Mode>, used: &Used) -> Result<(), AllocError>
    ensures { OnOk result (modes.new ≡ fold with_first modes.old (defined_by used.now)) }
{
    match used {
        Used::Local { name, mode } => insert_first(modes, *name, value_mode(*mode)),
        _ => Ok(()),
    }
}

// The modes that local DEFINEs give.
fn modes_of(alloc: Global, seed: Seed, uses: &[Use]) -> Result<Table<Name, Mode>, AllocError>
    ensures { IfOk result (λ modes. modes ≡ first_entries (defined uses.now)) }
{
    let mut modes = Table::new(alloc, seed);
    for one in uses {
        add_mode(&mut modes, &one.what)?;
    }
    Ok(modes)
}

// The mode of a local variable: the first that DEFINEs give it, or else that of NORMALLY.
fn mode_in(names: &Names, modes: &Table<Name, Mode>, name: &Name) -> Option<Mode>
    ensures { result ≡ option_or (value_for modes.now name.now) names.now.usual }
{
    modes.get(name).copied().or(names.usual)
}

// Adds the local variable that a use names.
fn add_local(
    entries: &mut Table<Name, Option<Mode>>,
    names: &Names,
    modes: &Table<Name, Mode>,
    one: &Use,
) -> Result<(), AllocError>
    ensures { OnOk result (entries.new ≡ fold with_first entries.old (map (moded_in names.now.usual modes.now) (local_used names.now one.now))) }
{
    match local_of(names, &one.what) {
        Some(name) => {
            let mode = mode_in(names, modes, &name);
            insert_first(entries, name, mode)
        }
        None => Ok(()),
    }
}

// The local variables that uses name.
fn collect(
    alloc: Global,
    seed: Seed,
    names: &Names,
    modes: &Table<Name, Mode>,
    uses: &[Use],
) -> Result<Table<Name, Option<Mode>>, AllocError>
    ensures { IfOk result (λ found. found ≡ first_entries (map (moded_in names.now.usual modes.now) (flat_map (local_used names.now) uses.now))) }
{
    let mut entries = Table::new(alloc, seed);
    for one in uses {
        add_local(&mut entries, names, modes, one)?;
    }
    Ok(entries)
}

impl Locals {
    /// The local variables of a section with these uses. Their modes are those of its DEFINEs, else that of NORMALLY.
    ///
    /// # Errors
    /// `AllocError` where memory is refused.
    pub fn of(alloc: Global, names: &Names, uses: &[Use]) -> Result<Locals, AllocError>
        ensures { IfOk result (λ l. l ≡ locals names.now uses.now) }
    {
        let seed = seed_of(uses);
        let modes = modes_of(alloc, seed, uses)?;
        let entries = collect(alloc, seed, names, &modes, uses)?;
        Ok(Locals { entries })
    }

    /// How many there are.
    pub fn len(&self) -> usize
        ensures { result ≡ length self.now }
    {
        self.entries.len()
    }

    /// Whether there is none.
    pub fn is_empty(&self) -> bool
        ensures { result ≡ (length self.now == 0) }
    {
        self.entries.is_empty()
    }

    /// The number of a local variable. None where the name isn't one.
    pub fn number(&self, name: &Name) -> Option<usize>
        ensures { result ≡ position (same_name name.now) (keys_of self.now) }
    {
        self.entries.place(name)
    }

    /// The mode of a local variable, which is None where nothing gives it one. None where the name isn't a local variable.
    pub fn mode(&self, name: &Name) -> Option<Option<Mode>>
        ensures { result ≡ lookup (same_name name.now) self.now }
    {
        self.entries.get(name).copied()
    }

    /// The mode of the local variable of a number. None where there is none.
    pub fn mode_at(&self, number: usize) -> Option<Option<Mode>>
        ensures { result ≡ slice_get (values_of self.now) number }
    {
        value_at(&self.entries, number)
    }
}

/// The local variables of sections with these uses.
///
/// # Errors
/// `AllocError` where memory is refused.
pub fn all_locals(alloc: Global, names: &Names, all: &[Vec<Use>]) -> Result<Vec<Locals>, AllocError>
    ensures { IfOk result (λ found. found.items ≡ map (locals names.now) (map uses_seen all.now)) }
{
    let mut found = Vec::new(alloc);
    for uses in all {
        let locals = Locals::of(alloc, names, uses)?;
        found.push(locals)?;
    }
    Ok(found)
}
