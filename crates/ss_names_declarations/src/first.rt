//! Tables by names of texts, in which the first entry of a name counts.

ghost use Rattle.std.specs.Prelude.{◌≡◌, is_some, slice_get, OnOk};
ghost use Rattle.std.specs.List.{fold};
ghost use Rattle.std.specs.Map.{keys_of, values_of};
ghost use Rattle.ss_names_declarations.specs.NameTable.{entry_if, value_for, with_first};

use crate::table::Table;
use ss_base::Name;
use std::alloc::AllocError;

/// Adds an entry after the others. If its name has one, the table stays as it was.
///
/// # Errors
/// `AllocError` where memory is refused.
#[tactic(auto, using(crate::proofs::Entries::beside_if))]
pub fn insert_first<V: Copy>(
    entries: &mut Table<Name, V>,
    name: Name,
    value: V,
) -> Result<(), AllocError>
    ensures { OnOk result (entries.new ≡ with_first entries.old (name, value)) }
{
    entries.insert_new(name, value)
}

/// Adds an entry as `insert_first` does, if there is a value for it.
///
/// # Errors
/// `AllocError` where memory is refused.
pub fn insert_if<V: Copy>(
    entries: &mut Table<Name, V>,
    name: Name,
    value: Option<V>,
) -> Result<(), AllocError>
    ensures { OnOk result (entries.new ≡ fold with_first entries.old (entry_if name value)) }
{
    match value {
        Some(value) => insert_first(entries, name, value),
        None => Ok(()),
    }
}

/// Whether a name has an entry.
pub fn has_entry<V: Copy>(entries: &Table<Name, V>, name: &Name) -> bool
    ensures { result ≡ is_some (value_for entries.now name.now) }
{
    entries.get(name).is_some()
}

/// The name of the entry of this number. None if there are not so many.
pub fn key_at<V: Copy>(entries: &Table<Name, V>, number: usize) -> Option<Name>
    ensures { result ≡ slice_get (keys_of entries.now) number }
{
    entries.keys().get(number).copied()
}

/// The value of the entry of this number. None if there are not so many.
pub fn value_at<V: Copy>(entries: &Table<Name, V>, number: usize) -> Option<V>
    ensures { result ≡ slice_get (values_of entries.now) number }
{
    entries.values().get(number).copied()
}
