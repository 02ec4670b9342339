//! Tables by spellings, in which the first entry of a spelling counts.

ghost use Rattle.std.specs.Prelude.{◌≡◌, slice_get, OnErr, OnOk};
ghost use Rattle.std.specs.Map.{values_of};
ghost use Rattle.ss_names_declarations.specs.NameTable.{with_first};

use crate::table::Table;
use ss_base::Spelling;
use std::alloc::AllocError;

/// Adds an entry after the others. If its spelling has one, the table stays as it was.
///
/// # Errors
/// `AllocError` where memory is refused; then the table stays as it was too.
#[tactic(auto, using(crate::proofs::Entries::beside_if))]
pub fn insert_spelled<V: Copy>(
    entries: &mut Table<Spelling, V>,
    name: Spelling,
    value: V,
) -> Result<(), AllocError>
    ensures err { OnErr result (entries.new ≡ entries.old) }
    ensures ok { OnOk result (entries.new ≡ with_first entries.old (name, value)) }
{
    entries.insert_new(name, value)
}

/// The value of the entry of this number. None if there are not so many.
pub fn spelled_at<V: Copy>(entries: &Table<Spelling, V>, number: usize) -> Option<V>
    ensures { result ≡ slice_get (values_of entries.now) number }
{
    entries.values().get(number).copied()
}
