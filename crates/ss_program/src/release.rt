//! Resolved programs that nobody needs any more.

use crate::checked::Checked;

/// Gives the memory of a resolved program back, as `release_tree` does that of a tree.
pub fn release_checked(checked: Checked) {
    let _released = checked;
}
