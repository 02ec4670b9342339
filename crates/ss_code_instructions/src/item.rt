//! What the items of a PRINT are.

/// What an item of a PRINT shows. A value and a reference lie in the next of its cells.
#[derive(Clone, Copy, Debug, PartialEq, Eq)]
pub enum ItemKind {
    /// A whole number.
    Number,
    /// A text.
    Text,
    /// The mean of a statistic that has no entity.
    Mean { statistic: usize },
    /// The mean of a statistic of an entity, or of the set of an owner, to which the cell refers.
    MeanOf { statistic: usize },
}
