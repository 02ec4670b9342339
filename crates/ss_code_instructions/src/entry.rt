//! Where sections begin, and what their frames hold.

use ss_base::Mode;

/// A section: MAIN, a routine or the routine of an event. Its frame holds its local variables, those that it is given first,
/// then those that it yields, then the others; and above them as many cells as its stack may have.
#[derive(Drop)]
pub struct SectionEntry {
    /// The place of its first instruction.
    pub place: usize,
    /// The modes of the variables that it is given.
    pub given: Vec<Mode>,
    /// How many of its other variables, the first of them, it yields.
    pub yielding: usize,
    /// The modes of the other variables.
    pub others: Vec<Mode>,
    /// How many variables and cells its frame has.
    pub room: usize,
}
