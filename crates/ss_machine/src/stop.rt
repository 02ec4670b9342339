use ss_base::{FaultKind, Line};

/// Why a run stopped.
#[derive(Clone, Copy, Debug, PartialEq, Eq)]
pub enum Stop {
    /// The program came to its end.
    Ended,
    /// A fault, and the line of its statement.
    Fault(FaultKind, Line),
    /// The ticks are used up; the next run goes on.
    Paused,
    /// Memory was refused.
    Memory,
    /// The writer failed.
    Output,
    /// The reader failed.
    Input,
    /// An earlier run ran out of memory, or its reader or writer failed.
    Failed,
}
