//! What stops the program before a run has an outcome.
ghost use Rattle.std.specs.Prelude.{◌≡◌};
ghost use Rattle.simscript_order.specs.FailureStatuses.{failure_status};

/// Why the program stops with no outcome of a run.
#[derive(Clone, Copy, Debug, PartialEq, Eq)]
pub enum ProgramFailure {
    /// The text can't be opened or read.
    Source,
    /// The input data can't be opened.
    Input,
    /// The report, or what is printed in its place, can't be written.
    Report,
    /// Memory was refused.
    Memory,
}

impl ProgramFailure {
    /// The exit status.
    pub fn status(self) -> u8
        ensures { result ≡ failure_status self }
    {
        match self {
            ProgramFailure::Memory => 5,
            ProgramFailure::Source | ProgramFailure::Input | ProgramFailure::Report => 6,
        }
    }

    /// The line that reports it, with its end.
    pub fn line(self) -> &'static str {
        match self {
            ProgramFailure::Source => "cannot read source\n",
            ProgramFailure::Input => "cannot read input\n",
            ProgramFailure::Report => "cannot write report\n",
            ProgramFailure::Memory => "out of memory\n",
        }
    }
}
