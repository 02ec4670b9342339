//! How many cases were tried, and how much failed.

/// How many cases were tried, and how much failed: cases, and mistakes in their files.
#[derive(Clone, Copy)]
pub struct Score {
    pub cases: u64,
    pub failed: u64,
}

impl Score {
    /// Nothing was tried.
    pub const NONE: Score = Score {
        cases: 0,
        failed: 0,
    };

    /// The score after a further case.
    pub fn with_case(self, failed: bool) -> Score {
        self.and(Score {
            cases: 1,
            failed: u64::from(failed),
        })
    }

    /// The score after a mistake.
    pub fn with_mistake(self) -> Score {
        self.and(Score {
            cases: 0,
            failed: 1,
        })
    }

    /// Both scores together.
    pub fn and(self, other: Score) -> Score {
        Score {
            cases: self.cases.saturating_add(other.cases),
            failed: self.failed.saturating_add(other.failed),
        }
    }

    /// Whether anything failed.
    pub fn has_failures(self) -> bool {
        self.failed > 0
    }
}
