// The values that break ties between notices of one class.
ghost use Rattle.std.specs.Prelude.{◌≡◌};
ghost use Rattle.ss_world.specs.Shape.{shape_of};

use ss_base::{Mode, Value};

/// A value that breaks ties between notices of one class at one time.
#[derive(Clone, Copy, Debug, PartialEq, Eq)]
pub struct Tie {
    pub value: Value,
    /// Whether the greater value comes first.
    pub high: bool,
}

/// What a tie of a class is: the mode of its values, and whether the greater value comes first.
#[derive(Clone, Copy, Debug, PartialEq, Eq)]
pub struct TieShape {
    pub mode: Mode,
    pub high: bool,
}

impl Tie {
    /// What tie this is.
    pub fn shape(&self) -> TieShape
        ensures { result ≡ shape_of self.now }
    {
        TieShape {
            mode: self.value.mode(),
            high: self.high,
        }
    }
}
