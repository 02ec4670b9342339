//! Making and reading programs that are well typed.

ghost use Rattle.std.specs.Prelude.{◌≡◌};
ghost use Rattle.ss_program.specs.View.{view_program};
ghost use Rattle.ss_program.specs.WellTyped.{IsWellTyped};
ghost use Rattle.ss_program.specs.Checking.{checked_program};

use crate::checked::Checked;
use crate::sections::Program;

impl Checked {
    /// A program, where it is shown that it is well typed.
    pub fn new(program: Program) -> Checked
        requires { IsWellTyped (view_program program) }
        ensures { checked_program result ≡ program }
    {
        Checked { program }
    }

    /// The program, which is well typed.
    pub fn program(&self) -> &Program
        ensures same { result.now ≡ checked_program self.now }
        ensures typed { IsWellTyped (view_program result.now) }
    {
        &self.program
    }
}
