//! What may be run.

ghost use Rattle.std.specs.Prelude.{◌≡◌, length, IfOk};
ghost use Rattle.ss_code_listing.specs.Listing.{AreLines};

use crate::code::Code;
use std::alloc::{AllocError, Global};

/// A program that may be run. A contract sees it as its code.
#[derive(Drop)]
pub struct Model {
    code: Code,
}

impl std::marker::Model for Model {
    ghost use Rattle.ss_code.specs.Running.{Generated};

    ghost Value = { Generated };

    ghost view = { λ m. m.code };
}

impl Model {
    /// The model that this code is.
    pub fn new(code: Code) -> Model
        ensures { result ≡ code }
    {
        Model { code }
    }

    /// The code of the model.
    pub fn into_code(self) -> Code
        ensures { result ≡ self }
    {
        self.code
    }

    /// Gives its memory back, as [`Code::release`] does.
    pub fn release(self) {
        self.code.release();
    }

    /// A line for each instruction of its code: its number from 0, a blank, what it is called, and what it works on. The
    /// error comes where memory was refused.
    pub fn listing(&self, alloc: Global) -> Result<Vec<u8>, AllocError>
        ensures lines { IfOk result (λ text. AreLines (length self.now.run.instructions) text.items) }
    {
        self.code.listing(alloc)
    }
}
