//! The frames of open calls.

ghost use Rattle.std.specs.Prelude.{◌≡◌, [], ◌∷◌, OnOk, OnErr, MatchOption};

use std::alloc::{AllocError, Global};
use std::marker::Model;

/// An open call: where it goes back to, where the frame of its caller begins, how many variables it was given, and how many of
/// those after them it yields.
#[derive(Clone, Copy, Debug, PartialEq, Eq)]
pub struct Frame {
    pub back: usize,
    pub caller: usize,
    pub given: u32,
    pub yielding: u32,
}

/// The open calls. A contract sees them in a list, the last one first.
#[derive(Drop)]
pub struct Frames {
    frames: Vec<Frame>,
}

impl Model for Frames {
    ghost use Rattle.std.specs.Prelude.{List, reverse};
    ghost use Rattle.ss_machine_frames.specs.declared.frames.Frame.{Frame as FrameSeen};

    ghost Value = { List FrameSeen };

    ghost view = { λ s. reverse s.frames.items };
}

impl Frames {
    /// No open call.
    pub fn new(alloc: Global) -> Frames
        ensures { result ≡ [] }
    {
        Frames {
            frames: Vec::new(alloc),
        }
    }

    /// One more. The error comes where memory was refused, and then nothing changes.
    pub fn push(&mut self, frame: Frame) -> Result<(), AllocError>
        ensures ok { OnOk result (self.new ≡ frame ∷ self.old) }
        ensures err { OnErr result (self.new ≡ self.old) }
    {
        self.frames.push(frame)?;
        Ok(())
    }

    /// The last one, which is open no longer.
    pub fn pop(&mut self) -> Option<Frame>
        ensures { MatchOption result ((self.old ≡ []) × (self.new ≡ [])) (λ frame. self.old ≡ frame ∷ self.new) }
    {
        self.frames.pop()
    }
}
