//! Where a run is, and where instructions lead.

ghost use Rattle.std.specs.Prelude.{◌≡◌, ◌+◌, ◌-◌, ◌<◌, ◌≤◌, ◌^◌, true, false, is_some, if◌then◌else◌};
ghost use Rattle.ss_machine_instructions.specs.Ways.{led, led_if, led_back, led_in, led_to};

/// Why a run does not go on after an instruction.
#[derive(Clone, Copy, Debug, PartialEq, Eq)]
pub enum Ending {
    /// The program has come to its end.
    Ended,
    /// A tick is due, and none is left: nothing was done.
    Paused,
    /// A fault, which the state says.
    Faulted,
    /// Memory was refused.
    NoMemory,
    /// The writer failed.
    NoOutput,
    /// The reader failed.
    NoInput,
}

/// Where a run is: the place of the instruction, and where the frame of the section begins.
#[derive(Clone, Copy, Debug, PartialEq, Eq)]
pub struct Here {
    pub place: usize,
    pub frame: usize,
}

/// Where an instruction leads: so many instructions past a place, in a frame, if the run goes on. Where it does not, the state says why.
#[derive(Clone, Copy, Debug, PartialEq, Eq)]
pub struct Next {
    pub place: usize,
    pub past: usize,
    pub frame: usize,
    pub goes: bool,
}

impl Here {
    /// On to the next instruction.
    #[inline]
    pub fn on(self) -> Next
        ensures { result ≡ record { place = self.place; past = 1; frame = self.frame; goes = true } }
    {
        Next {
            place: self.place,
            past: 1,
            frame: self.frame,
            goes: true,
        }
    }

    /// Back by so many instructions.
    #[inline]
    pub fn back(self, back: u32) -> Next
        requires { back ≤ self.place }
        ensures { result ≡ record { place = self.place - back; past = 0; frame = self.frame; goes = true } }
    {
        Next::to(self.place - back as usize, self.frame)
    }
}

impl Next {
    /// To a place in a frame.
    #[inline]
    pub fn to(place: usize, frame: usize) -> Next
        ensures { result ≡ record { place = place; past = 0; frame = frame; goes = true } }
    {
        Next {
            place,
            past: 0,
            frame,
            goes: true,
        }
    }

    /// There, unless the run stopped.
    #[inline]
    pub fn after(self, went: Option<()>) -> Next
        ensures { result ≡ record self { goes = is_some went } }
    {
        Next {
            place: self.place,
            past: self.past,
            frame: self.frame,
            goes: went.is_some(),
        }
    }

    /// The run stopped.
    #[inline]
    pub fn stopped(self) -> Next
        ensures { result ≡ record self { goes = false } }
    {
        self.after(None)
    }

    /// Past so many instructions more.
    #[inline]
    pub fn past(self, skip: u32) -> Next
        requires { self.past + skip < 2 ^ 64 }
        ensures { result ≡ record self { past = self.past + skip } }
    {
        Next {
            place: self.place,
            past: self.past + skip as usize,
            frame: self.frame,
            goes: self.goes,
        }
    }

    /// There where something holds, and else past so many instructions.
    #[inline]
    pub fn if_holds(self, holds: bool, skip: u32) -> Next
        requires { self.past + skip < 2 ^ 64 }
        ensures { result ≡ (if holds then self else record self { past = self.past + skip }) }
    {
        if holds { self } else { self.past(skip) }
    }

    /// There where a test holds, and else past so many instructions, unless the run stopped.
    #[inline]
    pub fn if_tested(self, holds: Option<bool>, skip: u32) -> Next
        requires { self.past + skip < 2 ^ 64 }
        ensures { led result ≡ led_if self holds skip }
    {
        match holds {
            Some(holds) => self.if_holds(holds, skip),
            None => self.stopped(),
        }
    }

    /// Back where there is a further turn, and else there.
    #[inline]
    pub fn or_back(self, turns: bool, back: Next) -> Next
        ensures { result ≡ (if turns then back else self) }
    {
        if turns { back } else { self }
    }

    /// Back where there is a further turn, and else there, unless the run stopped.
    #[inline]
    pub fn or_back_tested(self, turns: Option<bool>, back: Next) -> Next
        ensures { led result ≡ led_back self turns back }
    {
        match turns {
            Some(turns) => self.or_back(turns, back),
            None => self.stopped(),
        }
    }

    /// To a place in the frame that was entered, unless the run stopped.
    #[inline]
    pub fn entered(self, place: usize, frame: Option<usize>) -> Next
        ensures { led result ≡ led_in place frame }
    {
        match frame {
            Some(frame) => Next::to(place, frame),
            None => self.stopped(),
        }
    }

    /// To a place in a frame, unless the run stopped.
    #[inline]
    pub fn begun(self, place: Option<usize>, frame: usize) -> Next
        ensures { led result ≡ led_to place frame }
    {
        match place {
            Some(place) => Next::to(place, frame),
            None => self.stopped(),
        }
    }
}
