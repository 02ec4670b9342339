//! What can be wrong with a line of a case file.

use std::alloc::{AllocError, AllocFailed};

/// What is wrong with a line of a case file.
#[derive(Clone, Copy)]
pub enum Wrong {
    /// The file can't be read as text.
    File,
    /// A line is no directive.
    Directive,
    Number,
    Name,
    Reader,
    Writer,
    Run,
    Ending,
    Judge,
    Escape,
    /// Content belongs to nothing.
    Content,
    NoCase,
    NoCaseBefore,
    NoText,
    TextTwice,
    NoLine,
    /// A model was begun before.
    Begun,
    /// A directive comes twice in one case.
    Twice,
    NoEnding,
    TwoEndings,
    Memory,
}

impl Wrong {
    /// The words that say so.
    pub fn words(self) -> &'static str {
        match self {
            Wrong::File => "the file can't be read as text",
            Wrong::Directive => "no directive",
            Wrong::Number => "a whole number is wanted",
            Wrong::Name => "a name is wanted",
            Wrong::Reader => "reader N or reader N fails from call K is wanted",
            Wrong::Writer =>
                "writer N, and perhaps fails or takes nothing, then from call K or after B bytes, is wanted",
            Wrong::Run => "run N LINE or run N LINE, used U is wanted",
            Wrong::Ending => "an ending is wanted",
            Wrong::Judge => "judge tree or judge rules is wanted",
            Wrong::Escape =>
                "a backslash, t, r or x with two hexadecimal digits is wanted after a backslash",
            Wrong::Content => "content that belongs to nothing",
            Wrong::NoCase => "there is no case yet",
            Wrong::NoCaseBefore => "there is no case before",
            Wrong::NoText => "there is no text of that name",
            Wrong::TextTwice => "there is a text of that name already",
            Wrong::NoLine => "the model has no such line",
            Wrong::Begun => "the model was begun before",
            Wrong::Twice => "said twice of one case",
            Wrong::NoEnding => "the case has neither an ending nor a run",
            Wrong::TwoEndings => "the case has both an ending and a run",
            Wrong::Memory => "out of memory",
        }
    }
}

impl From<AllocError> for Wrong {
    fn from(_error: AllocError) -> Wrong {
        Wrong::Memory
    }
}

impl<T: Drop> From<AllocFailed<T>> for Wrong {
    fn from(_error: AllocFailed<T>) -> Wrong {
        Wrong::Memory
    }
}
