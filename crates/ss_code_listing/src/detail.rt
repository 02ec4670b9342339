//! What a listing says of an instruction: what it is called, and what it works on.

use ss_code_instructions::address::Address;

/// One of the things that an instruction works on.
#[derive(Clone, Copy)]
pub(crate) enum Part {
    Nothing,
    /// What is read.
    From(Address),
    /// Where something goes.
    To(Address),
    /// A class, a set and the like, by its number.
    Of(&'static str, u32),
    /// So many instructions are skipped.
    Else(u32),
    /// So many instructions back.
    Back(u32),
    Word(&'static str),
}

/// What an instruction is called, and what it works on.
#[derive(Clone, Copy)]
pub(crate) struct Detail {
    pub(crate) name: &'static str,
    pub(crate) parts: [Part; 6],
}

/// What works on nothing.
pub(crate) fn none(name: &'static str) -> Detail {
    Detail {
        name,
        parts: [Part::Nothing; 6],
    }
}

/// What works on one thing.
pub(crate) fn one(name: &'static str, a: Part) -> Detail {
    Detail {
        name,
        parts: [
            a,
            Part::Nothing,
            Part::Nothing,
            Part::Nothing,
            Part::Nothing,
            Part::Nothing,
        ],
    }
}

/// What works on two.
pub(crate) fn two(name: &'static str, a: Part, b: Part) -> Detail {
    Detail {
        name,
        parts: [
            a,
            b,
            Part::Nothing,
            Part::Nothing,
            Part::Nothing,
            Part::Nothing,
        ],
    }
}

/// What works on three.
pub(crate) fn three(name: &'static str, a: Part, b: Part, c: Part) -> Detail {
    Detail {
        name,
        parts: [a, b, c, Part::Nothing, Part::Nothing, Part::Nothing],
    }
}

/// What works on four.
pub(crate) fn four(name: &'static str, a: Part, b: Part, c: Part, d: Part) -> Detail {
    Detail {
        name,
        parts: [a, b, c, d, Part::Nothing, Part::Nothing],
    }
}

/// What works on five.
pub(crate) fn five(name: &'static str, a: Part, b: Part, c: Part, d: Part, e: Part) -> Detail {
    Detail {
        name,
        parts: [a, b, c, d, e, Part::Nothing],
    }
}

/// A word where something is so.
pub(crate) fn word_if(is_so: bool, word: &'static str) -> Part {
    if is_so {
        Part::Word(word)
    } else {
        Part::Nothing
    }
}
