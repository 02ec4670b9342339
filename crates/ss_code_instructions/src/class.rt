//! A class of notices.

ghost use Rattle.std.specs.Prelude.{◌≡◌};

use ss_base::{Line, RankKeys};
use std::marker::Model;

/// What a program says of a class of notices: the attributes that break ties, the line of its event routine, how many
/// attributes that takes, and the global variable that a notice is saved in, if it is saved.
///
/// A contract sees it as a record of these.
#[derive(Clone, Drop)]
pub struct NoticeClass {
    class: usize,
    ties: RankKeys,
    line: Line,
    given: usize,
    saved: Option<usize>,
}

impl Model for NoticeClass {
    ghost use Rattle.ss_meaning.specs.Store.{Notices};

    ghost Value = { Notices };

    ghost view = { λ n. record { class = n.class; ties = n.ties; line = n.line; given = n.given; saved = n.saved } };
}

impl NoticeClass {
    /// A class of notices with these properties.
    pub fn new(
        class: usize,
        ties: RankKeys,
        line: Line,
        given: usize,
        saved: Option<usize>,
    ) -> NoticeClass
        ensures { result ≡ record { class = class; ties = ties; line = line; given = given; saved = saved } }
    {
        NoticeClass {
            class,
            ties,
            line,
            given,
            saved,
        }
    }

    /// The number of the class.
    #[inline(always)]
    pub fn class(&self) -> usize
        ensures { result ≡ self.now.class }
    {
        self.class
    }

    /// The attributes that break ties, the first of which counts most.
    #[inline(always)]
    pub fn ties(&self) -> &RankKeys
        ensures { result.now ≡ self.now.ties }
    {
        &self.ties
    }

    /// The line of its event routine.
    #[inline(always)]
    pub fn line(&self) -> Line
        ensures { result ≡ self.now.line }
    {
        self.line
    }

    /// How many attributes of a notice its event routine takes.
    #[inline(always)]
    pub fn given(&self) -> usize
        ensures { result ≡ self.now.given }
    {
        self.given
    }

    /// The global variable that a notice is saved in, if it is saved.
    #[inline(always)]
    pub fn saved(&self) -> Option<usize>
        ensures { result ≡ self.now.saved }
    {
        self.saved
    }
}
