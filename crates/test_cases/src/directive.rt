//! The first words of directives, which are the lines of a case file that are no content.

use crate::cases::CasePart;
use crate::wrong::Wrong;

/// What the first word of a directive means.
#[derive(Clone, Copy)]
pub enum DirectiveHead {
    /// The content after it is a text of the name that follows.
    Text,
    /// A case of the name that follows begins.
    Case,
    /// The model begins with the text of the name that follows.
    After,
    /// The model is that of the case before.
    As,
    /// The content after it takes the place of a line of the model.
    Line,
    /// The content after it belongs to this part of the case.
    Part(CasePart),
    /// A property of the case.
    Says(DirectiveTopic),
}

/// What a directive says of a case.
#[derive(Clone, Copy)]
pub enum DirectiveTopic {
    /// The pieces in which the ticks are handed out.
    Ticks,
    /// The one reader.
    Reader,
    /// The writer.
    Writer,
    /// How often the reader and the writer failed.
    Failures,
    /// A further call of the session.
    Run,
    /// The ending that is wanted.
    Ending,
    /// What judges a refusal.
    Judge,
    /// The ticks that were used.
    Used,
    /// The numbers of which each proper beginning of the model is refused by one.
    Cut,
}

/// The first words of directives.
static HEADS: [(&str, DirectiveHead); 17] = [
    ("text", DirectiveHead::Text),
    ("case", DirectiveHead::Case),
    ("after", DirectiveHead::After),
    ("as", DirectiveHead::As),
    ("line", DirectiveHead::Line),
    ("model", DirectiveHead::Part(CasePart::Model)),
    ("input", DirectiveHead::Part(CasePart::Input)),
    ("report", DirectiveHead::Part(CasePart::Report)),
    ("ticks", DirectiveHead::Says(DirectiveTopic::Ticks)),
    ("reader", DirectiveHead::Says(DirectiveTopic::Reader)),
    ("writer", DirectiveHead::Says(DirectiveTopic::Writer)),
    ("failures", DirectiveHead::Says(DirectiveTopic::Failures)),
    ("run", DirectiveHead::Says(DirectiveTopic::Run)),
    ("ending", DirectiveHead::Says(DirectiveTopic::Ending)),
    ("judge", DirectiveHead::Says(DirectiveTopic::Judge)),
    ("used", DirectiveHead::Says(DirectiveTopic::Used)),
    ("cut", DirectiveHead::Says(DirectiveTopic::Cut)),
];

impl DirectiveHead {
    /// What this word means as the first of a directive.
    pub fn of(word: &str) -> Result<DirectiveHead, Wrong> {
        for (spelled, head) in &HEADS {
            if *spelled == word {
                return Ok(*head);
            }
        }
        Err(Wrong::Directive)
    }
}
