//! The rules of refusals, in words.

use crate::page::Part::{Bytes, Line};
use crate::page::{Made, Page};

/// The number and the name of each refusal, and the rule.
static RULES: [&str; 29] = [
    "31 TooLong: a text has at most 1,048,576 bytes",
    "32 NotAscii: a text has letters, digits and signs of ASCII alone, in comments and pictures too",
    "33 BadNumber: a number is whole, and at most 9223372036854775807",
    "34 OpenText: a text in quotes ends on its line, by a second quote",
    "35 AlphaTooLong: a text in quotes has at most 16 characters",
    "36 PictureCut: below THUS there are as many lines of picture as the PRINT says",
    "37 NameTooLong: a name has at most 32 characters",
    "41 Syntax: the words of a text follow the grammar",
    "42 TooDeep: at most 64 parentheses, IFs and loops are open at a place",
    "51 Twice: a name is declared once",
    "52 RealMode: each name has a mode, INTEGER or ALPHA; there is no REAL",
    "53 UnknownClass: PRIORITY ORDER and BREAK name event notices",
    "54 UnknownSet: DEFINE .. AS A SET names a set that an entity or THE SYSTEM owns or that entities may belong to",
    "55 NoOwner: a set has an owner: an EVERY or THE SYSTEM OWNS it",
    "56 NoMember: a set has members: entities of some class MAY BELONG TO it",
    "57 RankKey: a set is ranked by an attribute of its members",
    "58 TallyTwice: a name has one TALLY or one ACCUMULATE",
    "59 TooMany: there are at most 64 classes, 64 sets, and 64 attributes of a class",
    "60 TieKey: ties of an event are broken by attributes of its notice",
    "71 NoMain: a model has a section MAIN",
    "72 NoEventRoutine: each event notice has a section EVENT",
    "73 Mode: numbers and texts are not mixed",
    "74 Arguments: a routine, a function or an event is given as many values as it takes",
    "75 Subscript: only what an entity has takes a subscript, and one at most",
    "76 NotAssignable: a value goes to a variable, an attribute or N. of a permanent class",
    "77 Fields: the pictures of a PRINT have as many fields as it has values",
    "78 StartPlace: START SIMULATION is in MAIN alone",
    "79 Unknown: a name is of the kind that its place needs",
    "81 CodeTooLong: a model has at most 1,048,576 instructions",
];

impl Page<'_> {
    /// Adds the rule of a refusal, and where the manual explains it.
    pub fn rule(&mut self, number: u32) -> Made<()> {
        let number = Page::of(self.alloc(), "{} ", &[Line(number)])?;
        for row in &RULES {
            if row.as_bytes().starts_with(number.bytes()) {
                let mut parts = row.as_bytes().splitn(2, |byte| *byte == b':');
                let name = parts.next().unwrap_or(&[]);
                self.line("Rule:{}.", &[Bytes(parts.next().unwrap_or(&[]))])?;
                return self.line("Read: docs/LANGUAGE.md, {}", &[Bytes(name)]);
            }
        }
        Ok(())
    }
}
