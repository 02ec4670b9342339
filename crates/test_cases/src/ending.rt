//! How texts end, and how cases want them to.

use crate::words::{first_word, number};
use crate::wrong::Wrong;
use ss_tree::program::Program;
use std::{fmt, str};

/// How many statements the preamble of a tree has, how many sections it has, and how many
/// statements lie right in these.
#[derive(Clone, Copy, PartialEq)]
pub struct TreeCounts {
    pub preamble: u64,
    pub sections: u64,
    pub statements: u64,
}

impl TreeCounts {
    /// The counts of a tree.
    pub fn of(program: &Program) -> TreeCounts {
        let mut statements: usize = 0;
        for section in &program.sections {
            statements = statements.saturating_add(section.body.len());
        }
        TreeCounts {
            preamble: program.preamble.len() as u64,
            sections: program.sections.len() as u64,
            statements: statements as u64,
        }
    }
}

impl fmt::Display for TreeCounts {
    fn fmt<W: fmt::Write>(&self, f: &mut fmt::Formatter<W>) -> fmt::Result {
        let TreeCounts {
            preamble,
            sections,
            statements,
        } = *self;
        write!(f, "tree {preamble} {sections} {statements}")
    }
}

/// How a text ends, or is to end.
#[derive(Clone, Copy)]
pub enum CaseEnding<'a> {
    /// With this line of the program, or `ended`.
    Line(&'a str),
    /// With any tree. A text ends with a certain one.
    AnyTree,
    /// With a tree of so many statements and sections.
    Tree(TreeCounts),
    /// With no broken rule.
    Kept,
}

impl<'a> CaseEnding<'a> {
    /// What these words say: a tree, `kept`, or a line of the program.
    pub fn of(words: &'a str) -> Result<CaseEnding<'a>, Wrong> {
        match words {
            "" => Err(Wrong::Ending),
            "tree" => Ok(CaseEnding::AnyTree),
            "kept" => Ok(CaseEnding::Kept),
            _ => match words.strip_prefix("tree ") {
                Some(counts) => tree_of(counts),
                None => Ok(CaseEnding::Line(words)),
            },
        }
    }

    /// Whether the end of a text is the one that is wanted.
    pub fn meets(self, wanted: CaseEnding<'_>) -> bool {
        match (self, wanted) {
            (CaseEnding::Line(line), CaseEnding::Line(wanted)) => is_wanted(wanted, line),
            (CaseEnding::Tree(_), CaseEnding::AnyTree) | (CaseEnding::Kept, CaseEnding::Kept) =>
                true,
            (CaseEnding::Tree(counts), CaseEnding::Tree(wanted)) => counts == wanted,
            _ => false,
        }
    }
}

impl fmt::Display for CaseEnding<'_> {
    fn fmt<W: fmt::Write>(&self, f: &mut fmt::Formatter<W>) -> fmt::Result {
        match self {
            CaseEnding::Line(line) => f.write_str(line),
            CaseEnding::AnyTree => f.write_str("tree"),
            CaseEnding::Tree(counts) => counts.fmt(f),
            CaseEnding::Kept => f.write_str("kept"),
        }
    }
}

// P S T.
fn tree_of(words: &str) -> Result<CaseEnding<'_>, Wrong> {
    let (preamble, rest) = first_word(words);
    let (sections, statements) = first_word(rest);
    Ok(CaseEnding::Tree(TreeCounts {
        preamble: number(preamble)?,
        sections: number(sections)?,
        statements: number(statements)?,
    }))
}

/// The line in what the program prints, or `ended` where there is none.
pub fn line_in(printed: &[u8]) -> &str {
    match str::from_utf8(printed) {
        Ok(text) => ended_or(text.trim_end()),
        Err(_) => "bytes that are no text",
    }
}

// A line, or `ended` in place of an empty one.
fn ended_or(line: &str) -> &str {
    if line.is_empty() {
        return "ended";
    }
    line
}

// Whether a line is the one that is wanted. A refusal may be wanted without its line number.
fn is_wanted(wanted: &str, line: &str) -> bool {
    match line.strip_prefix(wanted) {
        Some(rest) => {
            rest.is_empty() || wanted.starts_with("refused ") && rest.starts_with(" at line ")
        }
        None => false,
    }
}
