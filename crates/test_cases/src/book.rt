//! Case files, read into cases.

use crate::cases::{Case, CasePart};
use crate::content::Content;
use crate::directive::{DirectiveHead, DirectiveTopic};
use crate::words::{first_word, named, number};
use crate::wrong::Wrong;
use std::alloc::{AllocError, Global};

/// A mistake in a case file.
#[derive(Clone, Copy)]
pub struct Mistake {
    /// The line that it is in, from 1; 0 where it is the whole file's.
    pub line: u64,
    pub wrong: Wrong,
}

/// A text that cases may begin with.
#[derive(Drop)]
struct Text<'a> {
    name: &'a str,
    bytes: Vec<u8>,
}

/// What content belongs to.
#[derive(Clone, Copy)]
enum Place {
    Nowhere,
    /// The last text.
    Text,
    /// A part of the last case.
    Case(CasePart),
}

/// A case file, as far as it was read: its cases, and the mistakes in it.
#[derive(Drop)]
pub struct Book<'a> {
    alloc: Global,
    pub cases: Vec<Case<'a>>,
    pub mistakes: Vec<Mistake>,
    texts: Vec<Text<'a>>,
    /// What further content belongs to.
    place: Place,
}

impl<'a> Book<'a> {
    /// The book of a file of which nothing was read yet.
    pub fn new(alloc: Global) -> Book<'a> {
        Book {
            alloc,
            cases: Vec::new(alloc),
            mistakes: Vec::new(alloc),
            texts: Vec::new(alloc),
            place: Place::Nowhere,
        }
    }

    /// Reads the text of a case file. A line with a mistake is left out of its case. The error comes
    /// where memory was refused for the words about a mistake.
    pub fn read(&mut self, text: &'a str) -> Result<(), AllocError> {
        let mut number: u64 = 0;
        for line in text.split('\n') {
            number = number.saturating_add(1);
            let taken = self.take(line, number);
            note(&mut self.mistakes, number, taken.err())?;
        }
        self.end(number)
    }

    // Ends with the line of this number.
    fn end(&mut self, number: u64) -> Result<(), AllocError> {
        let settled = self.settle();
        note(&mut self.mistakes, number, settled.err())?;
        add_lacks(&mut self.mistakes, &self.cases)
    }

    // Takes a further line, of this number.
    fn take(&mut self, line: &'a str, number: u64) -> Result<(), Wrong> {
        if is_remark(line) {
            return Ok(());
        }
        match Content::of(line) {
            Some(content) => self.add(content),
            None => self.obey(line, number),
        }
    }

    // Adds content to what it belongs to.
    fn add(&mut self, content: Content<'_>) -> Result<(), Wrong> {
        let alloc = self.alloc;
        match self.place {
            Place::Nowhere => Err(Wrong::Content),
            Place::Text => add_to_text(alloc, content, self.texts.last_mut()),
            Place::Case(part) => add_to_case(alloc, content, self.cases.last_mut(), part),
        }
    }

    // Does what a directive says, in the line of this number.
    fn obey(&mut self, line: &'a str, number: u64) -> Result<(), Wrong> {
        let (word, rest) = first_word(line);
        match DirectiveHead::of(word)? {
            DirectiveHead::Text => self.begin_text(rest),
            DirectiveHead::Case => self.begin_case(rest, number),
            DirectiveHead::After => self.begin_with_text(rest),
            DirectiveHead::As => self.begin_as(rest),
            DirectiveHead::Line => self.begin_line(rest),
            DirectiveHead::Part(part) => self.begin_part(part, rest),
            DirectiveHead::Says(topic) => self.take_down(topic, rest),
        }
    }

    // Ends what content belongs to. Content after it belongs nowhere.
    fn settle(&mut self) -> Result<(), Wrong> {
        self.place = Place::Nowhere;
        match self.cases.last_mut() {
            Some(case) => case.end_line(),
            None => Ok(()),
        }
    }

    // The case under way.
    fn case(&mut self) -> Result<&mut Case<'a>, Wrong> {
        match self.cases.last_mut() {
            Some(case) => Ok(case),
            None => Err(Wrong::NoCase),
        }
    }

    // The content from here on is the text of this name.
    fn begin_text(&mut self, name: &'a str) -> Result<(), Wrong> {
        let name = named(name)?;
        self.settle()?;
        if text_named(&self.texts, name).is_some() {
            return Err(Wrong::TextTwice);
        }
        let bytes = Vec::new(self.alloc);
        self.texts.push(Text { name, bytes })?;
        self.place = Place::Text;
        Ok(())
    }

    // A case begins.
    fn begin_case(&mut self, name: &'a str, line: u64) -> Result<(), Wrong> {
        let name = named(name)?;
        self.settle()?;
        self.cases.push(Case::new(self.alloc, name, line))?;
        Ok(())
    }

    // The content from here on belongs to this part of the case under way.
    fn begin_part(&mut self, part: CasePart, words: &str) -> Result<(), Wrong> {
        if !words.is_empty() {
            return Err(Wrong::Directive);
        }
        self.settle()?;
        self.case()?.begin_part(part);
        self.place = Place::Case(part);
        Ok(())
    }

    // The content from here on takes the place of a line of the model.
    fn begin_line(&mut self, words: &str) -> Result<(), Wrong> {
        let number = number(words)?;
        self.settle()?;
        self.case()?.begin_line(number)?;
        self.place = Place::Case(CasePart::Model);
        Ok(())
    }

    // The model begins with the text of this name.
    fn begin_with_text(&mut self, name: &str) -> Result<(), Wrong> {
        let name = named(name)?;
        self.settle()?;
        let Some(case) = self.cases.last_mut() else {
            return Err(Wrong::NoCase);
        };
        match text_named(&self.texts, name) {
            Some(text) => case.begin_model(text),
            None => Err(Wrong::NoText),
        }
    }

    // The model begins with that of the case before.
    fn begin_as(&mut self, words: &str) -> Result<(), Wrong> {
        if words != "before" {
            return Err(Wrong::Directive);
        }
        self.settle()?;
        let Some((case, earlier)) = self.cases.split_last_mut() else {
            return Err(Wrong::NoCaseBefore);
        };
        match earlier.last() {
            Some(before) => case.begin_model(&before.model),
            None => Err(Wrong::NoCaseBefore),
        }
    }

    // Records what a directive says of the case under way. Where there is none, what is wrong with the words
    // themselves comes first.
    fn take_down(&mut self, topic: DirectiveTopic, words: &'a str) -> Result<(), Wrong> {
        let alloc = self.alloc;
        match self.cases.last_mut() {
            Some(case) => case.take_down(topic, words),
            None => said_of_none(alloc, topic, words),
        }
    }
}

// Adds content to a text, if there is one.
fn add_to_text(
    alloc: Global,
    content: Content<'_>,
    text: Option<&mut Text<'_>>,
) -> Result<(), Wrong> {
    match text {
        Some(text) => content.add_to(alloc, &mut text.bytes),
        None => Err(Wrong::Content),
    }
}

// Adds content to a part of a case, if there is one.
fn add_to_case(
    alloc: Global,
    content: Content<'_>,
    case: Option<&mut Case<'_>>,
    part: CasePart,
) -> Result<(), Wrong> {
    match case {
        Some(case) => content.add_to(alloc, case.content(part)),
        None => Err(Wrong::Content),
    }
}

// Whether a line is for the reader alone.
fn is_remark(line: &str) -> bool {
    matches!(line.as_bytes(), [] | [b'#', ..])
}

// The bytes of the text of this name.
fn text_named<'b>(texts: &'b [Text<'_>], name: &str) -> Option<&'b [u8]> {
    for text in texts {
        if text.name == name {
            return Some(&text.bytes);
        }
    }
    None
}

// What is wrong with words that say something of no case.
fn said_of_none(alloc: Global, topic: DirectiveTopic, words: &str) -> Result<(), Wrong> {
    let mut case = Case::new(alloc, "", 0);
    match case.take_down(topic, words) {
        Ok(()) => Err(Wrong::NoCase),
        Err(wrong) => Err(wrong),
    }
}

// Adds what is wrong with a line, if anything is.
fn note(mistakes: &mut Vec<Mistake>, line: u64, wrong: Option<Wrong>) -> Result<(), AllocError> {
    if let Some(wrong) = wrong {
        mistakes.push(Mistake { line, wrong })?;
    }
    Ok(())
}

// Adds what is wrong with cases as a whole.
fn add_lacks(mistakes: &mut Vec<Mistake>, cases: &[Case<'_>]) -> Result<(), AllocError> {
    for case in cases {
        note(mistakes, case.line, case.lack())?;
    }
    Ok(())
}
