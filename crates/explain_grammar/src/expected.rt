//! What is expected at a place, in words.

use crate::candidates::{Candidate, has_word};
use crate::forms::{begins_statement, is_among, is_value_word, spelling_of};
use explain_pages::Part::{Bytes, Words};
use explain_pages::{Made, Page};
use ss_lex::{Symbol, Word};
use std::alloc::Global;

/// A group of words that are called together where all of them are expected.
#[derive(Clone, Copy, Debug, PartialEq, Eq)]
pub enum Group {
    Relation,
    Statement,
    Declaration,
    Phrase,
}

/// The words with which a statement begins.
pub const STATEMENT: Group = Group::Statement;

static GROUPS: [Group; 4] = [
    Group::Relation,
    Group::Statement,
    Group::Declaration,
    Group::Phrase,
];

impl Group {
    // Two of its words, which show that all of them are expected.
    fn shown_by(self) -> (Word, Word) {
        match self {
            Group::Relation => (Word::Eq, Word::Ge),
            Group::Statement => (Word::Let, Word::Print),
            Group::Declaration => (Word::Define, Word::Tally),
            Group::Phrase => (Word::With, Word::Unless),
        }
    }

    // What its words are called together.
    fn name(self) -> &'static str {
        match self {
            Group::Relation => "a relation as =, NE, LT, GT, LE or GE",
            Group::Statement => "a statement",
            Group::Declaration => "a declaration as EVERY, DEFINE or TALLY",
            Group::Phrase => "a phrase as WITH or WHILE",
        }
    }

    // Whether a word is one of its.
    fn has(self, word: Word) -> bool {
        match self {
            Group::Relation => is_among(word, "EQ NE LT GT LE GE EQUALS EQUAL LESS GREATER NOT"),
            Group::Statement => begins_statement(word),
            Group::Declaration => is_among(
                word,
                "DEFINE TALLY ACCUMULATE NORMALLY THE PRIORITY BREAK PERMANENT TEMPORARY EVENT EVERY",
            ),
            Group::Phrase => is_among(word, "WITH WHEN UNLESS WHILE UNTIL"),
        }
    }
}

/// Whether the words of a group are among the candidates.
pub fn has_group(candidates: &[Candidate], group: &Group) -> bool {
    let (first, second) = group.shown_by();
    has_word(candidates, first) && has_word(candidates, second)
}

// Whether a word is one that is called by the name of its group, or as a value.
fn is_grouped(candidates: &[Candidate], word: Word) -> bool {
    for group in &GROUPS {
        if group.has(word) && has_group(candidates, group) {
            return true;
        }
    }
    is_value_word(word) && candidates.contains(&Candidate::Name)
}

/// What is expected, by names.
type Expected = Vec<&'static [u8]>;

// Adds a name, where what it names is there.
fn add_if(all: &mut Expected, is_there: bool, name: &'static str) -> Made<()> {
    if is_there {
        all.push(name.as_bytes())?;
    }
    Ok(())
}

// What names and numbers are called, of which one at least is there.
fn value_name(has_name: bool, has_number: bool) -> &'static str {
    match (has_name, has_number) {
        (true, true) => "a value",
        (true, false) => "a name",
        _ => "a number",
    }
}

// Adds what candidates are called together, if they are there.
fn add_groups(all: &mut Expected, candidates: &[Candidate]) -> Made<()> {
    let has_name = candidates.contains(&Candidate::Name);
    let has_number = candidates.contains(&Candidate::Number);
    let has_value = has_name || has_number;
    let has_statement = has_group(candidates, &Group::Statement);
    let has_phrase = has_group(candidates, &Group::Phrase) && !has_statement;
    let has_relation = has_group(candidates, &Group::Relation);
    let has_declaration = has_group(candidates, &Group::Declaration);
    let has_picture = candidates.contains(&Candidate::Picture);
    let has_end = candidates.contains(&Candidate::End);
    add_if(all, has_relation, Group::Relation.name())?;
    add_if(all, has_value, value_name(has_name, has_number))?;
    add_if(all, has_statement, Group::Statement.name())?;
    add_if(all, has_declaration, Group::Declaration.name())?;
    add_if(all, has_phrase, Group::Phrase.name())?;
    add_if(all, has_picture, "a line of picture")?;
    add_if(all, has_end, "the end of the text")
}

// Whether a word has no name together with others. And whether it may go on with what is complete without it, as is asked.
fn is_alone(candidates: &[Candidate], word: Word, goes_on: bool) -> bool {
    let is_bare_test = matches!(word, Word::Empty | Word::In) && has_word(candidates, Word::Is);
    let may_go_on = is_among(word, "AND OR BY NOT CALLED YIELDING GIVING");
    may_go_on == goes_on && !is_bare_test && !is_grouped(candidates, word)
}

// Adds the words that are expected and have no name together: those that may go on with what is complete without them, or the others.
fn add_words(all: &mut Expected, candidates: &[Candidate], goes_on: bool) -> Made<()> {
    for candidate in candidates {
        if let Candidate::Word(word) = candidate {
            if is_alone(candidates, *word, goes_on) {
                all.push(spelling_of(*word))?;
            }
        }
    }
    Ok(())
}

// How a sign that is expected is spelled.
fn sign_of(symbol: &Symbol) -> &'static str {
    match symbol {
        Symbol::OpenParenthesis => "(",
        Symbol::CloseParenthesis => ")",
        Symbol::Comma => "a comma",
        Symbol::Plus => "+",
        Symbol::Minus => "-",
        Symbol::Star => "*",
        Symbol::Equals => "=",
        Symbol::Other(_) => "",
    }
}

// Whether a sign closes or assigns, which nothing else stands for.
fn is_needed(candidates: &[Candidate], symbol: &Symbol) -> bool {
    match symbol {
        Symbol::CloseParenthesis => true,
        Symbol::Equals => !has_group(candidates, &Group::Relation),
        _ => false,
    }
}

// Adds the signs that are expected: all, or those that are needed.
fn add_signs(all: &mut Expected, candidates: &[Candidate], needed: bool) -> Made<()> {
    for candidate in candidates {
        if let Candidate::Symbol(symbol) = candidate {
            let is_there = !needed || is_needed(candidates, symbol);
            add_if(all, is_there, sign_of(symbol))?;
        }
    }
    Ok(())
}

// Adds what is expected: words first, then what they are called together, or else what may also go on.
fn add_expected(all: &mut Expected, candidates: &[Candidate]) -> Made<()> {
    add_words(all, candidates, false)?;
    add_signs(all, candidates, true)?;
    add_groups(all, candidates)?;
    if all.is_empty() {
        add_words(all, candidates, true)?;
    }
    if all.is_empty() {
        add_signs(all, candidates, false)?;
    }
    Ok(())
}

/// The most things that a message names.
const NAMED: usize = 9;

// What is said before a name, of so many.
fn before_name(place: usize, count: usize) -> &'static str {
    if place == 0 {
        "expected "
    } else if place.saturating_add(1) == count {
        " or "
    } else {
        ", "
    }
}

// Adds names to a page, as `expected A, AN or THE`.
fn add_names(page: &mut Page<'_>, names: &[&'static [u8]]) -> Made<()> {
    let shown = &names[..names.len().min(NAMED)];
    for (place, name) in shown.iter().enumerate() {
        let before = before_name(place, shown.len());
        page.say("{}{}", &[Words(before), Bytes(*name)])?;
    }
    Ok(())
}

/// What was expected, as `expected A, AN or THE`.
pub fn expected_words(alloc: Global, candidates: &[Candidate]) -> Made<Page<'static>> {
    if candidates.is_empty() {
        return Page::of(alloc, "it doesn't fit here", &[]);
    }
    let mut all = Vec::new(alloc);
    add_expected(&mut all, candidates)?;
    let mut page = Page::of(alloc, "", &[])?;
    add_names(&mut page, all.as_slice())?;
    Ok(page)
}
