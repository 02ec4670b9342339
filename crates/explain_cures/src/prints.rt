//! Changes of PRINT: its THUS, and its number of lines.

use crate::fixes::Fixes;
use crate::place::Place;
use explain_grammar::{begins_statement, is_frame_word};
use explain_pages::Part::{Count, Line, Words};
use explain_pages::{Made, has_field, word_at};
use ss_lex::{TokenKind, Word, tokens};
use std::alloc::Global;

fn print_before(here: &Place<'_>) -> Option<usize> {
    let mut before = (here.section..here.end()).rev();
    before.find(|index| here.word(*index) == Some(Word::Print))
}

// The first word from a token on, and before the place, that calls for pictures.
fn trigger_after(here: &Place<'_>, from: usize) -> Option<usize> {
    (from..here.end()).find(|index| calls_for_picture(here.word(*index)))
}

/// Whether a word calls for pictures.
pub fn calls_for_picture(word: Option<Word>) -> bool {
    matches!(word, Some(Word::Thus | Word::This | Word::Follows))
}

// A THUS at the end of the line of a PRINT that has none.
fn add_thus(fixes: &mut Fixes<'_>, here: &Place<'_>, print: usize) -> Made<()> {
    if trigger_after(here, print).is_some() {
        return Ok(());
    }
    let line = Line(here.line_of(print));
    fixes.insert(
        here.stretch(here.last_of_line(print)).end,
        &[Words(" THUS")],
        "The PRINT of line {} has no THUS: write THUS at the end of line {}. Without it the next line is no picture, but words of the model.",
        &[line, line],
    )
}

// The number of lines of a PRINT.
fn count_of(here: &Place<'_>, print: usize) -> Option<u64> {
    match here.kind(print.saturating_add(1))? {
        TokenKind::Number(number) => Some(number.unsigned_abs()),
        _ => None,
    }
}

// What so many lines are called.
fn lines(count: u64) -> &'static str {
    if count == 1 { "LINE" } else { "LINES" }
}

// One line of picture more, or two, or three, where the place is right after the pictures.
fn add_more_lines(fixes: &mut Fixes<'_>, here: &Place<'_>, print: usize) -> Made<()> {
    let Some(count) = count_of(here, print) else {
        return Ok(());
    };
    let index = print.saturating_add(1);
    let (place, number) = (here.line(), here.line_of(index));
    for more in 1..4 {
        let count = count.saturating_add(more);
        fixes.replace(
            here.stretch(index),
            &[Count(count)],
            "Line {} is no statement; it looks like a line of picture: write PRINT {} {} in line {}.",
            &[Line(place), Count(count), Words(lines(count)), Line(number)],
        )?;
    }
    Ok(())
}

fn looks_like_statement(alloc: Global, bytes: &[u8]) -> bool {
    if has_field(bytes) {
        return false;
    }
    match tokens(alloc, bytes) {
        Err(_) => false,
        Ok(all) => match word_at(all.list(), 0) {
            Some(word) => begins_statement(word) || is_frame_word(all.list(), 0),
            None => false,
        },
    }
}

// The first line of so many below this one that looks like a statement: how many are between them, and the line.
fn swallowed(alloc: Global, here: &Place<'_>, above: u32, count: u64) -> Option<(u64, u32)> {
    let mut line = above;
    for between in 0..count {
        line = line.saturating_add(1);
        if looks_like_statement(alloc, here.line_bytes(line)) {
            return Some((between, line));
        }
    }
    None
}

// A picture that looks like a statement is taken for one: there is a line fewer, or an empty line before it.
fn add_swallowed(fixes: &mut Fixes<'_>, here: &Place<'_>, print: usize) -> Made<()> {
    let (count, above) = match (count_of(here, print), trigger_after(here, print)) {
        (Some(count), Some(trigger)) if count <= 100 => (count, here.line_of(trigger)),
        _ => return Ok(()),
    };
    let Some((left, line)) = swallowed(fixes.alloc(), here, above, count) else {
        return Ok(());
    };
    let index = print.saturating_add(1);
    let (head, number) = (Line(here.line_of(print)), Line(here.line_of(index)));
    let parts = [Line(line), head, Count(left), Words(lines(left)), number];
    if left > 0 {
        return fixes.replace(
            here.stretch(index),
            &[Count(left)],
            "Line {} was taken as a picture of the PRINT of line {}: write PRINT {} {} in line {}.",
            &parts,
        );
    }
    fixes.insert(
        here.line_stretch(line).start,
        &[Words("\n")],
        "Line {} was taken as a picture of the PRINT of line {}: write its picture between them.",
        &parts,
    )
}

// The line ends after THUS, where a picture goes on there.
fn add_line_end(fixes: &mut Fixes<'_>, here: &Place<'_>) -> Made<()> {
    if here.begins_line() || trigger_after(here, here.before()).is_none() {
        return Ok(());
    }
    fixes.insert(
        here.stretch(here.at).start,
        &[Words("\n")],
        "A picture is a line of its own: end line {} after THUS, and write the picture into the next line.",
        &[Line(here.line())],
    )
}

// Whether the line of the place comes directly after the pictures of a PRINT.
fn is_after_pictures(here: &Place<'_>, print: usize) -> bool {
    let mut after: u32 = 0;
    for index in print..here.end() {
        if let Some(TokenKind::Picture(_)) = here.kind(index) {
            after = here.line_of(index).saturating_add(1);
        }
    }
    after == here.line() && !is_frame_word(here.tokens, here.at)
}

/// Adds the changes of PRINTs before the place.
pub fn add_prints(fixes: &mut Fixes<'_>, here: &Place<'_>) -> Made<()> {
    for index in here.section..here.end() {
        if here.word(index) == Some(Word::Print) {
            add_swallowed(fixes, here, index)?;
        }
    }
    let Some(print) = print_before(here) else {
        return Ok(());
    };
    add_thus(fixes, here, print)?;
    add_line_end(fixes, here)?;
    if has_field(here.line_bytes(here.line())) {
        add_further_lines(fixes, here)?;
    }
    Ok(())
}

/// Adds a larger number of lines for the PRINT before the place.
pub fn add_further_lines(fixes: &mut Fixes<'_>, here: &Place<'_>) -> Made<()> {
    match print_before(here) {
        Some(print) if is_after_pictures(here, print) => add_more_lines(fixes, here, print),
        _ => Ok(()),
    }
}
