//! Changes for what is open too long or closed too early: IFs without ALWAYS, loops without DO or LOOP, sections without END.

use crate::fixes::Fixes;
use crate::place::Place;
use crate::prints::calls_for_picture;
use explain_grammar::{Construct, Open, begins_statement};
use explain_pages::Part::{Bytes, Capitals, Line, Words};
use explain_pages::{Made, Page, indentation, is_blank, is_first_of_line};
use ss_lex::{TokenKind, Word};

// Whether an IF has a statement on its own line, and the line has fewer ALWAYS than IFs from it on.
fn is_short(here: &Place<'_>, token: usize) -> bool {
    let mut has_statement = false;
    let mut ifs: usize = 0;
    let mut closed: usize = 0;
    for index in token..here.last_of_line(token).saturating_add(1) {
        match here.word(index) {
            Some(Word::If) => ifs = ifs.saturating_add(1),
            Some(Word::Always) => closed = closed.saturating_add(1),
            Some(word) => has_statement = has_statement || begins_statement(word),
            None => {}
        }
    }
    has_statement && closed < ifs
}

// An ALWAYS at the end of the line of a short IF.
fn add_short_if(fixes: &mut Fixes<'_>, here: &Place<'_>, token: usize) -> Made<()> {
    let last = here.last_of_line(token);
    if !is_short(here, token) || calls_for_picture(here.word(last)) {
        return Ok(());
    }
    let line = Line(here.line_of(token));
    fixes.insert(
        here.stretch(last).end,
        &[Words(" ALWAYS")],
        "The IF of line {} has no ALWAYS: an IF on one line needs it too. Write ALWAYS at the end of line {}.",
        &[line, line],
    )
}

// The ALWAYS that closes the inner IF of an `ELSE IF` of an IF.
fn end_of_else_if(here: &Place<'_>, token: usize) -> Option<usize> {
    let mut depth: usize = 0;
    let mut chained = false;
    for index in token..here.end() {
        match here.word(index) {
            Some(Word::If) => depth = depth.saturating_add(1),
            Some(Word::Always) => {
                if chained && depth == 2 {
                    return Some(index);
                }
                depth = depth.saturating_sub(1);
            }
            Some(Word::Else) => {
                let is_if = here.word(index.saturating_add(1)) == Some(Word::If);
                chained = chained || (depth == 1 && is_if);
            }
            _ => {}
        }
    }
    None
}

// A second ALWAYS after that of the inner IF of an `ELSE IF`.
fn add_else_if(fixes: &mut Fixes<'_>, here: &Place<'_>, token: usize) -> Made<()> {
    let Some(always) = end_of_else_if(here, token) else {
        return Ok(());
    };
    fixes.insert(
        here.stretch(always).end,
        &[Words(" ALWAYS")],
        "The IF of line {} is still open: an ELSE IF is a second IF inside the first, so two ALWAYS are due. Write ALWAYS ALWAYS in line {}.",
        &[Line(here.line_of(token)), Line(here.line_of(always))],
    )
}

fn is_picture_line(here: &Place<'_>, from: usize, line: u32) -> bool {
    let further = here.tokens.iter().skip(from);
    further.take_while(|token| token.line.0 <= line).any(|token| {
        token.line.0 == line && matches!(&token.kind, TokenKind::Picture(_))
    })
}

// The word with which a line begins, from a token on.
fn first_word(here: &Place<'_>, from: usize, line: u32) -> Option<Word> {
    let index = (from..here.tokens.len()).find(|index| here.line_of(*index) >= line)?;
    if here.line_of(index) == line {
        here.word(index)
    } else {
        None
    }
}

// The line before which a construct ends by how the lines are indented: the first that is no deeper than it and does not
// belong to it. None where the lines do not say.
fn end_by_indentation(here: &Place<'_>, open: Open) -> Option<u32> {
    if !is_first_of_line(here.tokens, open.token) {
        return None;
    }
    let first = here.line_of(open.token);
    let depth = indentation(here.line_bytes(first));
    let is_if = open.construct == Construct::If;
    let closer = Some(if is_if { Word::Always } else { Word::Loop });
    let mut was_deeper = false;
    for line in first.saturating_add(1)..here.line().saturating_add(1) {
        let bytes = here.line_bytes(line);
        if is_blank(bytes) || is_picture_line(here, open.token, line) {
            continue;
        }
        let is_deeper = indentation(bytes) > depth;
        if !is_deeper {
            let word = first_word(here, open.token, line);
            let is_level = indentation(bytes) == depth;
            if is_level && word == closer {
                return None;
            }
            if was_deeper && !(is_level && is_if && word == Some(Word::Else)) {
                return Some(line);
            }
        }
        was_deeper = is_deeper;
    }
    None
}

// The end of the last line before this one that is neither empty nor a comment.
fn end_before(here: &Place<'_>, line: u32) -> usize {
    let mut before = (1..line).rev();
    let last = before.find(|line| *line == 1 || !is_blank(here.line_bytes(*line)));
    here.line_stretch(last.unwrap_or(0)).end
}

// What closes an IF or a loop, in a line of its own after the last line that is deeper.
fn add_by_indentation(fixes: &mut Fixes<'_>, here: &Place<'_>, open: Open) -> Made<()> {
    let Some(line) = end_by_indentation(here, open) else {
        return Ok(());
    };
    let closer = Words(open.construct.closer());
    let is_here = line == here.line();
    let found = if is_here {
        here.called(here.at)
    } else {
        Words("")
    };
    fixes.insert(
        end_before(here, line),
        &[Words("\n"), closer],
        "The {} of line {} is still open{}{}{}: write {} before line {}.",
        &[
            Words(open.construct.word()),
            Line(here.line_of(open.token)),
            Words(if is_here { " where " } else { "" }),
            found,
            Words(if is_here { " comes" } else { "" }),
            closer,
            Line(line),
        ],
    )
}

// The name of a routine or an event that is open; empty for another construct.
fn name_of<'a>(here: &Place<'a>, open: Open) -> &'a [u8] {
    match open.construct {
        Construct::Routine | Construct::Event => here.spelling(open.token.saturating_add(1)),
        _ => &[],
    }
}

// What closes a construct, directly before the place.
fn add_before_place(fixes: &mut Fixes<'_>, here: &Place<'_>, open: Open) -> Made<()> {
    let name = name_of(here, open);
    let closer = Words(open.construct.closer());
    let is_open = match open.construct {
        Construct::If | Construct::Loop => "is still open",
        _ => "has no END",
    };
    let words = match here.kind(here.at) {
        Some(_) => "The {}{}{} of line {} {}: write {} before {} in line {}.",
        None => "The {}{}{} of line {} {}: write {} before {}.",
    };
    fixes.insert(
        here.stretch(here.at).start,
        &[Words("\n"), closer, Words("\n")],
        words,
        &[
            Words(open.construct.word()),
            Words(if name.is_empty() { "" } else { " " }),
            Capitals(name),
            Line(here.line_of(open.token)),
            Words(is_open),
            closer,
            here.called(here.at),
            Line(here.line()),
        ],
    )
}

// What closes all that is open, directly before the place.
fn add_all_before_place(fixes: &mut Fixes<'_>, here: &Place<'_>) -> Made<()> {
    let mut list = Page::of(fixes.alloc(), "", &[])?;
    let mut with = Page::of(fixes.alloc(), "", &[])?;
    for open in here.opens.iter().rev() {
        let comma = Words(if list.text.is_empty() { "" } else { ", " });
        let line = Line(here.line_of(open.token));
        list.say(
            "{}{} of line {}",
            &[comma, Words(open.construct.word()), line],
        )?;
        with.say("\n{}", &[Words(open.construct.closer())])?;
    }
    with.say("\n", &[])?;
    fixes.insert(
        here.stretch(here.at).start,
        &[Bytes(with.bytes())],
        "Still open there: {}. Close each, the last first, by ALWAYS, LOOP and END.",
        &[Bytes(list.bytes())],
    )
}

// Changes for the IFs of the section, the last first.
fn add_ifs(fixes: &mut Fixes<'_>, here: &Place<'_>) -> Made<()> {
    for index in (here.section..here.end()).rev() {
        if here.word(index) == Some(Word::If) {
            add_short_if(fixes, here, index)?;
        }
    }
    for open in here.opens.iter().rev() {
        if open.construct == Construct::If {
            add_else_if(fixes, here, open.token)?;
        }
    }
    for token in (here.section..here.end()).rev() {
        if here.word(token) == Some(Word::If) {
            let construct = Construct::If;
            add_by_indentation(fixes, here, Open { construct, token })?;
        }
    }
    Ok(())
}

// Changes for the loops of the section, the last first: what closes them, or a DO at the end of a head's line.
fn add_loops(fixes: &mut Fixes<'_>, here: &Place<'_>) -> Made<()> {
    for open in here.opens.iter().rev() {
        if open.construct == Construct::Loop {
            add_by_indentation(fixes, here, *open)?;
        }
    }
    if here.word(here.at) != Some(Word::Loop) {
        return Ok(());
    }
    for index in (here.section..here.end()).rev() {
        if let Some(Word::For | Word::While | Word::Until) = here.word(index) {
            fixes.insert(
                here.stretch(here.last_of_line(index)).end,
                &[Words(" DO")],
                "A loop over more than one statement is DO .. LOOP: write DO at the end of line {}.",
                &[Line(here.line_of(index))],
            )?;
        }
    }
    Ok(())
}

/// Adds the changes for a place where a construct is open too long, or closed too early.
pub fn add_frames(fixes: &mut Fixes<'_>, here: &Place<'_>) -> Made<()> {
    add_ifs(fixes, here)?;
    add_loops(fixes, here)?;
    if let Some(open) = here.opens.last() {
        add_before_place(fixes, here, *open)?;
    }
    if here.opens.len() > 1 {
        add_all_before_place(fixes, here)?;
    }
    Ok(())
}
