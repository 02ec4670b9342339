//! Texts that are no programs: refusals 41 and 42.

use crate::fixes::{Fixes, Window, left_after};
use crate::frames::add_frames;
use crate::place::Place;
use crate::prints::{add_further_lines, add_prints};
use crate::words::{add_likely, add_missing, add_unlikely};
use explain_grammar::{
    Candidate, Construct, STATEMENT, candidates_after, expected_words, form_of, has_group,
    has_token, is_frame_word, leader_before, opens_at, section_before,
};
use explain_pages::Part::{Bytes, Count, Line, Words};
use explain_pages::{Made, Page, line_of, line_starts};
use ss_lex::Token;
use std::alloc::Global;

// Adds changes, the likeliest first, until one is good.
fn add_fixes(fixes: &mut Fixes<'_>, here: &Place<'_>) -> Made<()> {
    add_likely(fixes, here)?;
    if fixes.best.is_none() {
        add_prints(fixes, here)?;
        if is_frame_word(here.tokens, here.at) {
            add_frames(fixes, here)?;
        }
        add_missing(fixes, here)?;
    }
    if fixes.best.is_none() {
        add_unlikely(fixes, here)?;
        add_further_lines(fixes, here)?;
    }
    Ok(())
}

// How many bytes of a window may be left, and one more, where a change is good: it is read past the token after the place.
fn good_enough(here: &Place<'_>, window: Window<'_>, left: usize) -> usize {
    let end = window.start.saturating_add(window.bytes.len());
    let past = match here.tokens.get(here.at.saturating_add(2)) {
        Some(token) => end.saturating_sub(token.span.start).saturating_add(1),
        None => 0,
    };
    past.min(left.saturating_sub(1))
}

// Adds the cure that was found by trial, and says whether there is one.
fn add_cure(page: &mut Page<'_>, here: &Place<'_>) -> Made<bool> {
    let Some(window) = here.window() else {
        return Ok(false);
    };
    let Some(left) = left_after(page.alloc(), window.bytes)? else {
        return Ok(false);
    };
    let most = good_enough(here, window, left);
    let mut fixes = Fixes::new(page.alloc(), window, most);
    add_fixes(&mut fixes, here)?;
    if let Some(said) = &fixes.best {
        page.cure("{}", &[Bytes(said.bytes())])?;
        return Ok(true);
    }
    Ok(false)
}

// Adds the form of the statement or the declaration in which the place is.
fn add_form(page: &mut Page<'_>, here: &Place<'_>) -> Made<()> {
    if has_group(here.candidates, &STATEMENT) && here.begins_line() {
        return page.line(
            "Form: a statement begins with LET, ADD, SUBTRACT, READ, PRINT, SKIP, IF, FOR, WHILE, UNTIL, CALL, RETURN, STOP, START, CREATE, DESTROY, FILE, REMOVE, SCHEDULE, CANCEL or RESET",
            &[],
        );
    }
    let leader = leader_before(here.tokens, here.section, here.at);
    match leader.and_then(|leader| form_of(here.word(leader)?)) {
        Some(form) => page.line("Form: {}", &[Words(form)]),
        None => Ok(()),
    }
}

// Adds the constructs that are open at the place, each with its line, the last first.
fn add_opens(page: &mut Page<'_>, here: &Place<'_>) -> Made<()> {
    let candidates = here.candidates;
    let is_between = candidates.is_empty() || has_group(candidates, &STATEMENT);
    if !is_frame_word(here.tokens, here.at) || here.opens.is_empty() || !is_between {
        return Ok(());
    }
    page.line("Open there, the last first:", &[])?;
    for open in here.opens.iter().rev() {
        page.show(here.line_of(open.token))?;
    }
    Ok(())
}

// Adds the place and what was expected there.
fn add_place(page: &mut Page<'_>, here: &Place<'_>) -> Made<()> {
    let expected = expected_words(page.alloc(), here.candidates)?;
    let (line, found) = (here.line(), here.called(here.at));
    let parts = [Line(line), found, Bytes(expected.bytes())];
    page.line("line {}, {}: {}", &parts)?;
    page.show_marked(line, here.stretch(here.at))
}

// What may come at a token, in the section that it is in.
fn candidates_at(alloc: Global, tokens: &[Token], at: usize) -> Made<Vec<Candidate>> {
    let before = tokens.get(section_before(tokens, at)..at);
    candidates_after(alloc, before.unwrap_or(&[]))
}

// The place that does not fit, and what may come there. Where reading stopped after a word that fits nowhere, that is the word.
fn place_of(alloc: Global, tokens: &[Token], at: usize) -> Made<(usize, Vec<Candidate>)> {
    let candidates = candidates_at(alloc, tokens, at)?;
    let before = at.saturating_sub(1);
    if !candidates.is_empty() || at == 0 {
        return Ok((at, candidates));
    }
    let earlier = candidates_at(alloc, tokens, before)?;
    match tokens.get(before) {
        Some(token) if !earlier.is_empty() && !has_token(earlier.as_slice(), token) => {
            Ok((before, earlier))
        }
        _ => Ok((at, candidates)),
    }
}

fn explain_place(page: &mut Page<'_>, here: &Place<'_>) -> Made<()> {
    add_place(page, here)?;
    add_opens(page, here)?;
    if !add_cure(page, here)? {
        add_form(page, here)?;
    }
    Ok(())
}

/// Explains a text whose tokens are read no further than to one of them.
pub fn explain_syntax(page: &mut Page<'_>, tokens: &[Token], at: usize) -> Made<()> {
    let (at, candidates) = place_of(page.alloc(), tokens, at)?;
    let section = section_before(tokens, at);
    let opens = opens_at(page.alloc(), tokens, section, at)?;
    let starts = line_starts(page.alloc(), page.about)?;
    let here = Place {
        text: page.about,
        starts: starts.as_slice(),
        tokens,
        at,
        section,
        candidates: candidates.as_slice(),
        opens: opens.as_slice(),
    };
    explain_place(page, &here)
}

/// Explains a text in which more levels of nesting are open than may be.
pub fn explain_depth(page: &mut Page<'_>, tokens: &[Token], at: usize) -> Made<()> {
    let line = line_of(tokens, at);
    let words = "line {}: more than 64 parentheses, IFs and loops are open";
    page.line(words, &[Line(line)])?;
    page.show(line)?;
    let opens = opens_at(page.alloc(), tokens, section_before(tokens, at), at)?;
    let ifs = opens.iter().filter(|open| open.construct == Construct::If);
    page.cure(
        "Put the inner statements into a ROUTINE, or close what is open: {} IFs have no ALWAYS yet.",
        &[Count(ifs.count() as u64)],
    )
}
