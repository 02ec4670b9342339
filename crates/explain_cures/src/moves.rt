//! Changes by which some words of a statement are moved or written otherwise.

use crate::fixes::Fixes;
use crate::place::Place;
use explain_grammar::{head_at, is_among, leader_before};
use explain_pages::Part::{Bytes, Capitals, Line, Words};
use explain_pages::{Made, Page, Stretch};
use ss_lex::Symbol::{CloseParenthesis, OpenParenthesis};
use ss_lex::{Symbol, TokenKind, Word};

// Whether a token may be in a product, outside of its parentheses.
fn is_factor(here: &Place<'_>, index: usize) -> bool {
    matches!(
        here.kind(index),
        Some(
            TokenKind::Symbol(Symbol::CloseParenthesis | Symbol::Star)
                | TokenKind::Number(_)
                | TokenKind::Name(_)
                | TokenKind::Word(Word::TimeV | Word::TimeA)
        )
    )
}

// How many parentheses are open past a token: one more past this symbol, one less past the other.
fn depth_past(here: &Place<'_>, index: usize, depth: usize, more: Symbol, less: Symbol) -> usize {
    if here.is_symbol(index, more) {
        depth.saturating_add(1)
    } else if here.is_symbol(index, less) {
        depth.saturating_sub(1)
    } else {
        depth
    }
}

// The first token of the product that ends before the place, with its parentheses.
fn product_before(here: &Place<'_>) -> usize {
    let mut depth: usize = 0;
    let mut first = here.at;
    for index in (here.section..here.end()).rev() {
        if depth == 0 && !is_factor(here, index) {
            break;
        }
        depth = depth_past(here, index, depth, CloseParenthesis, OpenParenthesis);
        first = index;
    }
    first
}

// The last token of the factor after the place, with its parentheses.
fn factor_after(here: &Place<'_>) -> usize {
    let mut depth: usize = 0;
    let first = here.at.saturating_add(1);
    let mut last = first;
    for index in first..here.tokens.len() {
        if index > first && depth == 0 && !here.is_symbol(index, OpenParenthesis) {
            break;
        }
        depth = depth_past(here, index, depth, OpenParenthesis, CloseParenthesis);
        last = index;
        if depth == 0 && here.is_symbol(index, CloseParenthesis) {
            break;
        }
    }
    last
}

/// A stroke gives way to DIV.F.
pub fn add_division(fixes: &mut Fixes<'_>, here: &Place<'_>) -> Made<()> {
    if here.spelling(here.at) != b"/".as_slice() || here.at == 0 {
        return Ok(());
    }
    let (first, last) = (product_before(here), factor_after(here));
    let left = here.bytes(here.between(first, here.before()));
    let right = here.bytes(here.between(here.at.saturating_add(1), last));
    fixes.replace(
        here.between(first, last),
        &[
            Words("DIV.F("),
            Bytes(left),
            Words(", "),
            Bytes(right),
            Words(")"),
        ],
        "There is no sign for a division: write DIV.F({}, {}) in line {}, which drops what is left over.",
        &[Capitals(left), Capitals(right), Line(here.line())],
    )
}

// The last word of a SCHEDULE before the place with which a time begins.
fn time_before(here: &Place<'_>) -> Option<usize> {
    let leader = leader_before(here.tokens, here.section, here.at)?;
    if here.word(leader) != Some(Word::Schedule) {
        return None;
    }
    let mut before = (leader..here.at).rev();
    before.find(|index| { matches!(here.word(*index), Some(Word::At | Word::In | Word::Now)) })
}

// What is given comes before the time of a SCHEDULE.
fn add_given_first(fixes: &mut Fixes<'_>, here: &Place<'_>) -> Made<()> {
    let Some(Word::Given | Word::Giving | Word::Called) = here.word(here.at) else {
        return Ok(());
    };
    let Some(time) = time_before(here) else {
        return Ok(());
    };
    let last = here.last_of_line(here.at);
    let given = here.bytes(here.between(here.at, last));
    let at = here.bytes(here.between(time, here.before()));
    fixes.replace(
        here.between(time, last),
        &[Bytes(given), Words(" "), Bytes(at)],
        "The time comes last: write {} {} in line {}.",
        &[Capitals(given), Capitals(at), Line(here.line())],
    )
}

// A DEFINE after statements moves up to where its section begins.
fn add_define_first(fixes: &mut Fixes<'_>, here: &Place<'_>) -> Made<()> {
    if here.word(here.at) != Some(Word::Define)
        || here.opens.is_empty()
        || head_at(here.tokens, here.section).is_none()
        || !here.begins_line()
    {
        return Ok(());
    }
    let (head, line) = (here.line_of(here.section), here.line());
    let moved = here.line_stretch(line);
    let (start, end) = (here.line_stretch(head).end, moved.start);
    let passed = here.bytes(Stretch { start, end });
    let end = moved.end;
    fixes.replace(
        Stretch { start, end },
        &[Words("\n"), Bytes(here.bytes(moved)), Bytes(passed)],
        "A DEFINE comes before the statements of its section: move line {} up, directly after line {}.",
        &[Line(line), Line(head)],
    )
}

// Whether a token opens a parenthesis with which a condition begins.
fn is_round(here: &Place<'_>, index: usize) -> bool {
    index > 0
        && here.is_symbol(index, OpenParenthesis)
        && here.word(index.saturating_sub(1)).is_some_and(|word| is_among(
            word,
            "IF AND OR WITH WHEN UNLESS WHILE UNTIL",
        ))
}

// The parentheses round conditions in the line of the place are left out.
fn add_bare_conditions(fixes: &mut Fixes<'_>, here: &Place<'_>) -> Made<()> {
    let line = here.line();
    let mut all = here.section..here.tokens.len();
    let Some(first) = all.find(|index| here.line_of(*index) == line && is_round(here, *index))
    else {
        return Ok(());
    };
    let last = here.last_of_line(first);
    let mut depth: usize = 0;
    let mut with = Page::of(fixes.alloc(), "", &[])?;
    for index in first..last.saturating_add(1) {
        let closes = here.is_symbol(index, CloseParenthesis);
        if depth == 0 && (closes || is_round(here, index)) {
            continue;
        }
        depth = depth_past(here, index, depth, OpenParenthesis, CloseParenthesis);
        with.say("{} ", &[Bytes(here.spelling(index))])?;
    }
    fixes.replace(
        here.between(first, last),
        &[Bytes(with.bytes())],
        "Conditions have no parentheses: leave them out in line {}. AND binds more tightly than OR.",
        &[Line(line)],
    )
}

/// Adds the changes by which words are moved, or parentheses left out.
pub fn add_moves(fixes: &mut Fixes<'_>, here: &Place<'_>) -> Made<()> {
    add_given_first(fixes, here)?;
    add_define_first(fixes, here)?;
    add_bare_conditions(fixes, here)
}
