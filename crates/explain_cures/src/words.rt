//! Changes of single words: one is put in, left out, or gives way to another.

use crate::fixes::Fixes;
use crate::moves::{add_division, add_moves};
use crate::place::Place;
use explain_grammar::{
    Candidate, Construct, WORDS, begins_statement, head_at, is_among, is_value_word, spelling_of,
};
use explain_pages::Part::{Bytes, Capitals, Line, Words};
use explain_pages::{Made, Part, is_first_of_line, is_like, is_named};
use ss_lex::{Symbol, TokenKind, Word};

/// Words of this language, and what other languages have for them, with a stroke between two of these.
static CONFUSIONS: [(&str, &str); 27] = [
    ("EVENT NOTICES INCLUDE", "EVENT INCLUDE"),
    ("EVENT NOTICES INCLUDE", "EVENT NOTICE INCLUDE"),
    ("MAY BELONG TO", "BELONGS TO|BELONG TO"),
    ("MAY BELONG TO", "CAN BELONG TO|MAY BELONGS TO"),
    ("ALWAYS", "END IF|ENDIF|FI"),
    ("LOOP", "END FOR|END LOOP|END WHILE|END DO|WEND|NEXT"),
    ("LOOP", "ENDDO|ENDFOR|ENDWHILE"),
    ("ELSE IF", "ELSEIF|ELSIF|ELIF"),
    ("GE", "> =|= >|IS GREATER OR EQUAL TO"),
    ("LE", "< =|= <|IS LESS OR EQUAL TO"),
    ("NE", "< >|! =|/ =|NOT EQUAL"),
    ("=", "= =|: ="),
    ("GT", ">"),
    ("LT", "<"),
    ("GIVEN", "GIVING|WITH|USING"),
    ("HAS", "HAVE"),
    ("OWNS", "OWN"),
    ("PRINT", "WRITE"),
    ("START SIMULATION", "SIMULATE"),
    ("DESTROY THE", "DELETE"),
    ("FILE THE", "INSERT|PUT"),
    ("IN", "INTO"),
    ("ENTITIES", "ENTITY"),
    ("EVENT NOTICES", "PROCESSES"),
    ("ROUTINE", "SUBROUTINE|PROCEDURE|FUNCTION"),
    ("INTEGER", "INT"),
    ("ALPHA", "TEXT|STRING"),
];

/// The small words, and those of the frame of statements: none is meant as a name.
const SMALL: &str =
    "A AN THE AND OR AS AT BY DO OF IN IS TO FROM WITH WHEN GIVEN GIVING YIELDING SAVING CALLED HAS OWNS MAY THUS LIKE THAN THEN NOT ELSE ALWAYS END LOOP INCLUDE";

/// The words that are often taken for names.
const NOUNS: &str =
    "NUMBER ORDER LINE UNITS SET EVENT CASE MODE DATA SUM MEAN MINIMUM MAXIMUM HIGH LOW TIES TOTALS SYSTEM OUTPUT NOTICE ENTITIES VARIABLE PRIORITY BREAK";

/// Words that are put in where any of several would do: the two that show it, what they are called, and those that are tried.
static CHOICES: [(Word, Word, &str, &str); 7] = [
    (Word::And, Word::Or, "AND or OR", "AND"),
    (Word::Routine, Word::Main, "ROUTINE or EVENT", "ROUTINE"),
    (Word::Integer, Word::Alpha, "INTEGER or ALPHA", "INTEGER"),
    (
        Word::Number,
        Word::Maximum,
        "NUMBER, SUM, MEAN, MAXIMUM or MINIMUM",
        "NUMBER",
    ),
    (Word::Eq, Word::Ge, "a relation, as =, GT or LT,", "EQ"),
    (Word::Let, Word::While, "WHILE, UNTIL or IF", "WHILE IF"),
    (
        Word::Let,
        Word::Destroy,
        "the word with which the statement begins, as DESTROY, FILE or REMOVE,",
        "DESTROY CANCEL FILE REMOVE",
    ),
];

// The last of the tokens from this one on that are spelled as these words; None where they are spelled otherwise.
fn last_spelled(here: &Place<'_>, first: usize, words: &[u8]) -> Option<usize> {
    let mut next = first;
    for word in words.split(|byte| *byte == b' ') {
        if !here.spelling(next).eq_ignore_ascii_case(word) {
            return None;
        }
        next = next.saturating_add(1);
    }
    Some(next.saturating_sub(1))
}

fn put_in_place<'a>(
    fixes: &mut Fixes<'_>,
    here: &Place<'a>,
    first: usize,
    last: usize,
    word: &'a [u8],
) -> Made<()> {
    let stretch = here.between(first, last);
    let (wrong, line) = (here.bytes(stretch), here.line_of(first));
    fixes.replace(
        stretch,
        &[Words(" "), Bytes(word), Words(" ")],
        "Write {} in place of {} in line {}.",
        &[Bytes(word), Capitals(wrong), Line(line)],
    )
}

fn put_before<'a>(
    fixes: &mut Fixes<'_>,
    here: &Place<'a>,
    index: usize,
    called: Part<'a>,
    with: Part<'a>,
) -> Made<()> {
    let line = Line(here.line_of(index));
    fixes.insert(
        here.stretch(index).start,
        &[Words(" "), with, Words(" ")],
        "Write {} before {} in line {}.",
        &[called, here.called(index), line],
    )
}

// Words are put in before the place; after the token before it, where that is in another line and the words begin nothing.
fn put_in<'a>(
    fixes: &mut Fixes<'_>,
    here: &Place<'a>,
    called: Part<'a>,
    with: Part<'a>,
    begins: bool,
) -> Made<()> {
    if here.at == 0 || begins || !here.begins_line() {
        return put_before(fixes, here, here.at, called, with);
    }
    let before = here.before();
    let line = Line(here.line_of(before));
    fixes.insert(
        here.stretch(before).end,
        &[Words(" "), with, Words(" ")],
        "Write {} after {} at the end of line {}.",
        &[called, here.called(before), line],
    )
}

// Words of other languages that begin at a token and reach the place, or the token before it.
fn add_confusion<'a>(
    fixes: &mut Fixes<'_>,
    here: &Place<'a>,
    first: usize,
    right: &'a [u8],
    wrongs: &[u8],
) -> Made<()> {
    for wrong in wrongs.split(|byte| *byte == b'|') {
        match last_spelled(here, first, wrong) {
            Some(last) if last >= here.before() => {
                put_in_place(fixes, here, first, last, right)?;
            }
            _ => {}
        }
    }
    Ok(())
}

// Words of other languages that begin at the place or just before it.
fn add_confusions(fixes: &mut Fixes<'_>, here: &Place<'_>) -> Made<()> {
    for first in (here.at.saturating_sub(3)..here.at.saturating_add(1)).rev() {
        for (right, wrongs) in &CONFUSIONS {
            add_confusion(fixes, here, first, right.as_bytes(), wrongs.as_bytes())?;
        }
    }
    Ok(())
}

// Whether a name is both in the preamble and in a section, so that it is no word that was spelled wrongly.
fn is_shared(here: &Place<'_>, name: &[u8]) -> bool {
    let count = here.tokens.len();
    let first = (0..count).find(|index| head_at(here.tokens, *index).is_some());
    let first = first.unwrap_or(count);
    let mut preamble = here.tokens.iter().take(first);
    let mut sections = here.tokens.iter().skip(first);
    preamble.any(|token| is_named(token, name)) && sections.any(|token| is_named(token, name))
}

fn is_name(here: &Place<'_>, index: usize) -> bool {
    matches!(here.kind(index), Some(TokenKind::Name(_)))
}

// A name gives way to a word that is spelled alike.
fn add_alike(fixes: &mut Fixes<'_>, here: &Place<'_>, index: usize) -> Made<()> {
    let Some(TokenKind::Name(name)) = here.kind(index) else {
        return Ok(());
    };
    if is_shared(here, name.bytes()) {
        return Ok(());
    }
    for spelling in WORDS.as_bytes().split(|byte| *byte == b' ') {
        if is_like(fixes.alloc(), name.bytes(), spelling)? {
            put_in_place(fixes, here, index, index, spelling)?;
        }
    }
    Ok(())
}

// The token that does not fit, or one of the two before it, gives way to a word that is spelled alike.
fn add_misspelled(fixes: &mut Fixes<'_>, here: &Place<'_>) -> Made<()> {
    let is_comma = here.is_symbol(here.at, Symbol::Comma);
    let last = here.at.saturating_add(usize::from(is_comma));
    for index in (last.saturating_sub(2)..last.saturating_add(1)).rev() {
        add_alike(fixes, here, index)?;
    }
    Ok(())
}

// Whether a statement, a declaration or a section begins with the word.
fn begins_something(word: Word) -> bool {
    begins_statement(word)
        || is_among(
            word,
            "DEFINE EVERY TALLY ACCUMULATE NORMALLY EVENT ROUTINE MAIN PREAMBLE",
        )
}

// Whether a token is a reserved word that may be meant as a name: no word of the frame of statements, and no small one.
fn may_be_name(here: &Place<'_>, index: usize) -> bool {
    let Some(word) = here.word(index) else {
        return false;
    };
    let begins = is_first_of_line(here.tokens, index) && begins_something(word);
    !begins && !is_among(word, SMALL) && head_at(here.tokens, index).is_none()
}

// A reserved word that is used as a name gives way to a name.
fn add_renamed(fixes: &mut Fixes<'_>, here: &Place<'_>, index: usize) -> Made<()> {
    if !may_be_name(here, index) {
        return Ok(());
    }
    let spelling = here.called(index);
    fixes.replace(
        here.stretch(index),
        &[Words(" "), spelling, Words(".1 ")],
        "{} is a word of the language and no name: use another name, as {}.1, in every line.",
        &[spelling, spelling],
    )
}

// Whether an article is the wrong one of A and AN for what follows.
fn is_wrong_article(here: &Place<'_>, word: Word) -> bool {
    let first = here.spelling(here.at).first();
    let vowel = first.is_some_and(|byte| b"AEIOU".contains(&byte.to_ascii_uppercase()));
    match word {
        Word::A => vowel && here.may_be(Word::An),
        Word::An => !vowel && here.may_be(Word::A),
        _ => false,
    }
}

// Each expected word is put in, or takes the place of what is there.
fn add_expected(fixes: &mut Fixes<'_>, here: &Place<'_>, replaces: bool) -> Made<()> {
    for candidate in here.candidates {
        let Candidate::Word(word) = candidate else {
            continue;
        };
        if is_wrong_article(here, *word) || is_value_word(*word) {
            continue;
        }
        let spelling = spelling_of(*word);
        if replaces {
            put_in_place(fixes, here, here.at, here.at, spelling)?;
        } else {
            let (spelling, begins) = (Bytes(spelling), begins_something(*word));
            put_in(fixes, here, spelling, spelling, begins)?;
        }
    }
    Ok(())
}

fn add_signs(fixes: &mut Fixes<'_>, here: &Place<'_>) -> Made<()> {
    for candidate in here.candidates {
        let (called, with) = match candidate {
            Candidate::Symbol(Symbol::CloseParenthesis) => (")", ")"),
            Candidate::Symbol(Symbol::OpenParenthesis) => ("(", "("),
            Candidate::Symbol(Symbol::Equals) => ("=", "="),
            Candidate::Separator => ("a comma", ","),
            _ => continue,
        };
        put_in(fixes, here, Words(called), Words(with), false)?;
    }
    Ok(())
}

// The group that an EVERY is in has no head.
fn add_group(fixes: &mut Fixes<'_>, here: &Place<'_>) -> Made<()> {
    for index in (here.before()..here.at.saturating_add(1)).rev() {
        if here.word(index) == Some(Word::Every) {
            fixes.insert(
                here.stretch(index).start,
                &[Words(" TEMPORARY ENTITIES ")],
                "Say first what kind of entities come: write TEMPORARY ENTITIES, or PERMANENT ENTITIES or EVENT NOTICES, before EVERY in line {}.",
                &[Line(here.line_of(index))],
            )?;
        }
    }
    Ok(())
}

// A word is missing before one of the last tokens before the place.
fn add_earlier(fixes: &mut Fixes<'_>, here: &Place<'_>) -> Made<()> {
    let most = if here.candidates.is_empty() { 3 } else { 1 };
    for index in (here.at.saturating_sub(most)..here.at).rev() {
        put_before(fixes, here, index, Words("a value"), Words("A.NAME"))?;
        for spelling in WORDS.as_bytes().split(|byte| *byte == b' ') {
            if !spelling.contains(&b'.') && spelling != b"ALL".as_slice() {
                put_before(fixes, here, index, Bytes(spelling), Bytes(spelling))?;
            }
        }
    }
    Ok(())
}

fn is_routine(here: &Place<'_>, name: &[u8]) -> bool {
    (1..here.tokens.len()).any(|index| {
        here.word(index.saturating_sub(1)) == Some(Word::Routine)
            && here.spelling(index).eq_ignore_ascii_case(name)
    })
}

// The first word of a statement that begins with a name.
fn add_first_word(fixes: &mut Fixes<'_>, here: &Place<'_>) -> Made<()> {
    if !is_name(here, here.at) || !here.may_be(Word::Let) {
        return Ok(());
    }
    if here.is_symbol(here.at.saturating_add(1), Symbol::Equals) {
        return put_in(fixes, here, Words("LET"), Words("LET"), true);
    }
    let called = if is_routine(here, here.spelling(here.at)) {
        "CALL"
    } else {
        "the word with which the statement begins, as READ or CALL,"
    };
    put_in(fixes, here, Words(called), Words("CALL"), true)
}

// Words are put in where any of several would do.
fn add_choices(fixes: &mut Fixes<'_>, here: &Place<'_>) -> Made<()> {
    for (one, other, called, tried) in &CHOICES {
        if here.may_be(*one) && here.may_be(*other) {
            for word in tried.as_bytes().split(|byte| *byte == b' ') {
                put_in(fixes, here, Words(called), Bytes(word), *one == Word::Let)?;
            }
        }
    }
    if here.may_be(Word::Temporary) && here.word(here.at) == Some(Word::Entities) {
        let called = Words("TEMPORARY or PERMANENT");
        put_in(fixes, here, called, Words("TEMPORARY"), true)?;
    }
    Ok(())
}

// The preamble has no END before the EVENT of a section.
fn add_end_of_preamble(fixes: &mut Fixes<'_>, here: &Place<'_>) -> Made<()> {
    let last = here.opens.last();
    let in_preamble = last.is_some_and(|open| open.construct == Construct::Preamble);
    let index = here.before();
    if !in_preamble || here.word(index) != Some(Word::Event) {
        return Ok(());
    }
    fixes.insert(
        here.stretch(index).start,
        &[Words(" END\n")],
        "The PREAMBLE has no END: write END before EVENT in line {}.",
        &[Line(here.line_of(index))],
    )
}

// Whether a token is a value or part of one: with a parenthesis that ends it, or one that begins it.
fn is_value(here: &Place<'_>, index: usize, parenthesis: Symbol) -> bool {
    match here.kind(index) {
        Some(TokenKind::Name(_) | TokenKind::Number(_)) => true,
        _ => here.is_symbol(index, parenthesis),
    }
}

// What is missing between two values, or two names, in one line: a comma, or a sign.
fn add_between(fixes: &mut Fixes<'_>, here: &Place<'_>) -> Made<()> {
    if here.begins_line() {
        return Ok(());
    }
    let (before, found) = (here.before(), here.at);
    if is_name(here, before) && is_name(here, found) {
        put_in(fixes, here, Words("a comma"), Words(","), false)?;
    }
    let may_multiply = here.candidates.contains(&Candidate::Symbol(Symbol::Star));
    if may_multiply
        && is_value(here, before, Symbol::CloseParenthesis)
        && is_value(here, found, Symbol::OpenParenthesis)
    {
        put_in(fixes, here, Words("a sign, as + or *,"), Words("+"), false)?;
    }
    Ok(())
}

// A name is missing after a separator, at which the reading stopped.
fn add_later_names(fixes: &mut Fixes<'_>, here: &Place<'_>) -> Made<()> {
    let is_comma = here.is_symbol(here.at, Symbol::Comma);
    if !is_comma && here.word(here.at) != Some(Word::And) {
        return Ok(());
    }
    let first = here.at.saturating_add(1);
    for index in first..here.tokens.len().min(first.saturating_add(3)) {
        fixes.insert(
            here.stretch(index).start,
            &[Words(" A.NAME ")],
            "Write a name or a value before {} in line {}, where one is missing after the comma, or leave the comma out.",
            &[here.called(index), Line(here.line_of(index))],
        )?;
    }
    Ok(())
}

// A name, a value or a number is put in.
fn add_nouns(fixes: &mut Fixes<'_>, here: &Place<'_>) -> Made<()> {
    let has_name = here.candidates.contains(&Candidate::Name);
    let has_number = here.candidates.contains(&Candidate::Number);
    match (has_name, has_number) {
        (true, true) => put_in(fixes, here, Words("a value"), Words("A.NAME"), false),
        (true, false) => put_in(fixes, here, Words("a name"), Words("A.NAME"), false),
        (false, true) => put_in(fixes, here, Words("a number"), Words("1"), false),
        (false, false) => Ok(()),
    }
}

/// Adds the changes that say most: words of other languages, words that are spelled wrongly, a stroke.
pub fn add_likely(fixes: &mut Fixes<'_>, here: &Place<'_>) -> Made<()> {
    add_division(fixes, here)?;
    add_confusions(fixes, here)?;
    add_misspelled(fixes, here)
}

/// Adds the changes by which something is moved or put in.
pub fn add_missing(fixes: &mut Fixes<'_>, here: &Place<'_>) -> Made<()> {
    add_moves(fixes, here)?;
    add_group(fixes, here)?;
    if here.candidates.contains(&Candidate::Name) {
        add_renamed(fixes, here, here.at)?;
    }
    add_between(fixes, here)?;
    add_first_word(fixes, here)?;
    add_end_of_preamble(fixes, here)?;
    add_choices(fixes, here)?;
    add_expected(fixes, here, false)?;
    add_signs(fixes, here)?;
    add_nouns(fixes, here)?;
    add_later_names(fixes, here)
}

/// Adds the changes that are tried where no other helps: words that give way to others, or are left out.
pub fn add_unlikely(fixes: &mut Fixes<'_>, here: &Place<'_>) -> Made<()> {
    if here.kind(here.at).is_some() {
        add_expected(fixes, here, true)?;
    }
    let before = here.word(here.before());
    if here.at > 0 && before.is_some_and(|word| is_among(word, NOUNS)) {
        add_renamed(fixes, here, here.before())?;
    }
    add_earlier(fixes, here)?;
    if here.kind(here.at).is_none() {
        return Ok(());
    }
    fixes.replace(
        here.stretch(here.at),
        &[Words("  ")],
        "Leave {} out in line {}.",
        &[here.called(here.at), Line(here.line())],
    )
}
