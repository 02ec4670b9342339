//! How reserved words are spelled, and the forms of statements and declarations.

use crate::opens::{head_at, word_before};
use explain_pages::word_at;
use ss_lex::{Token, Word};

/// The form of what begins with this word.
pub fn form_of(word: Word) -> Option<&'static str> {
    match word {
        Word::Let => Some("LET target = value"),
        Word::Add => Some("ADD value TO target"),
        Word::Subtract => Some("SUBTRACT value FROM target"),
        Word::Call => Some("CALL routine [GIVING values] [YIELDING targets]"),
        Word::Return => Some("RETURN"),
        Word::Stop => Some("STOP"),
        Word::Read => Some("READ targets"),
        Word::Start => Some("START SIMULATION"),
        Word::If => Some("IF condition statements [ELSE statements] ALWAYS"),
        Word::For => Some(
            "FOR v = a TO b [BY c], or FOR EACH v IN set, or FOR EACH class; then [WITH condition], and one statement or DO statements LOOP",
        ),
        Word::While => Some("WHILE condition DO statements LOOP"),
        Word::Until => Some("UNTIL condition DO statements LOOP"),
        Word::Create => Some("CREATE A class [CALLED target], or CREATE EVERY class"),
        Word::Destroy => Some("DESTROY [THE] class [CALLED value]"),
        Word::File => Some(
            "FILE [THE] entity [FIRST | LAST | BEFORE entity | AFTER entity] IN [THE] set",
        ),
        Word::Remove => Some(
            "REMOVE [THE] FIRST target FROM [THE] set, or REMOVE [THE] entity FROM [THE] set",
        ),
        Word::Schedule => Some(
            "SCHEDULE A event [CALLED target] [GIVEN values], then AT time, IN time UNITS or NOW",
        ),
        Word::Cancel => Some("CANCEL [THE] event [CALLED value]"),
        Word::Reset => Some("RESET [THE] TOTALS OF names"),
        Word::Print => Some("PRINT n LINES [WITH values] THUS, and below it n lines of picture"),
        Word::Skip => Some("SKIP n LINES"),
        Word::Routine => Some("ROUTINE name [GIVEN names] [YIELDING names]"),
        Word::Event => Some(
            "EVENT name [GIVEN names] [SAVING THE EVENT NOTICE]; in the preamble EVENT NOTICES [INCLUDE names]",
        ),
        Word::Define => Some(
            "DEFINE names AS INTEGER VARIABLES, or DEFINE names AS [FIFO | LIFO] SETS, or DEFINE names AS SETS RANKED BY HIGH attribute",
        ),
        Word::Every => Some("EVERY class [HAS names], [OWNS names], [MAY BELONG TO names]"),
        Word::Tally => Some("TALLY name AS THE NUMBER, SUM, MEAN, MAXIMUM or MINIMUM OF variable"),
        Word::Accumulate => Some(
            "ACCUMULATE name AS THE SUM, MEAN, MAXIMUM or MINIMUM OF variable",
        ),
        Word::Normally => Some("NORMALLY, MODE IS INTEGER"),
        Word::Priority => Some("PRIORITY ORDER IS names"),
        Word::Break => Some("BREAK event TIES BY HIGH attribute"),
        Word::Permanent => Some("PERMANENT ENTITIES, and below it EVERY class .."),
        Word::Temporary => Some("TEMPORARY ENTITIES, and below it EVERY class .."),
        _ => None,
    }
}

// Whether a form begins with this token.
fn leads(tokens: &[Token], index: usize) -> bool {
    let before = word_before(tokens, index);
    match word_at(tokens, index) {
        Some(Word::For) => before != Some(Word::Routine),
        Some(Word::Every) => before != Some(Word::For),
        Some(Word::Event) => before != Some(Word::The),
        Some(word) => {
            begins_statement(word)
                || head_at(tokens, index).is_some()
                || is_among(
                    word,
                    "DEFINE TALLY ACCUMULATE NORMALLY PRIORITY BREAK PERMANENT TEMPORARY",
                )
        }
        None => false,
    }
}

/// The index of the last token before a place with which a statement or a declaration begins, not before another one.
pub fn leader_before(tokens: &[Token], from: usize, at: usize) -> Option<usize> {
    for index in (from..at.min(tokens.len())).rev() {
        if leads(tokens, index) {
            return Some(index);
        }
    }
    None
}

/// The reserved words, one spelling of each, in the order of `Word`.
pub const WORDS: &str =
    "A ABS.F ACCUMULATE ADD AFTER ALL ALPHA ALWAYS AN AND AS AT BEFORE BELONG BREAK BY CALL CALLED CANCEL CASE CREATE DATA DEFINE DESTROY DIV.F DO EACH ELSE EMPTY END ENDED ENTITIES EQ EQUAL EQUALS EVENT EVERY FIFO FILE FIND FIRST FOLLOWS FOR FOUND FROM GE GIVEN GIVING GREATER GT HAS HIGH IF IN INCLUDE INTEGER IS LAST LE LESS LET LIFO LIKE LINE LOOP LOW LT MAIN MAX.F MAXIMUM MAY MEAN MIN.F MINIMUM MOD.F MODE NE NONE NORMALLY NOT NOTICE NOTICES NOW NUMBER OF OR ORDER OUTPUT OWNS PERMANENT PREAMBLE PRINT PRIORITY RANKED READ REAL REMOVE RESET RETURN REVERSE ROUTINE SAVING SCHEDULE SET SIMULATION SKIP START STOP SUBTRACT SUM SYSTEM TALLY TEMPORARY THAN THE THEN THIS THUS TIES TIME.A TIME.V TO TOTALS UNITS UNLESS UNTIL VARIABLE WHEN WHILE WITH YIELDING";

/// One spelling of a reserved word.
pub fn spelling_of(word: Word) -> &'static [u8] {
    let mut all = WORDS.as_bytes().split(|byte| *byte == b' ');
    all.nth(word as usize).unwrap_or(&[])
}

/// Whether a word is among these, by its spelling of `WORDS`.
pub fn is_among(word: Word, words: &str) -> bool {
    let spelling = spelling_of(word);
    for one in words.as_bytes().split(|byte| *byte == b' ') {
        if one == spelling {
            return true;
        }
    }
    false
}

/// Whether a statement begins with the word.
pub fn begins_statement(word: Word) -> bool {
    matches!(
        word,
        Word::Let
            | Word::Add
            | Word::Subtract
            | Word::Call
            | Word::Return
            | Word::Stop
            | Word::Read
            | Word::Start
            | Word::If
            | Word::For
            | Word::While
            | Word::Until
            | Word::Create
            | Word::Destroy
            | Word::File
            | Word::Remove
            | Word::Schedule
            | Word::Cancel
            | Word::Reset
            | Word::Print
            | Word::Skip
    )
}

/// Whether the word is a value or begins one.
pub fn is_value_word(word: Word) -> bool {
    is_among(word, "TIME.V TIME.A ABS.F DIV.F MOD.F MIN.F MAX.F")
}
