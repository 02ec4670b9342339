//! The words for outcomes and refusals, and listings.

use ss_base::{FaultKind, Line};
use ss_check::CheckError;
use ss_code::CodeError;
use ss_engine::{Model, Outcome, Refusal, compile, outcome_line, outcome_status};
use ss_lex::LexError;
use ss_machine::Stop;
use ss_parse::ParseError;
use ss_tables::TableError;
use std::alloc::Global;

pub(crate) static ANSWER: &[u8] = b"MAIN\nPRINT 1 LINE WITH 6*7 THUS\nANSWER ***\nEND";

static ANSWER_LISTING: &[u8] = b"0       multiply                6, 7, to local 0\n\
1       print                   lines 0, local 0\n\
2       leave\n";

// The model that the manual lists, and its listing there.
pub(crate) static BELL: &[u8] = b"PREAMBLE\n\
NORMALLY, MODE IS INTEGER\n\
EVENT NOTICES INCLUDE BELL\n\
END\n\
MAIN\n\
FOR I = 1 TO 3 DO\n\
IF I GT 1\n\
CALL SHOW GIVING I * 10\n\
ALWAYS\n\
LOOP\n\
SCHEDULE A BELL AT 5\n\
START SIMULATION\n\
END\n\
ROUTINE SHOW GIVEN N\n\
PRINT 1 LINE WITH N THUS\n\
COUNT **\n\
END\n\
EVENT BELL\n\
PRINT 1 LINE WITH \"TIME\", TIME.V THUS\n\
**** *\n\
END\n";

static BELL_LISTING: &[u8] = b"0       move                    1, to local 1\n\
1       move                    3, to local 2\n\
2       move                    1, to local 3\n\
3       begin                   local 1, else to 9\n\
4       take                    local 1, to local 0\n\
5       unless greater          local 0, 1, else to 8\n\
6       multiply                local 0, 10, to local 4\n\
7       call                    routine 0, local 4\n\
8       next                    local 1, back to 4\n\
9       forget                  count 3\n\
10      at                      5, to local 1\n\
11      make notice             class 0, local 1, given 0, to global 0\n\
12      file notice             class 0, global 0, local 1\n\
13      await                   else to 16\n\
14      take event              local 1\n\
15      next event              back to 14\n\
16      leave\n\
17      move                    local 0, to local 1\n\
18      print                   lines 0, local 1\n\
19      leave\n\
20      move text               \"TIME\", to local 0\n\
21      clock                   to local 1\n\
22      print                   lines 1, local 0\n\
23      leave\n";

// Whether the code of a model is listed so.
fn is_listing(alloc: Global, model: &Model, listing: &[u8]) -> bool {
    match model.listing(alloc) {
        Ok(lines) => lines.as_slice() == listing,
        Err(_) => false,
    }
}

// Whether the code of a text is listed so.
fn is_listed(alloc: Global, text: &[u8], listing: &[u8]) -> bool {
    match compile(alloc, text) {
        Ok(model) => {
            let is = is_listing(alloc, &model, listing);
            model.release();
            is
        }
        Err(_) => false,
    }
}

#[test]
fn listings_are_those_of_the_manual(rt: HostRuntime) {
    assert!(rt; is_listed(rt.alloc(), ANSWER, ANSWER_LISTING));
    assert!(rt; is_listed(rt.alloc(), BELL, BELL_LISTING));
}

// Whether an outcome has this status and this line.
fn is_reported(alloc: Global, outcome: Outcome, status: u8, line: &[u8]) -> bool {
    match outcome_line(alloc, &outcome) {
        Ok(words) => outcome_status(&outcome) == status && words.as_slice() == line,
        Err(_) => false,
    }
}

// Whether a run that stops so, with 2 ticks used, does.
fn stops_with(alloc: Global, stop: Stop, status: u8, line: &[u8]) -> bool {
    is_reported(alloc, Outcome::Stopped(stop, 2), status, line)
}

// Whether a text that is refused does.
fn is_refused_with(alloc: Global, refusal: Refusal, status: u8, line: &[u8]) -> bool {
    is_reported(alloc, Outcome::Refused(refusal), status, line)
}

#[test]
fn a_run_that_went_well_is_reported(rt: HostRuntime) {
    let alloc = rt.alloc();
    let fault = Stop::Fault(FaultKind::DestroyedEntity, Line(19));
    assert!(rt; stops_with(alloc, Stop::Ended, 0, b""));
    assert!(rt; stops_with(alloc, Stop::Paused, 4, b"paused after 2 ticks\n"));
    assert!(rt; stops_with(alloc, fault, 3, b"fault 3 DESTROYED ENTITY at line 19\n"));
}

#[test]
fn a_run_that_failed_is_reported(rt: HostRuntime) {
    let alloc = rt.alloc();
    assert!(rt; stops_with(alloc, Stop::Memory, 5, b"out of memory\n"));
    assert!(rt; stops_with(alloc, Stop::Output, 6, b"cannot write report\n"));
    assert!(rt; stops_with(alloc, Stop::Input, 6, b"cannot read input\n"));
    assert!(rt; stops_with(alloc, Stop::Failed, 6, b"failed before\n"));
}

#[test]
fn a_refusal_is_reported(rt: HostRuntime) {
    let alloc = rt.alloc();
    let cut = Refusal::Lexed(LexError::PictureCut(Line(2)));
    let no_main = Refusal::Used(CheckError::NoMain(Line(0)));
    assert!(rt; is_refused_with(alloc, cut, 1, b"refused 36 PictureCut at line 2\n"));
    assert!(rt; is_refused_with(alloc, no_main, 1, b"refused 71 NoMain at line 0\n"));
    assert!(rt; is_refused_with(alloc, Refusal::Memory, 5, b"out of memory\n"));
}

// Whether a refusal has this number, this name and this line.
fn is_named(refusal: Refusal, number: u32, name: &str, line: u32) -> bool {
    refusal.number() == number && refusal.name() == name && refusal.line() == line
}

// The line of each refusal below.
const AT: Line = Line(7);

fn is_lexed(error: LexError, number: u32, name: &str) -> bool {
    is_named(Refusal::Lexed(error), number, name, 7)
}

fn is_parsed(error: ParseError, number: u32, name: &str) -> bool {
    is_named(Refusal::Parsed(error), number, name, 7)
}

fn is_declared(error: TableError, number: u32, name: &str) -> bool {
    is_named(Refusal::Declared(error), number, name, 7)
}

fn is_used(error: CheckError, number: u32, name: &str) -> bool {
    is_named(Refusal::Used(error), number, name, 7)
}

// Whether what tokens and trees are refused for is named so.
fn are_spelled() -> bool {
    is_lexed(LexError::TooLong(AT), 31, "TooLong")
        && is_lexed(LexError::NotAscii(AT), 32, "NotAscii")
        && is_lexed(LexError::BadNumber(AT), 33, "BadNumber")
        && is_lexed(LexError::OpenText(AT), 34, "OpenText")
        && is_lexed(LexError::AlphaTooLong(AT), 35, "AlphaTooLong")
        && is_lexed(LexError::PictureCut(AT), 36, "PictureCut")
        && is_lexed(LexError::NameTooLong(AT), 37, "NameTooLong")
        && is_parsed(ParseError::Syntax(AT), 41, "Syntax")
        && is_parsed(ParseError::TooDeep(AT), 42, "TooDeep")
}

// Whether what names are refused for is, as they are declared.
fn are_declared() -> bool {
    is_declared(TableError::Twice(AT), 51, "Twice")
        && is_declared(TableError::RealMode(AT), 52, "RealMode")
        && is_declared(TableError::UnknownClass(AT), 53, "UnknownClass")
        && is_declared(TableError::UnknownSet(AT), 54, "UnknownSet")
        && is_declared(TableError::NoOwner(AT), 55, "NoOwner")
        && is_declared(TableError::NoMember(AT), 56, "NoMember")
        && is_declared(TableError::RankKey(AT), 57, "RankKey")
        && is_declared(TableError::TallyTwice(AT), 58, "TallyTwice")
        && is_declared(TableError::TooMany(AT), 59, "TooMany")
        && is_declared(TableError::TieKey(AT), 60, "TieKey")
}

// Whether what they are refused for as they are used is.
fn are_used() -> bool {
    is_used(CheckError::NoMain(AT), 71, "NoMain")
        && is_used(CheckError::NoEventRoutine(AT), 72, "NoEventRoutine")
        && is_used(CheckError::Mode(AT), 73, "Mode")
        && is_used(CheckError::Arguments(AT), 74, "Arguments")
        && is_used(CheckError::Subscript(AT), 75, "Subscript")
        && is_used(CheckError::NotAssignable(AT), 76, "NotAssignable")
        && is_used(CheckError::Fields(AT), 77, "Fields")
        && is_used(CheckError::StartPlace(AT), 78, "StartPlace")
        && is_used(CheckError::Unknown(AT), 79, "Unknown")
}

#[test]
fn refusals_have_numbers_and_names(rt: HostRuntime) {
    assert!(rt; are_spelled());
    assert!(rt; are_declared());
    assert!(rt; are_used());
    assert!(rt; is_named(Refusal::CodeTooLong, 81, "CodeTooLong", 0));
    assert!(rt; is_named(Refusal::Memory, 0, "Memory", 0));
}

#[test]
fn refused_memory_is_the_same_everywhere(rt: HostRuntime) {
    assert_eq!(rt; Refusal::from(LexError::Memory), Refusal::Memory);
    assert_eq!(rt; Refusal::from(ParseError::Memory), Refusal::Memory);
    assert_eq!(rt; Refusal::from(TableError::Memory), Refusal::Memory);
    assert_eq!(rt; Refusal::from(CheckError::Memory), Refusal::Memory);
    assert_eq!(rt; Refusal::from(CodeError::Memory), Refusal::Memory);
    assert_eq!(rt; Refusal::from(CodeError::CodeTooLong), Refusal::CodeTooLong);
}
