//! Files of cases tried.

use crate::book::{Book, Mistake};
use crate::cases::Case;
use crate::messages::{report_mistake, report_score, report_verdict};
use crate::score::Score;
use crate::simulator::Simulator;
use crate::trial::tried;
use crate::wrong::Wrong;
use std::alloc::Global;
use std::io::{BufWriter, Write};
use std::rt::{Env, Files};
use std::{env, fs, io};

// Tries the cases in the text of a file.
fn try_text<S: Simulator, W: Write>(
    alloc: Global,
    simulator: &S,
    out: &mut W,
    file: &str,
    text: &str,
) -> io::Result<Score> {
    let mut book = Book::new(alloc);
    try_book(alloc, simulator, out, file, text, &mut book)
}

// Reads the text of a file into an empty book, and tries its cases.
fn try_book<'a, S: Simulator, W: Write>(
    alloc: Global,
    simulator: &S,
    out: &mut W,
    file: &str,
    text: &'a str,
    book: &mut Book<'a>,
) -> io::Result<Score> {
    book.read(text)?;
    let mistakes = report_mistakes(out, file, &book.mistakes)?;
    let cases = try_cases(alloc, simulator, out, file, &book.cases)?;
    Ok(mistakes.and(cases))
}

// Reports the mistakes in a file.
fn report_mistakes<W: Write>(out: &mut W, file: &str, mistakes: &[Mistake]) -> io::Result<Score> {
    let mut score = Score::NONE;
    for mistake in mistakes {
        report_mistake(out, file, *mistake)?;
        score = score.with_mistake();
    }
    Ok(score)
}

// Tries the cases of a file that was read.
fn try_cases<S: Simulator, W: Write>(
    alloc: Global,
    simulator: &S,
    out: &mut W,
    file: &str,
    cases: &[Case<'_>],
) -> io::Result<Score> {
    let mut score = Score::NONE;
    for case in cases {
        score = score.with_case(try_case(alloc, simulator, out, file, case)?);
    }
    Ok(score)
}

// Tries a case, and answers whether it failed.
fn try_case<S: Simulator, W: Write>(
    alloc: Global,
    simulator: &S,
    out: &mut W,
    file: &str,
    case: &Case<'_>,
) -> io::Result<bool> {
    let verdict = tried(alloc, simulator, case)?;
    let failed = !verdict.found.is_empty();
    if failed {
        report_verdict(out, file, case.name, &verdict)?;
    }
    Ok(failed)
}

// Tries the cases of a file.
fn try_file<S: Simulator, R: Files + AllocGlobal, W: Write>(
    rt: &R,
    simulator: &S,
    out: &mut W,
    file: &str,
) -> io::Result<Score> {
    let Ok(text) = fs::read_to_string(rt, file) else {
        let mistake = Mistake {
            line: 0,
            wrong: Wrong::File,
        };
        report_mistake(out, file, mistake)?;
        return Ok(Score::NONE.with_mistake());
    };
    try_text(rt.alloc(), simulator, out, file, &text)
}

// Tries the cases of the file of this name.
fn try_named<S: Simulator, R: Files + AllocGlobal, W: Write>(
    rt: &R,
    simulator: &S,
    out: &mut W,
    file: String,
) -> io::Result<Score> {
    try_file(rt, simulator, out, &file)
}

// Tries the cases of the files that the words of the command line name.
fn try_all<S: Simulator, R: Env + Files + AllocGlobal, W: Write>(
    rt: &R,
    simulator: &S,
    out: &mut W,
) -> io::Result<Score> {
    let mut score = Score::NONE;
    for file in env::args(rt)?.skip(1) {
        score = score.and(try_named(rt, simulator, out, file)?);
    }
    Ok(score)
}

// Tries the cases, and reports the score.
fn try_and_report<S: Simulator, R: Env + Files + AllocGlobal, W: Write>(
    rt: &R,
    simulator: &S,
    out: &mut W,
) -> io::Result<Score> {
    let score = try_all(rt, simulator, out)?;
    report_score(out, score)?;
    out.flush()?;
    Ok(score)
}

/// Tries the cases of the files that the words of the command line name, and prints through a buffer
/// what failed and the score.
pub fn try_files<S: Simulator, R: Env + Files + Print + AllocGlobal>(
    rt: &R,
    simulator: &S,
) -> io::Result<Score> {
    try_and_report(
        rt,
        simulator,
        &mut BufWriter::new(rt.alloc(), io::writer(rt))?,
    )
}
