//! What the program prints.

use crate::book::Mistake;
use crate::score::Score;
use crate::trial::Verdict;
use std::io;
use std::io::Write;

/// Reports a mistake in a file.
pub fn report_mistake<W: Write>(out: &mut W, file: &str, mistake: Mistake) -> io::Result<()> {
    let Mistake { line, wrong } = mistake;
    let words = wrong.words();
    writeln!(out, "{file} line {line}: {words}")
}

/// Reports in one line a result of a case that is not the wanted one.
pub fn report_verdict<W: Write>(
    out: &mut W,
    file: &str,
    name: &str,
    verdict: &Verdict,
) -> io::Result<()> {
    writeln!(out, "{file} {name}: {verdict}")
}

/// Reports how many cases were tried, and how much failed.
pub fn report_score<W: Write>(out: &mut W, score: Score) -> io::Result<()> {
    let Score { cases, failed } = score;
    writeln!(out, "{cases} cases, {failed} failed")
}
