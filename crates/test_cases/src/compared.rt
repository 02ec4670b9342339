//! The results of a case that are not the wanted ones, in words.

use crate::cases::Case;
use crate::ending::CaseEnding;
use crate::streams::CaseStreams;
use crate::words::SessionCall;
use ss_base::Faulty;
use std::alloc::AllocError;
use std::fmt;

// Parts what is added next from what was found before.
fn part(found: &mut String) -> Result<(), AllocError> {
    if !found.is_empty() {
        found.push_str("; ")?;
    }
    Ok(())
}

/// Notes where an ending is not the one that is wanted.
pub fn compare_ending(
    case: &Case<'_>,
    came: CaseEnding<'_>,
    found: &mut String,
) -> Result<(), AllocError> {
    match case.ending {
        Some(wanted) if !came.meets(wanted) => {
            part(found)?;
            write!(found, "wanted {wanted}, came {came}")
        }
        _ => Ok(()),
    }
}

/// Notes the end of the beginning of the model with so many bytes.
pub fn add_cut_short(
    found: &mut String,
    length: usize,
    came: CaseEnding<'_>,
) -> Result<(), AllocError> {
    part(found)?;
    write!(found, "cut short to {length} bytes: came {came}")
}

/// Notes that there is no session, but this.
pub fn add_no_session(found: &mut String, came: &str) -> Result<(), AllocError> {
    part(found)?;
    write!(found, "wanted a session, came {came}")
}

/// Notes where the line that a call of the session answers, counted from 1, is not the one that is
/// wanted.
pub fn compare_call(
    number: u64,
    call: SessionCall<'_>,
    came: &str,
    found: &mut String,
) -> Result<(), AllocError> {
    let wanted = call.line;
    if came == wanted {
        return Ok(());
    }
    part(found)?;
    write!(found, "call {number}: wanted {wanted}, came {came}")
}

/// Notes where ticks that are looked at are not those that were used.
pub fn compare_used(wanted: Option<u64>, came: u64, found: &mut String) -> Result<(), AllocError> {
    match wanted {
        Some(wanted) => compare_count(wanted, came, "ticks used", found),
        None => Ok(()),
    }
}

// Notes where a count of what these words say is not the one that is wanted.
fn compare_count(
    wanted: u64,
    came: u64,
    counted: &str,
    found: &mut String,
) -> Result<(), AllocError> {
    if wanted == came {
        return Ok(());
    }
    part(found)?;
    write!(found, "wanted {wanted} {counted}, came {came}")
}

/// Notes what a reader and a writer show that is not wanted: how often they failed, and the report.
pub fn compare_streams(
    case: &Case<'_>,
    streams: &CaseStreams,
    found: &mut String,
) -> Result<(), AllocError> {
    let CaseStreams { reader, writer } = streams;
    let failures = Faulty::faults(reader).saturating_add(Faulty::faults(writer));
    compare_count(case.failures(), failures, "failures", found)?;
    if writer.bytes() == case.report.as_slice() {
        return Ok(());
    }
    compare_reports(&case.report, writer.bytes(), found)
}

// Notes the first line in which two reports differ.
fn compare_reports(wanted: &[u8], came: &[u8], found: &mut String) -> Result<(), AllocError> {
    let mut number: u64 = 1;
    let mut rest = came.split_inclusive(|byte| *byte == b'\n');
    for line in wanted.split_inclusive(|byte| *byte == b'\n') {
        let other = rest.next();
        if other != Some(line) {
            return add_line(found, number, Some(line), other);
        }
        number = number.saturating_add(1);
    }
    add_line(found, number, None, rest.next())
}

// Notes a line of the report, counted from 1.
fn add_line(
    found: &mut String,
    line: u64,
    wanted: Option<&[u8]>,
    came: Option<&[u8]>,
) -> Result<(), AllocError> {
    part(found)?;
    let (wanted, came) = (Shown(wanted), Shown(came));
    write!(
        found,
        "line {line} of the report: wanted {wanted}, came {came}"
    )
}

// A line of a report as it is shown, if it is there.
#[derive(Clone, Copy)]
struct Shown<'a>(Option<&'a [u8]>);

impl fmt::Display for Shown<'_> {
    fn fmt<W: fmt::Write>(&self, f: &mut fmt::Formatter<W>) -> fmt::Result {
        match self.0 {
            Some(line) => write!(f, "\"{}\"", line.escape_ascii()),
            None => f.write_str("no line"),
        }
    }
}
