//! Texts that are explained.

use crate::outputs::print;
use explain_texts::explain_text;
use simscript_order::ProgramFailure;
use ss_engine::{Outcome, Stop};
use std::alloc::Global;
use std::io::Write;

/// Explains a text, and says whether it is refused.
pub fn check<O: Write>(
    alloc: Global,
    text: &[u8],
    output: &mut O,
) -> Result<Outcome, ProgramFailure> {
    let Ok((page, wrong)) = explain_text(alloc, text) else {
        return Err(ProgramFailure::Memory);
    };
    if wrong.is_none() {
        print(output, b"accepted\n")?;
    }
    print(output, page.bytes())?;
    Ok(match wrong {
        Some(refusal) => Outcome::Refused(refusal),
        None => Outcome::Stopped(Stop::Ended, 0),
    })
}
