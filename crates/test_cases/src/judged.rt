//! Texts judged without a run.

use crate::cases::Case;
use crate::compared::{add_cut_short, compare_ending};
use crate::ending::{CaseEnding, line_in};
use crate::simulator::Simulator;
use std::alloc::{AllocError, Global};

/// Judges a case by the lexer and the parser, and notes where its ending is not the one that is wanted.
pub fn judge_tree<S: Simulator>(
    alloc: Global,
    simulator: &S,
    case: &Case<'_>,
    found: &mut String,
) -> Result<(), AllocError> {
    match simulator.tree(alloc, &case.model) {
        Ok(counts) => compare_ending(case, CaseEnding::Tree(counts), found),
        Err(refusal) => compare_outcome(alloc, simulator, case, refusal, found),
    }
}

/// Judges a case by the lexer, the parser, the tables and the rules, and notes where its ending is not
/// the one that is wanted.
pub fn judge_rules<S: Simulator>(
    alloc: Global,
    simulator: &S,
    case: &Case<'_>,
    found: &mut String,
) -> Result<(), AllocError> {
    match simulator.refusal(alloc, &case.model) {
        None => compare_ending(case, CaseEnding::Kept, found),
        Some(refusal) => compare_outcome(alloc, simulator, case, refusal, found),
    }
}

/// Notes where an outcome is not the one that is wanted.
pub fn compare_outcome<S: Simulator>(
    alloc: Global,
    simulator: &S,
    case: &Case<'_>,
    outcome: S::Outcome,
    found: &mut String,
) -> Result<(), AllocError> {
    let printed = simulator.printed(alloc, outcome)?;
    compare_ending(case, CaseEnding::Line(line_in(&printed)), found)
}

/// Notes the first proper beginning of a model that isn't refused by one of these numbers.
pub fn cut_short<S: Simulator>(
    alloc: Global,
    simulator: &S,
    model: &[u8],
    refusals: &[u64],
    found: &mut String,
) -> Result<(), AllocError> {
    for length in 0..model.len() {
        let Some(beginning) = model.get(..length) else {
            break;
        };
        let came = simulator.refusal(alloc, beginning);
        if !is_one_of(simulator, came, refusals) {
            return report_cut_short(alloc, simulator, length, came, found);
        }
    }
    Ok(())
}

// Whether a text was refused by one of these numbers.
fn is_one_of<S: Simulator>(simulator: &S, came: Option<S::Outcome>, refusals: &[u64]) -> bool {
    let Some(refusal) = came else {
        return false;
    };
    match simulator.refusal_number(refusal) {
        Some(number) => refusals.contains(&number),
        None => false,
    }
}

// Notes what comes of the beginning of a model with so many bytes.
fn report_cut_short<S: Simulator>(
    alloc: Global,
    simulator: &S,
    length: usize,
    came: Option<S::Outcome>,
    found: &mut String,
) -> Result<(), AllocError> {
    let Some(refusal) = came else {
        return add_cut_short(found, length, CaseEnding::Kept);
    };
    let printed = simulator.printed(alloc, refusal)?;
    add_cut_short(found, length, CaseEnding::Line(line_in(&printed)))
}
