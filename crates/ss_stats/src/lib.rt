//! The statistics of a variable: the number of its values, their sum and their extremes, taken over
//! the values as such (TALLY) or weighed by the time for which the variable had each (ACCUMULATE).
#![tactic(auto)]

mod totals;

pub use totals::{TALLY_LIMIT, Totals};
