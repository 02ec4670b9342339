//! What is wrong with a text, in words for who wrote it; and what looks odd in one that is right.
#![tactic(auto)]

mod explanation;

pub use explain_pages::{Made, Page, Part, line_bytes, unindented};
pub use explanation::explain_text;
