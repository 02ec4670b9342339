//! What may come at a place of a text, and what is open there.
#![tactic(auto)]

mod candidates;
mod expected;
mod forms;
mod opens;

pub use candidates::{Candidate, candidates_after, has_token, has_word};
pub use expected::{Group, STATEMENT, expected_words, has_group};
pub use forms::{
    WORDS, begins_statement, form_of, is_among, is_value_word, leader_before, spelling_of,
};
pub use opens::{Construct, Open, head_at, is_frame_word, opens_at, section_before};
