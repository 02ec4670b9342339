//! Pages for who wrote a text: words, lines of the text, and names that are spelled alike.
#![tactic(auto)]

mod finding;
mod lexical;
mod page;
mod places;
mod rules;

pub use finding::{is_like, nearest};
pub use page::{Made, Page, Part};
pub use places::{
    Stretch, bytes_of, has_field, indentation, is_blank, is_first_of_line, is_long, is_named,
    kind_at, line_bytes, line_from, line_of, line_starts, spelled, stretch_of, unindented, word_at,
};
