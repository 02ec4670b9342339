//! From a text to its tokens.
#![tactic(auto)]

mod code;
mod collected;
mod error;
mod law;
mod lines;
mod meaning;
mod pieces;
mod reserved;
mod text;
mod token;
mod token_list;
mod word;
mod words;

pub use error::LexError;
pub use law::{one_answer, one_list};
pub use ss_base::{Alpha, Line, NAME_LIMIT, Name, PictureLine};
pub use text::{SOURCE_LIMIT, tokens};
pub use token::{Span, Symbol, Token, TokenKind};
pub use token_list::Tokens;
pub use word::Word;
