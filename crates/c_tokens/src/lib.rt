//! Tokens of C: what the lexer answers and every later stage reads.
#![tactic(auto)]

mod kind;
mod limits;
mod names;
mod token;
mod words;

pub use kind::{Keyword, Kind, Mark, NumType, law_kinds, same_kind};
pub use limits::{MAX_SOURCE_BYTES, MAX_TOKENS};
pub use names::{is_name, joins_no_lines, spelling, written};
pub use token::Token;
pub use words::{KEYWORDS, MARKS, law_words};
