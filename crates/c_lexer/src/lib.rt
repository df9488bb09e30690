//! The lexer: a text is cut into tokens (C11 6.4).
#![tactic(auto)]

mod bytes;
mod comments;
mod error;
mod escapes;
mod front;
mod joined;
mod lexeme;
mod lexer;
mod marks;
mod numbers;
mod quotes;
mod strings;
mod tables;
mod words;

pub use c_tokens::{Keyword, Kind, MAX_SOURCE_BYTES, MAX_TOKENS, Mark, NumType, Token};
pub use error::LexError;
pub use lexer::{law_names, law_tokens, lex};
pub use strings::{law_strings, text_bytes};
