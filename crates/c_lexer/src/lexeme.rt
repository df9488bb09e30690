//! What a word of the text is.

use c_tokens::Kind;

/// Why a word is refused.
#[derive(Clone, Copy, Debug)]
pub enum Fault {
    OpenComment,
    OpenString,
    NumberTooLarge,
    BadEscape,
}

/// A token, what separates tokens, or what is refused.
#[derive(Clone, Copy, Debug)]
pub enum Lexeme {
    Sound(Kind),
    Gap,
    Faulty(Fault),
}
