//! Why a text has no tokens.

ghost use Rattle.std.specs.Prelude.{◌≡◌, alloc_error};
ghost use Rattle.c_lexer.specs.declared.error.LexError.TheVariants.{Memory};
ghost use Rattle.c_lexer.specs.Lexes as spec;

use crate::lexeme::Fault;
use std::alloc::{AllocError, AllocFailed};
use thiserror::Error;

/// Why there are no tokens. An offset counts bytes from 0; the first reason in the text is answered, and of two at one
/// offset the one that stands first here.
#[derive(Debug, Drop, Error)]
pub enum LexError {
    #[error("out of memory")]
    Memory(AllocError),
    /// No token begins with the byte at this offset.
    #[error("no token begins with the byte at {0}")]
    BadByte(u32),
    /// A comment that begins here has no end.
    #[error("the comment at {0} has no end")]
    OpenComment(u32),
    /// A string or a character constant that begins here has no end on its line.
    #[error("the string at {0} has no end")]
    OpenString(u32),
    /// A number that begins here fits none of the types that it may have (C11 6.4.4.1).
    #[error("the number at {0} is too large")]
    NumberTooLarge(u32),
    /// A string or a character constant that begins here has an escape that means no byte, or the constant is not one byte.
    #[error("the string at {0} means no bytes")]
    BadEscape(u32),
    /// The token that begins here is one too many.
    #[error("the token at {0} is one too many")]
    TooManyTokens(u32),
}

impl From<AllocError> for LexError {
    ghost from_gives = { λ e r. r ≡ Memory e };

    fn from(e: AllocError) -> LexError {
        LexError::Memory(e)
    }
}

impl<T: Drop> From<AllocFailed<T>> for LexError {
    ghost from_gives = { λ _ e. e ≡ Memory alloc_error };

    fn from(_e: AllocFailed<T>) -> LexError {
        LexError::Memory(AllocError)
    }
}

/// The refusal of a fault at this offset.
pub fn refusal(fault: Fault, at: u32) -> LexError
    ensures { result ≡ spec.refusal fault at }
{
    match fault {
        Fault::OpenComment => LexError::OpenComment(at),
        Fault::OpenString => LexError::OpenString(at),
        Fault::NumberTooLarge => LexError::NumberTooLarge(at),
        Fault::BadEscape => LexError::BadEscape(at),
    }
}
