//! Why tokens are no unit and no name of a type.

ghost use Rattle.std.specs.Prelude.{◌≡◌, alloc_error};
ghost use Rattle.token_reader.specs.declared.error.ParseError.TheVariants.{Memory};

use std::alloc::{AllocError, AllocFailed};
use thiserror::Error;

/// Why there is no tree.
#[derive(Debug, Drop, Error)]
pub enum ParseError {
    #[error("out of memory")]
    Memory(AllocError),
    /// The tokens derive nothing. This is the number of the first token, counted from 0, up to and with which no list that
    /// derives something begins, or else how many tokens there are.
    #[error("token {0} is one that cannot stand there")]
    Syntax(u32),
}

impl From<AllocError> for ParseError {
    ghost from_gives = { λ e r. r ≡ Memory e };

    fn from(e: AllocError) -> ParseError {
        ParseError::Memory(e)
    }
}

impl<T: Drop> From<AllocFailed<T>> for ParseError {
    ghost from_gives = { λ _ e. e ≡ Memory alloc_error };

    fn from(_e: AllocFailed<T>) -> ParseError {
        ParseError::Memory(AllocError)
    }
}
