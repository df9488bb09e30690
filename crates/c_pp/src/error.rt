//! Why the tokens of a text are not expanded.

ghost use Rattle.std.specs.Prelude.{◌≡◌, alloc_error};
ghost use Rattle.c_pp.specs.declared.error.PpError.TheVariants.{Memory};

use std::alloc::{AllocError, AllocFailed};
use thiserror::Error;

/// Why there are no tokens. A line counts from 1; the first reason in the text is answered, and of two at one token the one
/// that stands first here.
#[derive(Debug, Drop, Error)]
pub enum PpError {
    #[error("out of memory")]
    Memory(AllocError),
    /// An `#include` on this line is of no header that the language has.
    #[error("the header on line {0} is unknown")]
    UnknownHeader(u32),
    /// A directive on this line is none that the language has.
    #[error("the directive on line {0} is unknown")]
    BadDirective(u32),
    /// What would stand for a macro on this line leads back to a macro that is being replaced.
    #[error("the macro on line {0} leads back to itself")]
    MacroLoop(u32),
    /// The token on this line, or one of those that stand for it, is one too many.
    #[error("the token on line {0} is one too many")]
    TooManyTokens(u32),
}

impl From<AllocError> for PpError {
    ghost from_gives = { λ e r. r ≡ Memory e };

    fn from(e: AllocError) -> PpError {
        PpError::Memory(e)
    }
}

impl<T: Drop> From<AllocFailed<T>> for PpError {
    ghost from_gives = { λ _ e. e ≡ Memory alloc_error };

    fn from(_e: AllocFailed<T>) -> PpError {
        PpError::Memory(AllocError)
    }
}
