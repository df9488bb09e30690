//! Why a format has no parts.

ghost use Rattle.std.specs.Prelude.{◌≡◌, alloc_error};
ghost use Rattle.c_print.specs.declared.error.FormatError.TheVariants.{Memory};

use std::alloc::{AllocError, AllocFailed};
use thiserror::Error;

/// Why there are no parts.
#[derive(Debug, Drop, Error)]
pub enum FormatError {
    #[error("out of memory")]
    Memory(AllocError),
    /// So many of the first bytes begin some format, and no more of them do.
    #[error("the format is wrong after {0} bytes")]
    BadFormat(usize),
}

impl From<AllocError> for FormatError {
    ghost from_gives = { λ e r. r ≡ Memory e };

    fn from(e: AllocError) -> FormatError {
        FormatError::Memory(e)
    }
}

impl<T: Drop> From<AllocFailed<T>> for FormatError {
    ghost from_gives = { λ _ e. e ≡ Memory alloc_error };

    fn from(_e: AllocFailed<T>) -> FormatError {
        FormatError::Memory(AllocError)
    }
}
