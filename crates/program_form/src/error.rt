//! Why a unit is no program of the form.

ghost use Rattle.std.specs.Prelude.{◌≡◌, alloc_error};
ghost use Rattle.program_form.specs.declared.error.FormError.TheVariants as refusal;
ghost use Rattle.program_form.specs.declared.error.Unfit.TheVariants as unfit;

use std::alloc::{AllocError, AllocFailed};
use thiserror::Error;

/// Why a unit gives no program.
#[derive(Debug, Drop, Error)]
pub enum FormError {
    #[error("out of memory")]
    Memory(AllocError),
    /// The first declaration or function that is outside the form begins on this line.
    #[error("line {0} is outside the form that runs")]
    NotYet(u32),
}

impl From<AllocError> for FormError {
    ghost from_gives = { λ e r. r ≡ refusal.Memory e };

    fn from(e: AllocError) -> FormError {
        FormError::Memory(e)
    }
}

impl<T: Drop> From<AllocFailed<T>> for FormError {
    ghost from_gives = { λ _ e. e ≡ refusal.Memory alloc_error };

    fn from(_e: AllocFailed<T>) -> FormError {
        FormError::Memory(AllocError)
    }
}

/// Why a part of a unit is nothing of the form.
#[derive(Debug, Drop)]
pub enum Unfit {
    Memory(AllocError),
    Outside,
}

impl From<AllocError> for Unfit {
    ghost from_gives = { λ e r. r ≡ unfit.Memory e };

    fn from(e: AllocError) -> Unfit {
        Unfit::Memory(e)
    }
}

impl<T: Drop> From<AllocFailed<T>> for Unfit {
    ghost from_gives = { λ _ e. e ≡ unfit.Memory alloc_error };

    fn from(_e: AllocFailed<T>) -> Unfit {
        Unfit::Memory(AllocError)
    }
}
