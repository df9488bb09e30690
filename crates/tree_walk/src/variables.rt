//! The variables in scope.

ghost use Rattle.std.specs.Prelude.{◌≡◌, [], ◌∷◌, ◌++◌, slice_index_or, slice_set, length, OnOk};
ghost use Rattle.plain_meaning.specs.Points.{pointer_of};
ghost use Rattle.plain_meaning.specs.Values.{value_of, zero_of};

use crate::pointers::NULL;
use crate::walk::Walk;
use plain_meaning::{CheckedPointer, Scalar};
use std::alloc::AllocError;

impl<'a> Walk<'a> {
    /// The number that a variable holds.
    pub(crate) fn number(&self, variable: usize) -> i32
        ensures { result ≡ value_of self.now.variables.items variable }
    {
        match self.variables.get(variable) {
            Some(Scalar::Number(number)) => *number,
            _ => 0,
        }
    }

    /// The pointer that a variable holds.
    pub(crate) fn pointer(&self, variable: usize) -> CheckedPointer
        ensures { result ≡ pointer_of (slice_index_or self.now.variables.items variable zero_of) }
    {
        match self.variables.get(variable) {
            Some(Scalar::Pointer(pointer)) => *pointer,
            _ => NULL,
        }
    }

    /// Makes the next variable.
    pub(crate) fn push(&mut self, value: Scalar<CheckedPointer>) -> Result<(), AllocError>
        ensures variables { OnOk result (self.new.variables.items ≡ self.old.variables.items ++ value ∷ []) }
        ensures others { self.new ≡ record self.old { variables = self.new.variables } }
    {
        self.variables.push(value)?;
        Ok(())
    }

    /// Gives a variable in scope another value.
    pub(crate) fn set(&mut self, variable: usize, value: Scalar<CheckedPointer>)
        ensures variables { self.new.variables.items ≡ slice_set self.old.variables.items variable value }
        ensures others { self.new ≡ record self.old { variables = self.new.variables } }
    {
        if variable < self.variables.len() {
            self.variables[variable] = value;
        }
    }
}
