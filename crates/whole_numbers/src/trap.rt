//! Operations that have no value.

use thiserror::Error;

/// Why an operation has no value (C11 6.5.5, 6.5.7).
#[derive(Clone, Copy, Debug, PartialEq, Eq, Error)]
pub enum Trap {
    #[error("a division by zero")]
    ZeroDivide,
    #[error("the least number of a type divided by -1")]
    Overflow,
    #[error("a shift by a negative count, or by as many bits as the number has")]
    ShiftCount,
}
