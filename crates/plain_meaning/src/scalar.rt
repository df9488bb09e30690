//! The values of variables.

use heap_model::Reach;

/// A value of a variable (C11 6.2.5p21): a number of type `int`, or a pointer, which each mode of the meaning keeps in its
/// own way.
#[derive(Clone, Copy, Debug, PartialEq, Eq)]
pub enum Scalar<P> {
    Number(i32),
    Pointer(P),
}

/// A pointer as mode Checked keeps it: its word, and the addresses that it may be used at. It is null where its version is 0.
#[derive(Clone, Copy, Debug, PartialEq, Eq)]
pub struct CheckedPointer {
    pub word: u64,
    pub reach: Reach,
}
