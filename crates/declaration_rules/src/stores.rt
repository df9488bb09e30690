//! Where an initialiser stores, and why a part of it does not fit.

use c_types::TypeNo;

/// A step of a path from an object to a part of it (C11 6.7.9p17).
#[derive(Clone, Copy, Debug, PartialEq, Eq)]
pub enum Step {
    /// To a member of a struct or a union, with its type and its offset in bytes.
    Member(TypeNo, u32),
    /// To an element of an array, with its type and its number.
    Element(TypeNo, u32),
}

/// Why a part does not fit what it initialises. Of two causes at one node the mismatch is told.
#[derive(Clone, Copy, Debug, PartialEq, Eq)]
pub enum Unfit {
    Mismatch,
    /// An array, struct or union in braces, whose own braces are left out.
    Elided,
}
