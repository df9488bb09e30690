//! What may stand after an expression as a part of a larger one.

use c_grammar::{Assignment, Binary, Postfix, Selection};

/// How an expression becomes the first part of a larger one (C11 6.5.2 and 6.5.5 to 6.5.17), by the mark that stands after it.
#[derive(Clone, Copy, Debug, PartialEq, Eq)]
pub enum Growth {
    /// `[`
    Index,
    /// `(`
    Call,
    /// `.` or `->`
    Select(Selection),
    /// `++` or `--`
    Postfix(Postfix),
    /// An operator between two operands.
    Binary(Binary),
    /// `?`
    Conditional,
    /// `=`, or an operator with it.
    Assign(Assignment),
    /// `,`
    Comma,
}
