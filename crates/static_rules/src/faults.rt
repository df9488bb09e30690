//! Faults of a text.

use c_types::TypeError;
use std::alloc::AllocError;

/// What the profile leaves out of C.
#[derive(Clone, Copy, Debug, PartialEq, Eq)]
pub enum Feature {
    /// `static` of a declaration in a function (C11 6.2.4p3).
    StaticLocal,
    /// A pointer to a function, and a function whose value is wanted (C11 6.3.2.1p4).
    FunctionPointer,
    /// A struct or a union as a parameter, a result or an operand of `?:`.
    StructValue,
    /// An array size, a value of an enumeration or a `case` that is no constant of whole numbers, and a size below 1.
    ArraySize,
    /// A `case` or `default` that does not stand directly in the block of its `switch`.
    CaseInside,
    /// A cast between a pointer and a whole number (C11 6.3.2.3p5 and p6).
    PointerNumber,
    /// An array, struct or union in braces whose own braces are left out (C11 6.7.9p20).
    BraceElision,
    /// A format of `printf` that is no string literal.
    FormatNotLiteral,
}

/// Why a text is no program. Two causes at one node come in this order.
#[derive(Debug, Drop)]
pub enum CheckKind {
    Memory(AllocError),
    /// A name without a declaration, or a function that is called and never defined.
    Unknown,
    /// A second definition, or a declaration that does not agree with an earlier one.
    Redefined,
    /// Operands or types that a rule does not take.
    TypeMismatch,
    /// A value where a place is wanted (C11 6.3.2.1p1).
    NotAPlace,
    /// A wrong number of arguments, or a call of what is no function (C11 6.5.2.2).
    BadCall,
    LeftOut(Feature),
    /// More than 16 parameters, or too many bytes of initialised globals and string literals.
    Limit,
    /// A type that no table has.
    BadType(TypeError),
}

/// The first fault of a text in the order of reading: why, and the line of the first token of the smallest node that breaks
/// a rule; 0 where memory ran out.
#[derive(Debug, Drop)]
pub struct CheckError {
    pub kind: CheckKind,
    pub line: u32,
}
