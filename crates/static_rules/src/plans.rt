//! Plans: what the rules decide from the types of operands, before any tree is built.

use crate::judged::Known;
use c_tree::{Comparison, LogicalOperator, Operator, Step};
use c_types::TypeNo;

/// What a rule sees of an operand: its type, what is known of it, and whether it is a call of `malloc` or `calloc`.
#[derive(Clone, Copy, Debug, PartialEq, Eq)]
pub struct Seen {
    pub kind: TypeNo,
    pub known: Known,
    pub allocates: bool,
}

/// How an operand is converted (C11 6.3).
#[derive(Clone, Copy, Debug, PartialEq, Eq)]
pub enum Change {
    /// It stays as it is.
    Stay,
    /// To a whole-number type.
    Whole(TypeNo),
    /// A null pointer constant to a pointer type.
    Null(TypeNo),
    /// A pointer to this type, which is `void *`.
    Keep(TypeNo),
    /// A pointer to this type, which is another: it is checked.
    Check(TypeNo),
    /// The call of `malloc` or `calloc` to this pointer type, whose target is the type of the elements that it makes.
    Allocate(TypeNo, TypeNo),
}

/// The node that joins two operands.
#[derive(Clone, Copy, Debug, PartialEq, Eq)]
pub enum Joint {
    Binary(Operator),
    Compare(Comparison),
    ComparePointers(Comparison),
    Advance,
    AdvanceFirst,
    Retreat,
    Difference,
    Logical(LogicalOperator),
}

/// How two operands are converted, the node that joins them, its type, and what is known of it.
#[derive(Clone, Copy, Debug, PartialEq, Eq)]
pub struct Plan {
    pub left: Change,
    pub right: Change,
    pub joint: Joint,
    pub kind: TypeNo,
    pub known: Known,
}

/// What a cast does with its operand (C11 6.5.4).
#[derive(Clone, Copy, Debug, PartialEq, Eq)]
pub enum Casting {
    /// To `void`.
    Discard,
    /// Between whole numbers.
    Whole,
    /// From a null pointer constant.
    Null,
    /// A pointer to `void *`.
    Keep,
    /// The call of `malloc` or `calloc`, which makes elements of this type.
    Allocate(TypeNo),
    /// A pointer to one with another target than void: it is checked.
    Check,
}

/// Which operand of `[]` is the pointer, with the type of its target.
#[derive(Clone, Copy, Debug, PartialEq, Eq)]
pub enum Indexing {
    First(TypeNo),
    Second(TypeNo),
}

/// How an assignment with an operator changes its place.
#[derive(Clone, Copy, Debug, PartialEq, Eq)]
pub enum Updating {
    /// A number: the operator, the type in which it is computed, and how the right operand is converted.
    Number(Operator, TypeNo, Change),
    /// A pointer.
    Pointer(Step),
}

/// What `++` and `--` change: a number, with the type in which it is computed, or a pointer.
#[derive(Clone, Copy, Debug, PartialEq, Eq)]
pub enum Stepping {
    Number(TypeNo),
    Pointer,
}

/// The type of `?:`, how its last two operands are converted, and what is known of it.
#[derive(Clone, Copy, Debug, PartialEq, Eq)]
pub struct Choice {
    pub kind: TypeNo,
    pub left: Change,
    pub right: Change,
    pub known: Known,
}
