//! What an expression is found to be.

use c_tree::{Place, Value};
use c_types::TypeNo;
use sqlite_items::Items;

/// A place, or a value that is none.
#[derive(Drop)]
pub enum Tree {
    Place(Place),
    Value(Value),
}

/// What is known of an expression from the text alone (C11 6.6, 6.3.2.3p3).
#[derive(Clone, Copy, Debug, PartialEq, Eq)]
pub enum Known {
    /// It is no constant expression.
    Nothing,
    /// It is a constant expression, and evaluating it traps.
    Traps,
    /// The value of a constant expression of whole numbers.
    Number(i128),
    /// A null pointer constant that is no whole number: `NULL`, and 0 as a `void *`.
    NullPointer,
}

/// An expression with its static type, before its value is taken.
#[derive(Drop)]
pub struct Judged {
    pub tree: Tree,
    pub kind: TypeNo,
    pub known: Known,
}

/// The value of an expression, with its static type.
#[derive(Drop)]
pub struct Operand {
    pub value: Value,
    pub kind: TypeNo,
    pub known: Known,
}

/// The arguments of a call that were read (C11 6.5.2.2p2): their values as far as they fit, whether one of them does not,
/// and whether there are as many as parameters.
#[derive(Drop)]
pub struct Arguments {
    pub values: Items<Value>,
    pub misfit: bool,
    pub as_many: bool,
}
