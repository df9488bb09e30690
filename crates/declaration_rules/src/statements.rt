//! What stands around a statement.

use c_types::TypeNo;

/// What stands around a statement: the type of the function's result, whether a loop or a `switch` does, and the type of
/// the innermost `switch` where the statement stands directly in its block.
#[derive(Clone, Copy, Debug, PartialEq, Eq)]
pub struct Inside {
    pub result: TypeNo,
    pub in_loop: bool,
    pub in_switch: bool,
    pub directly: Option<TypeNo>,
}
