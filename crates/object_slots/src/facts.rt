//! What is known of an object without its bytes.

use c_types::TypeNo;

/// The type of an object's elements, how many bytes it has, and whether it belongs to a variable or a string literal.
#[derive(Clone, Copy, Debug, PartialEq, Eq)]
pub struct Facts {
    pub elem: TypeNo,
    pub size: u32,
    pub fixed: bool,
}
