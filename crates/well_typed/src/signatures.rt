//! Types of functions.

use c_types::TypeNo;
use sqlite_items::Items;

/// The type of a function (C11 6.7.6.3): that of its result, and those of its parameters.
#[derive(Drop)]
pub struct Signature {
    pub result: TypeNo,
    pub parameters: Items<TypeNo>,
}
