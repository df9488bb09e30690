//! What is stored in a part of an object.

use byte_texts::Text;
use c_tree::{Place, Value};

/// What is stored in a part of an object (C11 6.7.9).
#[derive(Drop)]
pub enum StoredPart {
    /// A scalar's value, converted to its type.
    Scalar(Value),
    /// A struct or a union from a place of its own type.
    Copied(Place),
    /// A string literal's bytes, with the zero byte where it fits.
    Bytes(Text),
}
