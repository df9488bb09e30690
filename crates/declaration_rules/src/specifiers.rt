//! What specifiers belong to, and tags that they open.

use c_types::TypeNo;

/// What specifiers belong to, on which it depends which storage words may stand among them.
#[derive(Clone, Copy, Debug, PartialEq, Eq)]
pub enum Setting {
    /// A declaration, of which they are a tag alone where that is true, as in `struct S;`.
    Declaration(bool),
    /// The definition of a function.
    Definition,
    Member,
    Parameter,
    /// The name of a type.
    TypeName,
}

/// The number of a tag's type, and whether the list of members behind it may complete it.
#[derive(Clone, Copy, Debug, PartialEq, Eq)]
pub struct Opened {
    pub kind: TypeNo,
    pub completes: bool,
}
