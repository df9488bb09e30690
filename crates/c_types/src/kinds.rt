//! Types as rows of a table, members, and why a type is refused.

ghost use Rattle.std.specs.Prelude.{◌≡◌, alloc_error};
ghost use Rattle.c_types.specs.declared.kinds.TypeError.TheVariants.{Memory};

use byte_texts::Text;
use std::alloc::{AllocError, AllocFailed};
use thiserror::Error;

/// The number of a type in its table, from 1 on. 0 is the free type, and no number of a table.
pub type TypeNo = u32;

/// A type of the profile (C11 6.2.5), over the numbers of the types that it is made of.
#[derive(Clone, Copy, Debug, PartialEq, Eq, Hash)]
pub enum CType {
    Void,
    /// A whole number: its width in bytes, and whether it is signed.
    Num(u32, bool),
    /// The type that is pointed to.
    Pointer(TypeNo),
    /// The type of the elements, and how many there are.
    Array(TypeNo, u32),
    /// An array that is open at its end: the type of its elements.
    Flexible(TypeNo),
    /// The number of the tag.
    Struct(u32),
    /// The number of the tag.
    Union(u32),
}

/// A member of a struct or a union as it is declared.
#[derive(Debug, Drop)]
pub struct Field {
    pub name: Text,
    pub kind: TypeNo,
}

/// A member of a struct or a union, with its offset in bytes.
#[derive(Debug, Drop)]
pub struct Member {
    pub name: Text,
    pub kind: TypeNo,
    pub offset: u32,
}

/// Why a type is refused. Of two reasons that hold the first in the order `Duplicate`, `Empty`, `BadFlexible`, `Incomplete`,
/// `TooLarge` is answered.
#[derive(Debug, Drop, Error)]
pub enum TypeError {
    #[error("out of memory")]
    Memory(AllocError),
    /// A field or an element has no size, and is no flexible member (C11 6.7.2.1p3, 6.7.6.2p1).
    #[error("a part has no size")]
    Incomplete,
    /// There is no member or element, or a flexible member alone (C11 6.7.2.1p8 and p18, 6.7.6.2p5).
    #[error("there is no member or element")]
    Empty,
    /// A flexible member is not the last of a struct, or a part has a flexible member (C11 6.7.2.1p3).
    #[error("a flexible member stands where none may")]
    BadFlexible,
    /// There would be more than 1,048,559 bytes, the largest object.
    #[error("more bytes than the largest object")]
    TooLarge,
    /// Two members have one name, or the tag has members already (C11 6.7.2.1p2, 6.7.2.3p1).
    #[error("a second declaration")]
    Duplicate,
}

impl From<AllocError> for TypeError {
    ghost from_gives = { λ e r. r ≡ Memory e };

    fn from(e: AllocError) -> TypeError {
        TypeError::Memory(e)
    }
}

impl<T: Drop> From<AllocFailed<T>> for TypeError {
    ghost from_gives = { λ _ e. e ≡ Memory alloc_error };

    fn from(_e: AllocFailed<T>) -> TypeError {
        TypeError::Memory(AllocError)
    }
}
