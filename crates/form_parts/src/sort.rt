//! What a variable holds.

use plain_meaning::Target;

/// A variable of type `int` holds a number, another a pointer to this target.
#[derive(Clone, Copy)]
pub enum Sort {
    Number,
    Pointer(Target),
}
