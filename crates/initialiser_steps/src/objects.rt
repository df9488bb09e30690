//! Objects that are initialised.

/// An object that is initialised: a variable by its number in the function, or an object of the whole text by its
/// number.
#[derive(Clone, Copy, Debug, PartialEq, Eq)]
pub enum InitialisedObject {
    Variable(u32),
    Global(u32),
}
