//! What eight bytes of an object hold.

/// A plain number of up to eight bytes, or a pointer word.
#[derive(Clone, Copy, Debug, PartialEq, Eq)]
pub struct Value {
    pub bits: u64,
    pub pointer: bool,
}
