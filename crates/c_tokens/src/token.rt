//! A token with where it stands in the text.

use crate::kind::Kind;

/// A token: its bytes are those of the text from the offset `start` up to `end`. Offsets count bytes from 0, lines count
/// from 1, and `first` says that no token stands before it on its line.
#[derive(Clone, Copy, Debug, PartialEq, Eq)]
pub struct Token {
    pub kind: Kind,
    pub start: u32,
    pub end: u32,
    pub line: u32,
    pub first: bool,
}
