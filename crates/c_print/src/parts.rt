//! What a format is made of.

use byte_texts::Text;

/// What a conversion of a number prints: a signed number in decimal (`d` and `i`), an unsigned one in decimal (`u`) or in
/// hexadecimal (`x`), or a byte (`c`).
#[derive(Clone, Copy, Debug, PartialEq, Eq)]
pub enum Letter {
    D,
    I,
    U,
    X,
    C,
}

/// How a shorter text is filled to the width: with spaces at the left, with spaces at the right (`-`), or with zeros
/// after a sign (`0`).
#[derive(Clone, Copy, Debug, PartialEq, Eq)]
pub enum Flag {
    Bare,
    Minus,
    Zero,
}

/// A part of a format (C11 7.21.6.1). A width that is not written is 0.
#[derive(Debug, Drop)]
pub enum Part {
    /// Bytes that are printed as they are.
    Plain(Text),
    /// A conversion of a number. `long` says that `l`, `ll` or `z` stands there, so that all 64 bits count.
    Number {
        letter: Letter,
        flag: Flag,
        width: u32,
        long: bool,
    },
    /// A conversion of a string.
    Str {
        flag: Flag,
        width: u32,
    },
}
