//! The bytes of a text that a line of a list writes.

use case_list::made_text;
use std::alloc::{AllocError, Global};

/// The value of a digit of a hexadecimal number, and 0 for any other byte.
fn digit(byte: u8) -> u8 {
    match byte {
        b'0'..=b'9' => byte - b'0',
        b'a'..=b'f' => byte - b'a' + 10,
        _ => 0,
    }
}

/// The bytes that a text means: `%` with two digits is the byte of that hexadecimal number.
fn decoded(alloc: Global, text: &[u8]) -> Result<Vec<u8>, AllocError> {
    let mut bytes = Vec::new(alloc);
    let mut digits_left = 0u32;
    for (at, byte) in text.iter().enumerate() {
        if digits_left > 0 {
            digits_left -= 1;
            continue;
        }
        let high = text.get(at.saturating_add(1));
        let low = text.get(at.saturating_add(2));
        match (*byte, high, low) {
            (b'%', Some(high), Some(low)) => {
                bytes.push(digit(*high) << 4 | digit(*low))?;
                digits_left = 2;
            }
            _ => bytes.push(*byte)?,
        }
    }
    Ok(bytes)
}

/// The bytes of a pattern: as it is written, or made from its pieces where it has some, and each `%` read then.
pub fn bytes_of(alloc: Global, pattern: &str) -> Result<Vec<u8>, AllocError> {
    if !pattern.contains('\'') {
        return decoded(alloc, pattern.as_bytes());
    }
    let text = made_text(alloc, pattern)?;
    decoded(alloc, text.as_bytes())
}
