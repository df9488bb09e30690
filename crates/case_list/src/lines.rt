//! Bytes as lines that a file of expected output can hold.

use std::alloc::{AllocError, Global};

/// Adds each line of the bytes after a label, and a line more where the last one has no end.
pub fn append_lines(
    alloc: Global,
    to: &mut String,
    label: &str,
    bytes: &[u8],
) -> Result<(), AllocError> {
    let text = String::from_utf8_lossy(alloc, bytes)?;
    for line in text.lines() {
        to.push_str(label)?;
        to.push_str(": ")?;
        to.push_str(line)?;
        to.push('\n')?;
    }
    if !text.is_empty() && !text.ends_with('\n') {
        to.push_str(label)?;
        to.push_str(" ends within this line\n")?;
    }
    Ok(())
}

/// Adds how many bytes there are, and the lines of so many of the first and of the last of them.
pub fn append_ends(
    alloc: Global,
    to: &mut String,
    label: &str,
    bytes: &[u8],
    ends: u32,
) -> Result<(), AllocError> {
    let ends = (ends as usize).min(bytes.len());
    to.push_str(format!(in alloc; "{label} has {} bytes\n", bytes.len())?.as_str())?;
    append_lines(alloc, to, "first", &bytes[..ends])?;
    append_lines(alloc, to, "last", &bytes[bytes.len() - ends..])
}
