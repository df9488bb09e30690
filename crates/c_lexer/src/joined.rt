//! Lines that a backslash joins (C11 5.1.1.2, phase 2).

ghost use Rattle.std.specs.Prelude.{◌≡◌, ◌+◌, ◌-◌, ◌^◌, ◌<◌, ◌≤◌, length, drop, slice_index, IfOk, if◌then◌else◌};
ghost use Rattle.c_tokens.specs.Limits.{max_source_bytes};
ghost use Rattle.c_lexer.specs.Bytes as words;
ghost use Rattle.c_lexer.specs.Joined as spec;
ghost use Rattle.c_lexer.specs.Lexes.{AreSmall};

use std::alloc::{AllocError, Global};

/// Where a byte stands in the text: its offset, counted in bytes from 0, and its line, counted from 1.
#[derive(Clone, Copy, Debug)]
pub struct Origin {
    pub offset: u32,
    pub line: u32,
}

/// The bytes of a text without those that join lines, and the origin of each.
#[derive(Drop)]
pub struct Joined {
    pub bytes: Vec<u8>,
    pub origins: Vec<Origin>,
}

/// Whether the byte at the index joins two lines: a backslash before a line end, or that line end.
fn joins(before: u8, text: &[u8], at: usize) -> bool
    requires { at < length text.now }
    ensures { result ≡ spec.joins before (slice_index text.now at) (drop (at + 1) text.now) }
{
    let b = text[at];
    (b == b'\\' && text.get(at + 1) == Some(&b'\n')) || (before == b'\\' && b == b'\n')
}

/// The line of what comes after a byte of this line.
fn line_after(line: u32, b: u8) -> u32
    requires { line < 2 ^ 32 - 1 }
    ensures { result ≡ (if words.is_line_end b then line + 1 else line) }
{
    if b == b'\n' { line + 1 } else { line }
}

/// The text without what joins lines.
pub fn join_lines(alloc: Global, text: &[u8]) -> Result<Joined, AllocError>
    requires { length text.now ≤ max_source_bytes }
    ensures bytes { IfOk result (λ joined. joined.bytes.items ≡ spec.joined_bytes text.now) }
    ensures small { IfOk result (λ joined. AreSmall max_source_bytes joined.origins.items) }
    ensures origins { IfOk result (λ joined. joined.origins.items ≡ spec.joined_origins text.now) }
{
    let mut bytes = Vec::with_capacity(alloc, text.len())?;
    let mut origins = Vec::with_capacity(alloc, text.len())?;
    let mut before = 0;
    let mut line = 1;
    for (at, b) in text.iter().enumerate() {
        let origin = Origin {
            offset: at as u32,
            line,
        };
        let joined = joins(before, text, at);
        before = *b;
        line = line_after(line, *b);
        if joined {
            continue;
        }
        bytes.push(*b)?;
        origins.push(origin)?;
    }
    Ok(Joined { bytes, origins })
}
