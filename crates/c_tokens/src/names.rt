//! What tokens are spelled with, and names (C11 6.4.2).

ghost use Rattle.std.specs.Prelude.{◌≡◌, filter, IfOk};
ghost use Rattle.c_tokens.specs.Names as spec;

use crate::kind::Kind;
use crate::token::Token;
use std::alloc::{AllocError, Global};

/// Whether the byte belongs to no joint of two lines: it is neither a backslash nor a line end.
pub fn joins_no_lines(byte: u8) -> bool
    ensures { result ≡ spec.joins_no_lines byte }
{
    byte != b'\\' && byte != b'\n'
}

/// The bytes without those that join lines.
fn unjoined(alloc: Global, bytes: &[u8]) -> Result<Vec<u8>, AllocError>
    ensures { IfOk result (λ found. found.items ≡ filter (λ byte. spec.joins_no_lines byte) bytes.now) }
{
    bytes
        .iter()
        .copied()
        .filter(|b| joins_no_lines(*b))
        .collect(alloc)
}

/// What stands from the one offset up to the other, in bytes, without what joins lines (C11 5.1.1.2, phase 2).
pub fn written(alloc: Global, text: &[u8], start: usize, end: usize) -> Result<Vec<u8>, AllocError>
    ensures { IfOk result (λ found. found.items ≡ spec.written text.now start end) }
{
    let end = end.min(text.len());
    if start >= end {
        return Ok(Vec::new(alloc));
    }
    unjoined(alloc, &text[start..end])
}

/// The bytes that a token of the text is spelled with; of a name, the name.
#[tactic(auto, unfolding(crate::specs::Names::spelling))]
pub fn spelling(alloc: Global, text: &[u8], token: &Token) -> Result<Vec<u8>, AllocError>
    ensures { IfOk result (λ found. found.items ≡ spec.spelling text.now token.now) }
{
    written(alloc, text, token.start as usize, token.end as usize)
}

/// Whether it is a name, and no keyword.
pub fn is_name(kind: Kind) -> bool
    ensures { result ≡ spec.is_name kind }
{
    matches!(kind, Kind::Name)
}
