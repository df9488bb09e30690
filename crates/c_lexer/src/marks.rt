//! Punctuators (C11 6.4.6).

ghost use Rattle.std.specs.Prelude.{◌≡◌};
ghost use Rattle.c_tokens.specs.Words.{marks};
ghost use Rattle.c_lexer.specs.Scan as spec;

use crate::tables::first_match;
use c_tokens::{MARKS, Mark};

/// The longest mark at the front of the text, and its length.
pub fn mark(s: &[u8]) -> Option<(Mark, usize)>
    ensures { result ≡ spec.first_match marks s.now }
{
    first_match(&MARKS, s)
}
