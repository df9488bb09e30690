//! The bytes of string tokens.

ghost use Rattle.std.specs.Prelude.{◌≡◌, ℕ, ◌-◌, ◌≤◌, List, length, take, drop, IfOk, Contains};
ghost use Rattle.c_tokens.specs.declared.token.Token.{Token as Piece};
ghost use Rattle.c_tokens.specs.declared.kind.Kind.TheVariants.{Str};
ghost use Rattle.c_tokens.specs.Limits.{max_source_bytes};
ghost use Rattle.c_lexer.specs.Escapes.{IsStringOf};
ghost use Rattle.c_lexer.specs.Lexes.{Tokens};

use crate::escapes::decode;
use crate::joined::join_lines;
use c_tokens::Token;
use std::alloc::{AllocError, Global};

/// What stands between the first and the last byte.
fn inner(s: &[u8]) -> &[u8]
    ensures { result.now ≡ take (length s.now - 2) (drop 1 s.now) }
{
    if s.len() < 2 { &[] } else { &s[1..s.len() - 1] }
}

/// The bytes that a string token of the text means, its escapes meant_bytes (C11 6.4.4.4 and 6.4.5), without the zero that C
/// puts after them. The token's line does not matter. For a token that is no string of the text the bytes are left open.
pub fn text_bytes(alloc: Global, text: &[u8], token: &Token) -> Result<Vec<u8>, AllocError>
    requires { length text.now ≤ max_source_bytes }
    ensures { (bytes : List ℕ) → IsStringOf text.now token.now.start token.now.end bytes → IfOk result (λ found. found.items ≡ bytes) }
{
    let start = token.start as usize;
    let end = token.end as usize;
    if start > end || end > text.len() {
        return Ok(Vec::new(alloc));
    }
    let joined = join_lines(alloc, &text[start..end])?;
    decode(alloc, inner(joined.bytes.as_slice()))
}

/// Each string token that `lex` answers means bytes, and only these.
pub fn law_strings()
    ensures some { (text : List ℕ) (ts : List Piece) (t : Piece) → Tokens text ts → Contains ts t → t.kind ≡ Str → (bytes : List ℕ) × IsStringOf text t.start t.end bytes }
    ensures one { (text : List ℕ) (start end : ℕ) (a b : List ℕ) → IsStringOf text start end a → IsStringOf text start end b → a ≡ b }
{}
