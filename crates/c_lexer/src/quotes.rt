//! Strings and character constants (C11 6.4.4.4 and 6.4.5).

ghost use Rattle.std.specs.Prelude.{◌≡◌, ◌&&◌, ◌==◌, not, ◌<◌, false, length, IfSome};
ghost use Rattle.c_lexer.specs.Escapes as escapes;
ghost use Rattle.c_lexer.specs.Scan as spec;

use crate::bytes::is_line_end;
use crate::escapes::{means_bytes, unit};
use crate::lexeme::{Fault, Lexeme};
use c_tokens::Kind;

/// Whether the byte is this one, and no backslash before it takes it in.
fn stands_free(escaped: bool, b: u8, wanted: u8) -> bool
    ensures { result ≡ (not escaped && b == wanted) }
{
    !escaped && b == wanted
}

/// Where the closing quote stands.
fn closing_quote(quote: u8, s: &[u8]) -> Option<usize>
    ensures value { result ≡ spec.closing_quote quote false s.now }
    ensures within { IfSome result (λ at. at < length s.now) }
{
    let mut escaped = false;
    for (i, b) in s.iter().enumerate() {
        if is_line_end(*b) {
            return None;
        }
        if stands_free(escaped, *b, quote) {
            return Some(i);
        }
        escaped = stands_free(escaped, *b, b'\\');
    }
    None
}

/// A byte as a `signed char`.
fn signed_byte(b: u8) -> i32
    ensures { result ≡ escapes.signed_byte b }
{
    if b < 128 {
        i32::from(b)
    } else {
        i32::from(b) - 256
    }
}

/// What the text between two such quotes is.
#[tactic(auto, unfolding(crate::specs::Scan::meaning))]
fn meaning(quote: u8, body: &[u8]) -> Lexeme
    ensures { result ≡ spec.meaning quote body.now }
{
    if quote == b'"' {
        return if means_bytes(body) {
            Lexeme::Sound(Kind::Str)
        } else {
            Lexeme::Faulty(Fault::BadEscape)
        };
    }
    match unit(body) {
        Some((value, len)) if len == body.len() => Lexeme::Sound(Kind::Char(signed_byte(value))),
        _ => Lexeme::Faulty(Fault::BadEscape),
    }
}

/// What a quote before this text begins, with its whole length.
#[tactic(auto, unfolding(crate::specs::Scan::quotation_at))]
pub fn quotation(quote: u8, s: &[u8]) -> (Lexeme, usize)
    ensures { result ≡ spec.quotation_at quote s.now }
{
    match closing_quote(quote, s) {
        Some(len) => (meaning(quote, &s[..len]), len + 2),
        None => (Lexeme::Faulty(Fault::OpenString), 1),
    }
}
