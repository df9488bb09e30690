//! The longest lexeme at the front of a text.

ghost use Rattle.std.specs.Prelude.{◌≡◌, ◌+◌, ◌<◌, ◌≤◌, length, drop, IfSome};
ghost use Rattle.c_lexer.specs.Scan as spec;

use crate::bytes::{is_blank, is_digit, is_letter, is_quote};
use crate::comments::{comment, line_len};
use crate::lexeme::Lexeme;
use crate::marks::mark;
use crate::numbers::number;
use crate::quotes::quotation;
use crate::tables::begins;
use crate::words::word;
use c_tokens::Kind;

/// A comment or a mark.
#[tactic(auto, unfolding(crate::specs::Scan::sign_at))]
fn sign(s: &[u8]) -> Option<(Lexeme, usize)>
    ensures { result ≡ spec.sign_at s.now }
{
    if begins(s, b"/*") {
        return Some(comment(&s[2..]));
    }
    if begins(s, b"//") {
        return Some((Lexeme::Gap, line_len(&s[2..]) + 2));
    }
    let (mark, len) = mark(s)?;
    Some((Lexeme::Sound(Kind::Mark(mark)), len))
}

/// The longest lexeme at the front, with its length.
#[tactic(auto, unfolding(crate::specs::Scan::front_at))]
fn front(s: &[u8]) -> Option<(Lexeme, usize)>
    ensures { result ≡ spec.front_at s.now }
{
    let b = *s.first()?;
    if is_letter(b) {
        Some(word(s))
    } else if is_digit(b) {
        Some(number(s))
    } else if is_quote(b) {
        Some(quotation(b, &s[1..]))
    } else if is_blank(b) {
        Some((Lexeme::Gap, 1))
    } else {
        sign(s)
    }
}

/// The longest lexeme that begins there, with its length.
pub fn lexeme(text: &[u8], at: usize) -> Option<(Lexeme, usize)>
    requires { at ≤ length text.now }
    ensures value { result ≡ spec.front_at (drop at text.now) }
    ensures within { IfSome result (λ p. (0 < p.1) × (at + p.1 ≤ length text.now)) }
{
    front(&text[at..])
}
