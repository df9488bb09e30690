//! Comments (C11 6.4.9).

ghost use Rattle.std.specs.Prelude.{◌≡◌, ◌&&◌, ◌==◌, ◌≤◌, false, length, IfSome};
ghost use Rattle.std.specs.List.{prefix_len};
ghost use Rattle.c_lexer.specs.Words as words;
ghost use Rattle.c_lexer.specs.Scan as spec;

use crate::lexeme::{Fault, Lexeme};

/// Whether a comment ends with the byte, where `star` says that a star stands before it.
fn ends(star: bool, b: u8) -> bool
    ensures { result ≡ (star && b == 47) }
{
    star && b == b'/'
}

/// The length up to the end of the comment whose first two bytes stand before this text.
fn comment_len(s: &[u8]) -> Option<usize>
    ensures value { result ≡ spec.comment_len false s.now }
    ensures within { IfSome result (λ n. n ≤ length s.now) }
{
    let mut star = false;
    for (i, b) in s.iter().enumerate() {
        if ends(star, *b) {
            return Some(i + 1);
        }
        star = *b == b'*';
    }
    None
}

/// The comment whose first two bytes stand before this text, with its whole length.
pub fn comment(s: &[u8]) -> (Lexeme, usize)
    ensures { result ≡ spec.comment_to (spec.comment_len false s.now) }
{
    match comment_len(s) {
        Some(len) => (Lexeme::Gap, len + 2),
        None => (Lexeme::Faulty(Fault::OpenComment), 2),
    }
}

/// How many bytes stand before the line's end.
pub fn line_len(s: &[u8]) -> usize
    ensures value { result ≡ prefix_len words.no_line_end s.now }
    ensures within { result ≤ length s.now }
{
    s.iter().take_while(|b| **b != b'\n').count()
}
