//! Bytes that are spelled between quotes (C11 6.4.4.4).

ghost use Rattle.std.specs.Prelude.{◌≡◌, ◌+◌, ◌<◌, ◌≤◌, length, take, drop, is_some, IfOk, IfSome};
ghost use Rattle.std.specs.Option.{ForSome};
ghost use Rattle.std.specs.List.{prefix_len};
ghost use Rattle.c_lexer.specs.Bytes.{digits_value, is_octal as octal_digit, is_hexadecimal as hexadecimal_digit};
ghost use Rattle.c_lexer.specs.Escapes.{escapes, escape_byte};
ghost use Rattle.c_lexer.specs.Scan as spec;

use crate::bytes::{is_hexadecimal, is_octal};
use crate::numbers::value_of;
use std::alloc::{AllocError, Global};

/// The byte that a letter after a backslash means.
fn escape_byte(b: u8) -> Option<u8>
    ensures { result ≡ escape_byte escapes b }
{
    match b {
        b'\'' | b'"' | b'?' | b'\\' => Some(b),
        b'a' => Some(7),
        b'b' => Some(8),
        b'f' => Some(12),
        b'n' => Some(10),
        b'r' => Some(13),
        b't' => Some(9),
        b'v' => Some(11),
        _ => None,
    }
}

/// The byte of these digits, and how long its spelling is with what stands before them.
fn digits_unit(base: u64, before: usize, digits: &[u8]) -> Option<(u8, usize)>
    requires positive { 0 < base }
    requires small { before ≤ 2 }
    ensures { result ≡ spec.digits_unit base before digits.now }
{
    if digits.is_empty() {
        return None;
    }
    let value = value_of(base, digits)?;
    if value < 256 {
        Some((value as u8, before + digits.len()))
    } else {
        None
    }
}

/// How many octal digits stand at the front.
fn octal_len(s: &[u8]) -> usize
    ensures value { result ≡ prefix_len octal_digit s.now }
    ensures within { result ≤ length s.now }
{
    s.iter().take_while(|b| is_octal(**b)).count()
}

/// How many hexadecimal digits stand at the front.
fn hexadecimal_len(s: &[u8]) -> usize
    ensures value { result ≡ prefix_len hexadecimal_digit s.now }
    ensures within { result ≤ length s.now }
{
    s.iter().take_while(|b| is_hexadecimal(**b)).count()
}

/// The first three bytes, or all.
fn first_three(s: &[u8]) -> &[u8]
    ensures value { result.now ≡ take 3 s.now }
    ensures within { length result.now ≤ length s.now }
{
    if s.len() > 3 { &s[..3] } else { s }
}

/// Up to three octal digits after a backslash.
#[tactic(auto, unfolding(crate::specs::Scan::octal_at))]
fn octal(s: &[u8]) -> Option<(u8, usize)>
    ensures { result ≡ spec.octal_at s.now }
{
    let len = octal_len(first_three(s));
    digits_unit(8, 1, &s[..len])
}

/// The hexadecimal digits after a backslash and its letter.
#[tactic(auto, unfolding(crate::specs::Scan::hexadecimal_at))]
fn hexadecimal(s: &[u8]) -> Option<(u8, usize)>
    ensures { result ≡ spec.hexadecimal_at s.now }
{
    let len = hexadecimal_len(s);
    digits_unit(16, 2, &s[..len])
}

/// What comes after a backslash.
#[tactic(auto, unfolding(crate::specs::Scan::escape_at))]
fn escape(s: &[u8]) -> Option<(u8, usize)>
    ensures { result ≡ spec.escape_at s.now }
{
    let b = *s.first()?;
    match escape_byte(b) {
        Some(value) => Some((value, 2)),
        None if b == b'x' => hexadecimal(&s[1..]),
        None => octal(s),
    }
}

/// The byte that is spelled at the front, with the length of its spelling.
#[tactic(auto, unfolding(crate::specs::Scan::unit_at))]
pub fn unit(s: &[u8]) -> Option<(u8, usize)>
    ensures { result ≡ spec.unit_at s.now }
{
    let b = *s.first()?;
    if b == b'\\' {
        escape(&s[1..])
    } else {
        Some((b, 1))
    }
}

/// The byte that is spelled there, with the length of its spelling.
fn unit_from(s: &[u8], at: usize) -> Option<(u8, usize)>
    requires { at ≤ length s.now }
    ensures value { result ≡ spec.unit_at (drop at s.now) }
    ensures within { IfSome result (λ p. (0 < p.1) × (at + p.1 ≤ length s.now)) }
{
    unit(&s[at..])
}

/// Whether the text means bytes.
pub fn means_bytes(s: &[u8]) -> bool
    ensures { result ≡ is_some (spec.meant_bytes 0 s.now) }
{
    let mut at = 0;
    while at < s.len() {
        let Some((_, len)) = unit_from(s, at) else {
            return false;
        };
        at += len;
    }
    true
}

/// The bytes that the text means, as far as it means bytes.
pub fn decode(alloc: Global, s: &[u8]) -> Result<Vec<u8>, AllocError>
    ensures { IfOk result (λ bytes. ForSome (spec.meant_bytes 0 s.now) (λ own. bytes.items ≡ own)) }
{
    let mut bytes = Vec::with_capacity(alloc, s.len())?;
    let mut at = 0;
    while at < s.len() {
        let Some((value, len)) = unit_from(s, at) else {
            return Ok(bytes);
        };
        bytes.push(value)?;
        at += len;
    }
    Ok(bytes)
}
