//! Constants of whole numbers (C11 6.4.4.1).

ghost use Rattle.std.specs.Prelude.{◌≡◌, ◌≤◌, ◌<◌, ◌^◌, true, length, drop, Some, None, IfSome, nat_lt, if◌then◌else◌};
ghost use Rattle.c_lexer.specs.Bytes.{digits_value, first_passes, is_digit as decimal_digit};
ghost use Rattle.c_lexer.specs.Numbers as numbers;
ghost use Rattle.c_lexer.specs.Scan as spec;

use crate::bytes::{digit_value, is_digit, is_hexadecimal, is_octal, is_x};
use crate::lexeme::{Fault, Lexeme};
use crate::tables::first_match;
use c_tokens::{Kind, NumType};

/// How a constant is written.
#[derive(Clone, Copy, Debug, PartialEq, Eq)]
pub enum Radix {
    Decimal,
    Octal,
    Hexadecimal,
}

/// What the letters after the digits say of the type; `long long` is `long`.
#[derive(Clone, Copy, Debug, PartialEq, Eq)]
pub enum Suffix {
    Plain,
    Unsigned,
    Long,
    UnsignedLong,
}

/// The suffixes with their spellings; a longer one stands before those that it begins with.
const SUFFIXES: [(Suffix, &[u8]); 23] = [
    (Suffix::UnsignedLong, b"ull"),
    (Suffix::UnsignedLong, b"uLL"),
    (Suffix::UnsignedLong, b"Ull"),
    (Suffix::UnsignedLong, b"ULL"),
    (Suffix::UnsignedLong, b"llu"),
    (Suffix::UnsignedLong, b"llU"),
    (Suffix::UnsignedLong, b"LLu"),
    (Suffix::UnsignedLong, b"LLU"),
    (Suffix::UnsignedLong, b"ul"),
    (Suffix::UnsignedLong, b"uL"),
    (Suffix::UnsignedLong, b"Ul"),
    (Suffix::UnsignedLong, b"UL"),
    (Suffix::UnsignedLong, b"lu"),
    (Suffix::UnsignedLong, b"lU"),
    (Suffix::UnsignedLong, b"Lu"),
    (Suffix::UnsignedLong, b"LU"),
    (Suffix::Long, b"ll"),
    (Suffix::Long, b"LL"),
    (Suffix::Unsigned, b"u"),
    (Suffix::Unsigned, b"U"),
    (Suffix::Long, b"l"),
    (Suffix::Long, b"L"),
    (Suffix::Plain, b""),
];

/// How the constant at the front is written.
fn radix_at(s: &[u8]) -> Radix
    ensures { result ≡ spec.radix_at s.now }
{
    if s.first() != Some(&b'0') {
        Radix::Decimal
    } else if has_hexadecimal_prefix(&s[1..]) {
        Radix::Hexadecimal
    } else {
        Radix::Octal
    }
}

fn has_hexadecimal_prefix(s: &[u8]) -> bool
    ensures { result ≡ spec.is_hexadecimal_prefix s.now }
{
    s.len() > 1 && is_x(s[0]) && is_hexadecimal(s[1])
}

fn base_of(radix: Radix) -> u64
    ensures { result ≡ spec.base_of radix }
{
    match radix {
        Radix::Decimal => 10,
        Radix::Octal => 8,
        Radix::Hexadecimal => 16,
    }
}

fn is_digit_of(radix: Radix, b: u8) -> bool
    ensures { result ≡ spec.is_digit_of radix b }
{
    match radix {
        Radix::Decimal => is_digit(b),
        Radix::Octal => is_octal(b),
        Radix::Hexadecimal => is_hexadecimal(b),
    }
}

/// How many bytes stand before the digits.
fn prefix_of(radix: Radix) -> usize
    ensures { result ≡ spec.prefix_of radix }
{
    match radix {
        Radix::Hexadecimal => 2,
        _ => 0,
    }
}

/// How many digits stand at the front.
fn digits_len(radix: Radix, s: &[u8]) -> usize
    ensures value { result ≡ spec.digits_len radix s.now }
    ensures within { result ≤ length s.now }
{
    s.iter().take_while(|b| is_digit_of(radix, **b)).count()
}

/// The number that the digits write, if 64 bits hold it.
pub fn value_of(base: u64, digits: &[u8]) -> Option<u64>
    requires { 0 < base }
    ensures { result ≡ (if nat_lt (digits_value base 0 digits.now) (2 ^ 64) then Some (digits_value base 0 digits.now) else None) }
{
    let mut n: u64 = 0;
    for b in digits {
        let Some(shifted) = n.checked_mul(base) else {
            return None;
        };
        let Some(more) = shifted.checked_add(u64::from(digit_value(*b))) else {
            return None;
        };
        n = more;
    }
    Some(n)
}

/// The suffix at the front with its length.
fn suffix_at(s: &[u8]) -> (Suffix, usize)
    ensures value { result ≡ spec.suffix_at s.now }
    ensures within { result.1 ≤ length s.now }
{
    match first_match(&SUFFIXES, s) {
        Some(found) => found,
        None => (Suffix::Plain, 0),
    }
}

/// Whether the type can represent the value.
fn can_hold(kind: NumType, value: u64) -> bool
    ensures { result ≡ numbers.can_hold kind value }
{
    match kind {
        NumType::Int => value < 0x8000_0000,
        NumType::UInt => value < 0x1_0000_0000,
        NumType::Long => value < 0x8000_0000_0000_0000,
        NumType::ULong => true,
    }
}

/// The types that a constant may have, in the order in which they are tried.
fn types_for(radix: Radix, suffix: Suffix) -> &'static [NumType]
    ensures { result.now ≡ numbers.types_for radix suffix }
{
    match (radix, suffix) {
        (Radix::Decimal, Suffix::Plain) => &[NumType::Int, NumType::Long],
        (_, Suffix::Plain) => &[NumType::Int, NumType::UInt, NumType::Long, NumType::ULong],
        (Radix::Decimal, Suffix::Long) => &[NumType::Long],
        (_, Suffix::Long) => &[NumType::Long, NumType::ULong],
        (_, Suffix::Unsigned) => &[NumType::UInt, NumType::ULong],
        (_, Suffix::UnsignedLong) => &[NumType::ULong],
    }
}

/// The first of the types that can represent the value.
fn first_type(value: u64, types: &[NumType]) -> Option<NumType>
    ensures { result ≡ numbers.first_type value types.now }
{
    for kind in types {
        if can_hold(*kind, value) {
            return Some(*kind);
        }
    }
    None
}

/// The constant with its type, or too large for each type that it may have.
fn typed_number(value: u64, types: &[NumType]) -> Lexeme
    ensures { result ≡ numbers.typed_number value (numbers.first_type value types.now) }
{
    match first_type(value, types) {
        Some(kind) => Lexeme::Sound(Kind::Number(value, kind)),
        None => Lexeme::Faulty(Fault::NumberTooLarge),
    }
}

/// The constant of these digits.
fn constant(radix: Radix, suffix: Suffix, digits: &[u8]) -> Lexeme
    ensures { result ≡ numbers.number_lexeme radix suffix (digits_value (spec.base_of radix) 0 digits.now) }
{
    match value_of(base_of(radix), digits) {
        Some(value) => typed_number(value, types_for(radix, suffix)),
        None => Lexeme::Faulty(Fault::NumberTooLarge),
    }
}

/// The text from the index on.
fn rest_from(s: &[u8], at: usize) -> &[u8]
    requires { at ≤ length s.now }
    ensures { result.now ≡ drop at s.now }
{
    &s[at..]
}

/// The constant at the front, which begins with a digit, and its length.
#[tactic(auto, unfolding(crate::specs::Scan::number_at, crate::specs::Scan::number_of))]
pub fn number(s: &[u8]) -> (Lexeme, usize)
    requires { first_passes decimal_digit s.now ≡ true }
    ensures { result ≡ spec.number_at s.now }
{
    let radix = radix_at(s);
    let prefix = prefix_of(radix);
    let rest = rest_from(s, prefix);
    let digits = digits_len(radix, rest);
    let ending = suffix_at(rest_from(rest, digits));
    (
        constant(radix, ending.0, &rest[..digits]),
        prefix + digits + ending.1,
    )
}
