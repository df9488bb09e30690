//! Classes of bytes.

ghost use Rattle.std.specs.Prelude.{◌≡◌, ◌≤◌};
ghost use Rattle.c_lexer.specs.Bytes as spec;

/// White space but for a line's end (C11 6.4p3).
pub fn is_blank(b: u8) -> bool
    ensures { result ≡ spec.is_blank b }
{
    b == b' ' || b == 9 || b == 11 || b == 12
}

/// A line's end.
pub fn is_line_end(b: u8) -> bool
    ensures { result ≡ spec.is_line_end b }
{
    b == b'\n'
}

/// A decimal digit.
pub fn is_digit(b: u8) -> bool
    ensures { result ≡ spec.is_digit b }
{
    b'0' <= b && b <= b'9'
}

/// An octal digit.
pub fn is_octal(b: u8) -> bool
    ensures { result ≡ spec.is_octal b }
{
    b'0' <= b && b <= b'7'
}

/// A hexadecimal digit.
pub fn is_hexadecimal(b: u8) -> bool
    ensures { result ≡ spec.is_hexadecimal b }
{
    is_digit(b) || (b'a' <= b && b <= b'f') || (b'A' <= b && b <= b'F')
}

/// A letter or an underscore.
pub fn is_letter(b: u8) -> bool
    ensures { result ≡ spec.is_letter b }
{
    (b'a' <= b && b <= b'z') || (b'A' <= b && b <= b'Z') || b == b'_'
}

/// A byte that may stand in a name.
pub fn is_word(b: u8) -> bool
    ensures { result ≡ spec.is_word b }
{
    is_letter(b) || is_digit(b)
}

/// The quote of a string or of a character constant.
pub fn is_quote(b: u8) -> bool
    ensures { result ≡ spec.is_quote b }
{
    b == b'"' || b == b'\''
}

/// The letter of a hexadecimal constant.
pub fn is_x(b: u8) -> bool
    ensures { result ≡ spec.is_x b }
{
    b == b'x' || b == b'X'
}

/// The value of a digit of any base up to 16.
pub fn digit_value(b: u8) -> u8
    ensures { result ≡ spec.digit_value b }
{
    if b <= b'9' {
        b.saturating_sub(b'0')
    } else if b'a' <= b {
        b - 87
    } else {
        b.saturating_sub(55)
    }
}
