//! The bytes that number parts print.

ghost use Rattle.std.specs.Prelude.{◌≡◌, ◌+◌, ◌≤◌, ◌<◌, false, decimal, ◌++◌, length, drop, replicate, OnOk, OnErr};
ghost use Rattle.std.specs.Fmt.{digits, digit_glyph};
ghost use Rattle.arrayvec.specs.ArrayVec.{array_vec_len};
ghost use Rattle.c_print.specs.Numbers as spec;
ghost use Rattle.c_print.specs.Numbers.{IsNumber, printed, filled, bare, signed, unfilled};

use crate::parts::{Flag, Letter, Part};
use arrayvec::ArrayVec;
use byte_texts::Text;
use itoa::Buffer;
use std::alloc::AllocError;

/// The largest width that a format has.
const MAX_WIDTH: u32 = 99;

/// How many bytes a number part prints at most: the largest width. A sign and the digits of any number are fewer.
const LINE_BYTES: usize = 99;

/// The digits of any number in hexadecimal.
const HEX_DIGITS: usize = 16;

/// What a shorter text is filled with.
static SPACES: [u8; LINE_BYTES] = [b' '; LINE_BYTES];

static ZEROS: [u8; LINE_BYTES] = [b'0'; LINE_BYTES];

/// The bytes of one part.
type Line = ArrayVec<u8, LINE_BYTES>;

fn hex_digit(digit: u8) -> u8
    requires { digit < 16 }
    ensures { result ≡ digit_glyph false digit }
{
    if digit < 10 {
        b'0' + digit
    } else {
        b'a' + (digit - 10)
    }
}

/// Writes the digits at the end of `out`, and answers where they begin.
fn write_hexadecimal(n: u64, out: &mut [u8; HEX_DIGITS]) -> usize
    ensures bound { result ≤ 16 }
    ensures value { drop result out.new ≡ digits 16 false n }
{
    let mut start = HEX_DIGITS - 1;
    let mut rest = n;
    while rest >= 16 {
        out[start] = hex_digit((rest % 16) as u8);
        rest /= 16;
        start -= 1;
    }
    out[start] = hex_digit(rest as u8);
    start
}

fn put(line: &mut Line, bytes: &[u8])
    requires { array_vec_len line.old + length bytes.now ≤ 99 }
    ensures { line.new.items ≡ line.old.items ++ bytes.now }
{
    line.try_extend_from_slice(bytes).unwrap();
}

fn line_of(first: &[u8], second: &[u8], third: &[u8]) -> Line
    requires { length first.now + length second.now + length third.now ≤ 99 }
    ensures { result.items ≡ first.now ++ second.now ++ third.now }
{
    let mut line = ArrayVec::new();
    put(&mut line, first);
    put(&mut line, second);
    put(&mut line, third);
    line
}

fn spaces(count: usize) -> &'static [u8]
    requires { count ≤ 99 }
    ensures { result.now ≡ replicate count 32 }
{
    &SPACES[..count]
}

fn zeros(count: usize) -> &'static [u8]
    requires { count ≤ 99 }
    ensures { result.now ≡ replicate count 48 }
{
    &ZEROS[..count]
}

/// A short text that is filled to its width.
fn filled_line(flag: Flag, width: u32, sign: &[u8], rest: &[u8]) -> Line
    requires { length sign.now + length rest.now ≤ 99 }
    ensures { result.items ≡ filled flag width (record { sign = sign.now; rest = rest.now }) }
{
    let bytes = sign.len() + rest.len();
    let lack = (width.min(MAX_WIDTH) as usize).saturating_sub(bytes);
    match flag {
        Flag::Bare => line_of(spaces(lack), sign, rest),
        Flag::Minus => line_of(sign, rest, spaces(lack)),
        Flag::Zero => line_of(sign, zeros(lack), rest),
    }
}

/// Adds bytes to the text, filled to the width, as `%s` prints them. It takes memory at most once.
pub fn print_text(flag: Flag, width: u32, bytes: &[u8], text: &mut Text) -> Result<(), AllocError>
    ensures ok { OnOk result (text.new ≡ text.old ++ filled flag width (bare bytes.now)) }
    ensures err { OnErr result (text.new ≡ text.old) }
{
    if bytes.len() >= LINE_BYTES {
        return text.append(bytes);
    }
    text.append(filled_line(flag, width, b"", bytes).as_slice())
}

fn sign_of(n: i64) -> &'static [u8]
    ensures { result.now ≡ spec.sign_of n }
{
    if n < 0 { b"-" } else { b"" }
}

fn signed_of(long: bool, bits: u64) -> i64
    ensures { result ≡ spec.signed_of long bits }
{
    if long {
        bits.cast_signed()
    } else {
        let low = (bits % (1 << 32)) as u32;
        i64::from(low.cast_signed())
    }
}

fn unsigned_of(long: bool, bits: u64) -> u64
    ensures { result ≡ spec.unsigned_of long bits }
{
    if long { bits } else { bits % (1 << 32) }
}

fn print_signed(n: i64, flag: Flag, width: u32, text: &mut Text) -> Result<(), AllocError>
    ensures ok { OnOk result (text.new ≡ text.old ++ filled flag width (signed n)) }
    ensures err { OnErr result (text.new ≡ text.old) }
{
    let mut buffer = Buffer::new();
    let digits = buffer.format(n.unsigned_abs()).as_bytes();
    text.append(filled_line(flag, width, sign_of(n), digits).as_slice())
}

fn print_unsigned(n: u64, flag: Flag, width: u32, text: &mut Text) -> Result<(), AllocError>
    ensures ok { OnOk result (text.new ≡ text.old ++ filled flag width (bare (decimal n))) }
    ensures err { OnErr result (text.new ≡ text.old) }
{
    let mut buffer = Buffer::new();
    print_text(flag, width, buffer.format(n).as_bytes(), text)
}

fn print_hexadecimal(n: u64, flag: Flag, width: u32, text: &mut Text) -> Result<(), AllocError>
    ensures ok { OnOk result (text.new ≡ text.old ++ filled flag width (bare (digits 16 false n))) }
    ensures err { OnErr result (text.new ≡ text.old) }
{
    let mut digits = [0; HEX_DIGITS];
    let start = write_hexadecimal(n, &mut digits);
    print_text(flag, width, &digits[start..], text)
}

fn print_number(
    letter: Letter,
    flag: Flag,
    width: u32,
    long: bool,
    bits: u64,
    text: &mut Text,
) -> Result<(), AllocError>
    ensures ok { OnOk result (text.new ≡ text.old ++ filled flag width (unfilled letter long bits)) }
    ensures err { OnErr result (text.new ≡ text.old) }
{
    match letter {
        Letter::D | Letter::I => print_signed(signed_of(long, bits), flag, width, text),
        Letter::U => print_unsigned(unsigned_of(long, bits), flag, width, text),
        Letter::X => print_hexadecimal(unsigned_of(long, bits), flag, width, text),
        Letter::C => print_text(flag, width, &[(bits % 256) as u8], text),
    }
}

/// Adds the bytes that a number part prints of an argument (C11 7.21.6.1) to the text. `bits` has the argument's bits,
/// of which `long` and the letter say how many count. A width above 99, which no format has, counts as 99. It takes
/// memory at most once.
pub fn print_part(part: &Part, bits: u64, text: &mut Text) -> Result<(), AllocError>
    requires { IsNumber part.now }
    ensures ok { OnOk result (text.new ≡ text.old ++ printed part.now bits) }
    ensures err { OnErr result (text.new ≡ text.old) }
{
    match part {
        Part::Number {
            letter,
            flag,
            width,
            long,
        } => print_number(*letter, *flag, *width, *long, bits, text),
        Part::Plain(_) | Part::Str { .. } => unreachable!(),
    }
}
