//! Formats by hand, and texts against C's printf.

use crate::{Flag, FormatError, Letter, Part, parts_of, print_part, print_text};
use byte_texts::Text;
use std::alloc::{AllocError, Global};
use std::test::Fail;

/// A format, and what `shown` writes of it.
type FormatCase = (&'static [u8], &'static [u8]);

/// A format, the bits of each argument, and what printf of gcc's C library writes.
type TextCase = (&'static [u8], u64, &'static [u8]);

fn letter_byte(letter: Letter) -> u8 {
    match letter {
        Letter::D => b'd',
        Letter::I => b'i',
        Letter::U => b'u',
        Letter::X => b'x',
        Letter::C => b'c',
    }
}

fn flag_byte(flag: Flag) -> u8 {
    match flag {
        Flag::Bare => b'.',
        Flag::Minus => b'-',
        Flag::Zero => b'0',
    }
}

/// Writes a part: plain bytes in quotes, and of a conversion the letter, the flag, the width, and `l` where it is long.
fn show_part(alloc: Global, part: &Part, text: &mut Text) -> Result<(), AllocError> {
    let shown = match part {
        Part::Plain(bytes) => {
            text.append(b"'")?;
            text.append(bytes.bytes())?;
            return text.append(b"'");
        }
        Part::Number {
            letter,
            flag,
            width,
            long,
        } => {
            let letter = char::from(letter_byte(*letter));
            let flag = char::from(flag_byte(*flag));
            let long = if *long { "l" } else { "" };
            format!(in alloc; "[{letter}{flag}{width}{long}]")?
        }
        Part::Str { flag, width } => {
            let flag = char::from(flag_byte(*flag));
            format!(in alloc; "[s{flag}{width}]")?
        }
    };
    text.append(shown.as_bytes())
}

/// Writes all parts, or `!` and how many bytes begin a format.
fn shown(alloc: Global, format: &[u8]) -> Result<Text, AllocError> {
    let mut text = Text::new(alloc);
    match parts_of(alloc, format) {
        Ok(parts) => {
            for part in &parts {
                show_part(alloc, part, &mut text)?;
            }
        }
        Err(FormatError::BadFormat(at)) => {
            text.append(format!(in alloc; "!{at}")?.as_bytes())?;
        }
        Err(FormatError::Memory(e)) => return Err(e),
    }
    Ok(text)
}

/// Prints the format with these bits for each number.
fn printed(alloc: Global, format: &[u8], bits: u64) -> Result<Text, FormatError> {
    let mut text = Text::new(alloc);
    for part in &parts_of(alloc, format)? {
        match part {
            Part::Plain(bytes) => text.append(bytes.bytes())?,
            Part::Number { .. } => print_part(part, bits, &mut text)?,
            Part::Str { flag, width } => print_text(*flag, *width, b"text", &mut text)?,
        }
    }
    Ok(text)
}

#[test]
fn formats_have_their_parts(rt: HostRuntime) -> Result<(), Fail> {
    for (format, want) in &FORMATS {
        let text = shown(rt.alloc(), format)?;
        assert_eq!(rt; text.bytes(), *want);
    }
    Ok(())
}

#[test]
fn numbers_print_as_in_c(rt: HostRuntime) -> Result<(), Fail> {
    for (format, bits, want) in &TEXTS {
        let text = printed(rt.alloc(), format, *bits)?;
        assert_eq!(rt; text.bytes(), *want);
    }
    Ok(())
}

#[test]
fn texts_are_filled(rt: HostRuntime) -> Result<(), Fail> {
    let mut text = Text::new(rt.alloc());
    print_text(Flag::Bare, 5, b"abc", &mut text)?;
    print_text(Flag::Minus, 5, b"abc", &mut text)?;
    print_text(Flag::Bare, 0, b"abc", &mut text)?;
    print_text(Flag::Minus, 2, b"abc", &mut text)?;
    assert_eq!(rt; text.bytes(), b"  abcabc  abcabc".as_slice());
    Ok(())
}

/// A format of 1,048,576 bytes, of `%d` alone.
#[test]
fn long_formats_are_read(rt: HostRuntime) -> Result<(), Fail> {
    let mut format = Text::new(rt.alloc());
    for _pair in 0..524_288 {
        format.append(b"%d")?;
    }
    let parts = parts_of(rt.alloc(), format.bytes())?;
    assert_eq!(rt; parts.len(), 524_288);
    Ok(())
}

static FORMATS: [FormatCase; 64] = [
    (b"", b""),
    (b"abc", b"'abc'"),
    (b"%%", b"'%'"),
    (b"%%%%", b"'%%'"),
    (b"a%%%%b\n", b"'a%%b\n'"),
    (b"%d", b"[d.0]"),
    (b"%d%d", b"[d.0][d.0]"),
    (b"x%dy%%z", b"'x'[d.0]'y%z'"),
    (b"%%%d%%", b"'%'[d.0]'%'"),
    (b"%ld%lld%zd", b"[d.0l][d.0l][d.0l]"),
    (b"%1d%9d%10d%99d", b"[d.1][d.9][d.10][d.99]"),
    (b"%-1d%-9d%-10d%-99d", b"[d-1][d-9][d-10][d-99]"),
    (b"%01d%09d%010d%099d", b"[d01][d09][d010][d099]"),
    (b"%i%9i%-9i%09i%zi", b"[i.0][i.9][i-9][i09][i.0l]"),
    (b"%u%9u%-9u%09u%lu", b"[u.0][u.9][u-9][u09][u.0l]"),
    (b"%x%9x%-9x%09x%llx", b"[x.0][x.9][x-9][x09][x.0l]"),
    (b"%c%9c%-9c", b"[c.0][c.9][c-9]"),
    (b"%s%9s%-9s", b"[s.0][s.9][s-9]"),
    (b"%-42lld%042zu", b"[d-42l][u042l]"),
    (b"sum: %5d, %s\n", b"'sum: '[d.5]', '[s.0]'\n'"),
    (b"%", b"!1"),
    (b"%q", b"!1"),
    (b"%*d", b"!1"),
    (b"%+d", b"!1"),
    (b"% d", b"!1"),
    (b"%hd", b"!1"),
    (b"%.2d", b"!1"),
    (b"%p", b"!1"),
    (b"%D", b"!1"),
    (b"%0", b"!2"),
    (b"%0d", b"!2"),
    (b"%00d", b"!2"),
    (b"%-", b"!2"),
    (b"%-d", b"!2"),
    (b"%--5d", b"!2"),
    (b"%-05d", b"!2"),
    (b"%0-5d", b"!2"),
    (b"%5", b"!2"),
    (b"%5%", b"!2"),
    (b"%5-d", b"!2"),
    (b"%l", b"!2"),
    (b"%lc", b"!2"),
    (b"%ls", b"!2"),
    (b"%zc", b"!2"),
    (b"%zs", b"!2"),
    (b"%zzd", b"!2"),
    (b"%lzd", b"!2"),
    (b"%l5d", b"!2"),
    (b"%%%", b"!3"),
    (b"ab%", b"!3"),
    (b"ab%q", b"!3"),
    (b"%d%", b"!3"),
    (b"%05", b"!3"),
    (b"%05c", b"!3"),
    (b"%05s", b"!3"),
    (b"%09c", b"!3"),
    (b"%100d", b"!3"),
    (b"%100", b"!3"),
    (b"%llld", b"!3"),
    (b"%llc", b"!3"),
    (b"%-100d", b"!4"),
    (b"%0100d", b"!4"),
    (b"%010c", b"!4"),
    (b"%5lc", b"!3"),
];

static TEXTS: [TextCase; 19] = [
    (b"%d %i %u %x", 0x0, b"0 0 0 0"),
    (b"%d %i %u %x", 0x1, b"1 1 1 1"),
    (b"%d %i %u %x", 0xffffffff, b"-1 -1 4294967295 ffffffff"),
    (
        b"%d %i %u %x",
        0x7fffffff,
        b"2147483647 2147483647 2147483647 7fffffff",
    ),
    (
        b"%d %i %u %x",
        0x80000000,
        b"-2147483648 -2147483648 2147483648 80000000",
    ),
    (
        b"%d %i %u %x",
        0x1234567890abcdef,
        b"-1867788817 -1867788817 2427178479 90abcdef",
    ),
    (b"%ld %lli %zu %lx", 0x0, b"0 0 0 0"),
    (b"%ld %lli %zu %lx", 0x1, b"1 1 1 1"),
    (
        b"%ld %lli %zu %lx",
        0xffffffffffffffff,
        b"-1 -1 18446744073709551615 ffffffffffffffff",
    ),
    (
        b"%ld %lli %zu %lx",
        0x7fffffffffffffff,
        b"9223372036854775807 9223372036854775807 9223372036854775807 7fffffffffffffff",
    ),
    (
        b"%ld %lli %zu %lx",
        0x8000000000000000,
        b"-9223372036854775808 -9223372036854775808 9223372036854775808 8000000000000000",
    ),
    (
        b"%ld %lli %zu %lx",
        0xffffffff,
        b"4294967295 4294967295 4294967295 ffffffff",
    ),
    (
        b"%1d,%2d,%3d,%9d,%-3d,%-9d,%01d,%03d,%09d",
        0xfffffff9,
        b"-7,-7, -7,       -7,-7 ,-7       ,-7,-07,-00000007",
    ),
    (
        b"%9u,%-9u,%09u,%9x,%-9x,%09x",
        0x1000,
        b"     4096,4096     ,000004096,     1000,1000     ,000001000",
    ),
    (
        b"%21ld,%-21lld,%021zd,%020li",
        0x8000000000000000,
        b" -9223372036854775808,-9223372036854775808 ,-09223372036854775808,-9223372036854775808",
    ),
    (
        b"%17lx,%-17llx,%017zx,%016lx",
        0xffffffffffffffff,
        b" ffffffffffffffff,ffffffffffffffff ,0ffffffffffffffff,ffffffffffffffff",
    ),
    (b"%c,%1c,%9c,%-9c", 0x141, b"A,A,        A,A        "),
    (
        b"%099d",
        0x80000000,
        b"-00000000000000000000000000000000000000000000000000000000000000000000000000000000000000002147483648",
    ),
    (
        b"%-99zx",
        0xff,
        b"ff                                                                                                 ",
    ),
];
