//! What each byte of a format does, one after another.

ghost use Rattle.std.specs.Prelude.{◌≡◌};
ghost use Rattle.c_print.specs.Machine as spec;

use crate::parts::{Flag, Letter};

/// What a byte may be in a conversion.
#[derive(Clone, Copy)]
pub enum Kind {
    Percent,
    Minus,
    Zero,
    /// A digit from 1 to 9.
    Digit(u8),
    Ell,
    Zed,
    /// The letter of a whole number.
    Whole(Letter),
    /// The letter of a byte.
    Byte,
    /// The letter of a string.
    Str,
    Other,
}

/// What was read of a conversion, if one is open.
#[derive(Clone, Copy)]
pub enum State {
    Outside,
    /// After `%`.
    Percent,
    /// After a flag.
    Flagged(Flag),
    /// After the first digit of a width.
    Digit(Flag, u8),
    /// After both digits of a width.
    Digits(Flag, u32),
    /// After `l`.
    Ell(Flag, u32),
    /// After `ll`.
    Ells(Flag, u32),
    /// After `z`.
    Zed(Flag, u32),
}

/// What a byte does.
#[derive(Clone, Copy)]
pub enum Effect {
    /// No format goes on with it.
    Wrong,
    /// A conversion goes on.
    Goes(State),
    /// This byte is printed as it is.
    Plain(u8),
    /// A conversion of a number is whole.
    Number {
        letter: Letter,
        flag: Flag,
        width: u32,
        long: bool,
    },
    /// A conversion of a string is whole.
    Str {
        flag: Flag,
        width: u32,
    },
}

#[tactic(auto, unfolding(crate::specs::Machine::whole_kind))]
fn whole_kind(byte: u8) -> Kind
    ensures { result ≡ spec.whole_kind byte }
{
    match byte {
        b'd' => Kind::Whole(Letter::D),
        b'i' => Kind::Whole(Letter::I),
        b'u' => Kind::Whole(Letter::U),
        b'x' => Kind::Whole(Letter::X),
        _ => Kind::Other,
    }
}

#[tactic(auto, unfolding(crate::specs::Machine::letter_kind))]
fn letter_kind(byte: u8) -> Kind
    ensures { result ≡ spec.letter_kind byte }
{
    match byte {
        b'l' => Kind::Ell,
        b'z' => Kind::Zed,
        b'c' => Kind::Byte,
        b's' => Kind::Str,
        _ => whole_kind(byte),
    }
}

#[tactic(auto, unfolding(crate::specs::Machine::kind_of))]
fn kind_of(byte: u8) -> Kind
    ensures { result ≡ spec.kind_of byte }
{
    match byte {
        b'%' => Kind::Percent,
        b'-' => Kind::Minus,
        b'0' => Kind::Zero,
        b'1'..=b'9' => Kind::Digit(byte - b'0'),
        _ => letter_kind(byte),
    }
}

fn after_modifier(flag: Flag, width: u32, long: bool, kind: Kind) -> Effect
    ensures { result ≡ spec.after_modifier flag width long kind }
{
    match kind {
        Kind::Whole(letter) => Effect::Number {
            letter,
            flag,
            width,
            long,
        },
        _ => Effect::Wrong,
    }
}

fn after_ell(flag: Flag, width: u32, kind: Kind) -> Effect
    ensures { result ≡ spec.after_ell flag width kind }
{
    match kind {
        Kind::Ell => Effect::Goes(State::Ells(flag, width)),
        _ => after_modifier(flag, width, true, kind),
    }
}

/// Bytes and strings are not filled with zeros.
fn byte_or_wrong(flag: Flag, width: u32) -> Effect
    ensures { result ≡ spec.byte_or_wrong flag width }
{
    match flag {
        Flag::Zero => Effect::Wrong,
        _ => Effect::Number {
            letter: Letter::C,
            flag,
            width,
            long: false,
        },
    }
}

fn str_or_wrong(flag: Flag, width: u32) -> Effect
    ensures { result ≡ spec.str_or_wrong flag width }
{
    match flag {
        Flag::Zero => Effect::Wrong,
        _ => Effect::Str { flag, width },
    }
}

fn after_width(flag: Flag, width: u32, kind: Kind) -> Effect
    ensures { result ≡ spec.after_width flag width kind }
{
    match kind {
        Kind::Ell => Effect::Goes(State::Ell(flag, width)),
        Kind::Zed => Effect::Goes(State::Zed(flag, width)),
        Kind::Byte => byte_or_wrong(flag, width),
        Kind::Str => str_or_wrong(flag, width),
        _ => after_modifier(flag, width, false, kind),
    }
}

fn after_digit(flag: Flag, digit: u8, kind: Kind) -> Effect
    ensures { result ≡ spec.after_digit flag digit kind }
{
    let width = u32::from(digit);
    match kind {
        Kind::Zero => Effect::Goes(State::Digits(flag, 10 * width)),
        Kind::Digit(next) => Effect::Goes(State::Digits(flag, 10 * width + u32::from(next))),
        _ => after_width(flag, width, kind),
    }
}

fn after_flag(flag: Flag, kind: Kind) -> Effect
    ensures { result ≡ spec.after_flag flag kind }
{
    match kind {
        Kind::Digit(digit) => Effect::Goes(State::Digit(flag, digit)),
        _ => Effect::Wrong,
    }
}

fn after_percent(kind: Kind) -> Effect
    ensures { result ≡ spec.after_percent kind }
{
    match kind {
        Kind::Percent => Effect::Plain(b'%'),
        Kind::Minus => Effect::Goes(State::Flagged(Flag::Minus)),
        Kind::Zero => Effect::Goes(State::Flagged(Flag::Zero)),
        Kind::Digit(digit) => Effect::Goes(State::Digit(Flag::Bare, digit)),
        _ => after_width(Flag::Bare, 0, kind),
    }
}

fn outside(byte: u8, kind: Kind) -> Effect
    ensures { result ≡ spec.outside byte kind }
{
    match kind {
        Kind::Percent => Effect::Goes(State::Percent),
        _ => Effect::Plain(byte),
    }
}

/// What a byte does in a state.
#[tactic(auto, unfolding(crate::specs::Machine::effect_of))]
pub fn effect_of(state: State, byte: u8) -> Effect
    ensures { result ≡ spec.effect_of state byte }
{
    let kind = kind_of(byte);
    match state {
        State::Outside => outside(byte, kind),
        State::Percent => after_percent(kind),
        State::Flagged(flag) => after_flag(flag, kind),
        State::Digit(flag, digit) => after_digit(flag, digit, kind),
        State::Digits(flag, width) => after_width(flag, width, kind),
        State::Ell(flag, width) => after_ell(flag, width, kind),
        State::Ells(flag, width) => after_modifier(flag, width, true, kind),
        State::Zed(flag, width) => after_modifier(flag, width, true, kind),
    }
}
