//! The 64 bits of a value, and its conversion to another type.
//!
//! A value is 64 bits beside its type. They are its number modulo 2^64: extended by the sign in a signed type, and by
//! zeros in an unsigned one.

ghost use Rattle.std.specs.Prelude.{◌≡◌, ◌^◌, pos};
ghost use Rattle.whole_numbers.specs.Types as spec;
ghost use Rattle.whole_numbers.specs.Types.{IsValue, number, word_of, wrapped};

use crate::types::WholeType;

/// How many values 64 bits have.
const WORDS: i128 = 1 << 64;

/// The number that bits stand for.
#[tactic(auto, unfolding(crate::specs::Types::number))]
pub fn number_of(kind: WholeType, word: u64) -> i128
    ensures { result ≡ number kind word }
{
    if kind.signed {
        i128::from(word.cast_signed())
    } else {
        i128::from(word)
    }
}

/// The bits of what a type keeps of a number.
pub fn bits_of(kind: WholeType, number: i128) -> u64
    ensures value { result ≡ word_of (wrapped kind number) }
    ensures kept { IsValue kind result }
{
    extended(kind, number.rem_euclid(WORDS) as u64)
}

/// A value of one type converted to another (C11 6.3.1.3).
pub fn converted(to: WholeType, from: WholeType, word: u64) -> u64
    ensures value { result ≡ spec.converted to from word }
    ensures kept { IsValue to result }
{
    extended(to, word)
}

/// What a type keeps of 64 bits: the lowest of its width, extended by their sign or by zeros.
pub(crate) fn extended(kind: WholeType, word: u64) -> u64
    ensures value { result ≡ word_of (wrapped kind (pos word)) }
    ensures kept { IsValue kind result }
{
    let mask = kind.width.mask();
    let low = word & mask;
    if kind.signed && low > mask / 2 {
        low + !mask
    } else {
        low
    }
}
