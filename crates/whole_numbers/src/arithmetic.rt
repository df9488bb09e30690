//! Sums, products, orders and bits, over operands of one type.

ghost use Rattle.std.specs.Prelude.{◌≡◌, ◌+ℤ◌, ◌-ℤ◌, ◌*ℤ◌, negsuc, neg_ℤ, pos, bit_and, bit_or, bit_xor, int_lt};
ghost use Rattle.std.specs.Ordering.{int_eq};
ghost use Rattle.whole_numbers.specs.Types.{IsValue, int, number, word_of, wrapped};
ghost use Rattle.whole_numbers.specs.Operators as spec;
ghost use Rattle.whole_numbers.specs.Operators.{bitwise};

use crate::types::WholeType;
use crate::values::extended;

pub(crate) fn product(kind: WholeType, left: u64, right: u64) -> u64
    ensures value { result ≡ word_of (wrapped kind (number kind left *ℤ number kind right)) }
    ensures kept { IsValue kind result }
{
    extended(kind, left.wrapping_mul(right))
}

pub(crate) fn sum(kind: WholeType, left: u64, right: u64) -> u64
    ensures value { result ≡ word_of (wrapped kind (number kind left +ℤ number kind right)) }
    ensures kept { IsValue kind result }
{
    extended(kind, left.wrapping_add(right))
}

pub(crate) fn difference(kind: WholeType, left: u64, right: u64) -> u64
    ensures value { result ≡ word_of (wrapped kind (number kind left -ℤ number kind right)) }
    ensures kept { IsValue kind result }
{
    extended(kind, left.wrapping_sub(right))
}

pub(crate) fn negative(kind: WholeType, word: u64) -> u64
    ensures value { result ≡ word_of (wrapped kind (neg_ℤ (number kind word))) }
    ensures kept { IsValue kind result }
{
    extended(kind, 0u64.wrapping_sub(word))
}

pub(crate) fn complement(kind: WholeType, word: u64) -> u64
    ensures value { result ≡ word_of (wrapped kind (negsuc 0 -ℤ number kind word)) }
    ensures kept { IsValue kind result }
{
    extended(kind, !word)
}

pub(crate) fn bits_of_both(kind: WholeType, left: u64, right: u64) -> u64
    ensures value { result ≡ word_of (bitwise bit_and kind (number kind left) (number kind right)) }
    ensures kept { IsValue kind result }
{
    extended(kind, left & right)
}

pub(crate) fn bits_of_one(kind: WholeType, left: u64, right: u64) -> u64
    ensures value { result ≡ word_of (bitwise bit_xor kind (number kind left) (number kind right)) }
    ensures kept { IsValue kind result }
{
    extended(kind, left ^ right)
}

pub(crate) fn bits_of_either(kind: WholeType, left: u64, right: u64) -> u64
    ensures value { result ≡ word_of (bitwise bit_or kind (number kind left) (number kind right)) }
    ensures kept { IsValue kind result }
{
    extended(kind, left | right)
}

#[tactic(auto, unfolding(crate::specs::Types::number))]
pub(crate) fn is_less(kind: WholeType, left: u64, right: u64) -> bool
    ensures { result ≡ int_lt (number kind left) (number kind right) }
{
    if kind.signed {
        left.cast_signed() < right.cast_signed()
    } else {
        left < right
    }
}

pub(crate) fn is_equal(kind: WholeType, left: u64, right: u64) -> bool
    ensures { result ≡ int_eq (number kind left) (number kind right) }
{
    left == right
}

pub(crate) fn is_zero(kind: WholeType, word: u64) -> bool
    ensures { result ≡ int_eq (number kind word) (pos 0) }
{
    word == 0
}

/// The answer of a comparison.
pub(crate) fn truth(holds: bool) -> u64
    ensures value { result ≡ word_of (spec.truth holds) }
    ensures kept { IsValue int result }
{
    u64::from(holds)
}
