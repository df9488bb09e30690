//! Quotients and remainders (C11 6.5.5).

ghost use Rattle.std.specs.Prelude.{◌≡◌, ◌<◌, IfNone, IfOk, int_div, int_rem};
ghost use Rattle.whole_numbers.specs.Types.{IsValue, number, word_of};
ghost use Rattle.whole_numbers.specs.Operators.{applied, dividing_trap};
ghost use Rattle.whole_numbers.specs.declared.operators.BinaryOperator.TheVariants.{Divide, Remainder};

use crate::trap::Trap;
use crate::types::WholeType;
use crate::values::extended;

/// The bits of -1, in each signed type.
const MINUS_ONE: u64 = u64::MAX;

/// Why there is no quotient, if there is none.
fn trap_of(kind: WholeType, left: u64, right: u64) -> Option<Trap>
    ensures value { result ≡ dividing_trap kind (number kind left) (number kind right) }
    ensures divisor { IfNone result (0 < right) }
{
    if right == 0 {
        return Some(Trap::ZeroDivide);
    }
    let least = !(kind.width.mask() / 2);
    if kind.signed && left == least && right == MINUS_ONE {
        return Some(Trap::Overflow);
    }
    None
}

/// The bits of a quotient.
fn quotient_bits(kind: WholeType, left: u64, right: u64) -> u64
    requires { 0 < right }
    ensures { result ≡ word_of (int_div (number kind left) (number kind right)) }
{
    if kind.signed {
        let quotient = left.cast_signed().wrapping_div(right.cast_signed());
        quotient.cast_unsigned()
    } else {
        left / right
    }
}

/// The bits of a remainder.
fn remainder_bits(kind: WholeType, left: u64, right: u64) -> u64
    requires { 0 < right }
    ensures { result ≡ word_of (int_rem (number kind left) (number kind right)) }
{
    if kind.signed {
        let rest = left.cast_signed().wrapping_rem(right.cast_signed());
        rest.cast_unsigned()
    } else {
        left % right
    }
}

/// `left / right`, rounded toward zero.
pub(crate) fn quotient(kind: WholeType, left: u64, right: u64) -> Result<u64, Trap>
    ensures value { result ≡ applied Divide kind left right }
    ensures kept { IfOk result (IsValue kind) }
{
    match trap_of(kind, left, right) {
        Some(trap) => Err(trap),
        None => Ok(extended(kind, quotient_bits(kind, left, right))),
    }
}

/// `left % right`, with the sign of `left`.
pub(crate) fn remainder(kind: WholeType, left: u64, right: u64) -> Result<u64, Trap>
    ensures value { result ≡ applied Remainder kind left right }
    ensures kept { IfOk result (IsValue kind) }
{
    match trap_of(kind, left, right) {
        Some(trap) => Err(trap),
        None => Ok(extended(kind, remainder_bits(kind, left, right))),
    }
}
