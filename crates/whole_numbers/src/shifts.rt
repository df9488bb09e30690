//! Shifts (C11 6.5.7).
//!
//! The bits of a negative count are those of a great number, so one test of the bits refuses counts of both kinds.

ghost use Rattle.std.specs.Prelude.{◌≡◌, ◌<◌, IfOk};
ghost use Rattle.std.specs.Int.{int_shr};
ghost use Rattle.whole_numbers.specs.Types.{IsValue, number, word_of};
ghost use Rattle.whole_numbers.specs.Operators.{shifted};
ghost use Rattle.whole_numbers.specs.declared.operators.BinaryOperator.TheVariants.{ShiftLeft, ShiftRight};

use crate::trap::Trap;
use crate::types::WholeType;
use crate::values::extended;

/// A number shifted to the left, by a count that has a type of its own.
pub fn shift_left(
    kind: WholeType,
    left: u64,
    count_kind: WholeType,
    count: u64,
) -> Result<u64, Trap>
    ensures value { result ≡ shifted ShiftLeft kind left count_kind count }
    ensures kept { IfOk result (IsValue kind) }
{
    if count < u64::from(kind.width.bits()) {
        Ok(extended(kind, left << count))
    } else {
        Err(Trap::ShiftCount)
    }
}

/// A number shifted to the right, a negative one rounded down, by a count that has a type of its own.
pub fn shift_right(
    kind: WholeType,
    left: u64,
    count_kind: WholeType,
    count: u64,
) -> Result<u64, Trap>
    ensures value { result ≡ shifted ShiftRight kind left count_kind count }
    ensures kept { IfOk result (IsValue kind) }
{
    if count < u64::from(kind.width.bits()) {
        Ok(extended(kind, moved_down(kind, left, count)))
    } else {
        Err(Trap::ShiftCount)
    }
}

/// The bits of a number shifted to the right, which are filled by the sign of a signed one.
fn moved_down(kind: WholeType, left: u64, count: u64) -> u64
    requires { count < 64 }
    ensures { result ≡ word_of (int_shr (number kind left) count) }
{
    if kind.signed {
        (left.cast_signed() >> count).cast_unsigned()
    } else {
        left >> count
    }
}
