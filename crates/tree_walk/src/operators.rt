//! The operators on values.

ghost use Rattle.std.specs.Prelude.{◌≡◌};
ghost use Rattle.std.specs.Int.{w32};
ghost use Rattle.plain_meaning.specs.Values as values;

use plain_meaning::Operator;

/// The value of `a OPERATOR b` (C11 6.5.5, 6.5.6, 6.5.8, 6.5.9); products, sums and differences wrap.
pub(crate) fn operate(operator: Operator, a: i32, b: i32) -> i32
    ensures { result ≡ values.operate w32 operator a b }
{
    match operator {
        Operator::Multiply => a.wrapping_mul(b),
        Operator::Add => a.wrapping_add(b),
        Operator::Subtract => a.wrapping_sub(b),
        Operator::Less => truth(a < b),
        Operator::LessEqual => truth(a <= b),
        Operator::Equal => truth(a == b),
    }
}

fn truth(holds: bool) -> i32
    ensures { result ≡ values.truth holds }
{
    if holds { 1 } else { 0 }
}

/// Whether a test of this value holds (C11 6.8.4.1, 6.8.5).
pub(crate) fn is_true(value: i32) -> bool
    ensures { result ≡ values.is_true value }
{
    value != 0
}
