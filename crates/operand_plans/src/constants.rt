//! Constant expressions of whole numbers: what is known of the result of an operator (C11 6.6).

ghost use Rattle.std.specs.Prelude.{◌≡◌, IsTrue};
ghost use Rattle.operand_plans.specs.Numbers.{IsOf, Tells};
ghost use Rattle.well_typed.specs.Surroundings.{is_shift};
ghost use Rattle.static_rules.specs.Constants as spec;
ghost use Rattle.well_typed.specs.Constants as tree;
ghost use Rattle.static_rules.specs.declared.judged.Known.TheVariants.{Number as number};
ghost use Rattle.whole_numbers.specs.Operators as numbers;
ghost use Rattle.whole_numbers.specs.Types.{IsNumberOf};

use crate::kinds::{whole_type, wrapped};
use c_tree::{Comparison, LogicalOperator, Operator, UnaryOperator};
use c_types::TypeNo;
use static_rules::Known;
use whole_numbers::{
    BinaryOperator, Trap, UnaryOperator as WholeUnary, WholeType, bits_of, law_conversion,
    law_values, number_of, shift_left, shift_right,
};

// ---- the operators of the typed tree among those on whole numbers

fn number_operator(operator: Operator) -> BinaryOperator
    ensures { result ≡ tree.number_operator operator }
{
    match operator {
        Operator::Multiply => BinaryOperator::Multiply,
        Operator::Divide => BinaryOperator::Divide,
        Operator::Remainder => BinaryOperator::Remainder,
        Operator::Add => BinaryOperator::Add,
        Operator::Subtract => BinaryOperator::Subtract,
        Operator::ShiftLeft => BinaryOperator::ShiftLeft,
        Operator::ShiftRight => BinaryOperator::ShiftRight,
        Operator::And => BinaryOperator::And,
        Operator::ExclusiveOr => BinaryOperator::ExclusiveOr,
        Operator::Or => BinaryOperator::Or,
    }
}

fn number_comparison(comparison: Comparison) -> BinaryOperator
    ensures { result ≡ tree.number_comparison comparison }
{
    match comparison {
        Comparison::Equal => BinaryOperator::Equal,
        Comparison::NotEqual => BinaryOperator::NotEqual,
        Comparison::Less => BinaryOperator::Less,
        Comparison::Greater => BinaryOperator::Greater,
        Comparison::LessEqual => BinaryOperator::LessEqual,
        Comparison::GreaterEqual => BinaryOperator::GreaterEqual,
    }
}

fn single_operator(operator: UnaryOperator) -> WholeUnary
    ensures { result ≡ tree.single_operator operator }
{
    match operator {
        UnaryOperator::Plus => WholeUnary::Plus,
        UnaryOperator::Minus => WholeUnary::Minus,
        UnaryOperator::Complement => WholeUnary::Complement,
    }
}

// ---- what is known of a result

/// Whether it is a constant expression of whole numbers, also one that traps.
fn is_constant(known: Known) -> bool
    ensures { result ≡ spec.is_constant known }
{
    matches!(known, Known::Number(_) | Known::Traps)
}

fn trap_if(traps: bool) -> Known
    ensures { result ≡ spec.trap_if traps }
{
    if traps { Known::Traps } else { Known::Nothing }
}

/// What is known of a value that becomes one of a whole-number type (C11 6.3.1.3).
pub fn known_as(kind: TypeNo, known: Known) -> Known
    ensures value { result ≡ spec.known_as kind known }
    ensures kept { IsOf kind result }
{
    match known {
        Known::Number(n) => Known::Number(wrapped(kind, n)),
        Known::Traps => Known::Traps,
        Known::Nothing | Known::NullPointer => Known::Nothing,
    }
}

/// The number that an answer stands for.
fn known_answer(kind: WholeType, answer: Result<u64, Trap>) -> Known
    ensures { Tells kind answer result }
{
    law_values();
    match answer {
        Ok(bits) => Known::Number(number_of(kind, bits)),
        Err(_) => Known::Traps,
    }
}

/// What an operator makes of two numbers of a type.
fn outcome(operator: BinaryOperator, kind: WholeType, a: i128, b: i128) -> Known
    requires left { IsNumberOf kind a }
    requires right { IsNumberOf kind b }
    ensures { result ≡ spec.known_outcome (numbers.outcome operator kind a b) }
{
    law_conversion();
    law_values();
    known_answer(
        kind,
        operator.apply(kind, bits_of(kind, a), bits_of(kind, b)),
    )
}

/// What is known of the result of an operator on operands of one type (C11 6.5.5 to 6.5.7, 6.5.10 to 6.5.12).
#[tactic(auto, unfolding(static_rules::specs::Constants::known_binary))]
pub fn known_binary(operator: Operator, kind: TypeNo, a: Known, b: Known) -> Known
    requires left { IsOf kind a }
    requires right { IsOf kind b }
    ensures { result ≡ spec.known_binary operator kind a b }
{
    match (a, b) {
        (Known::Number(a), Known::Number(b)) => outcome(
            number_operator(operator),
            whole_type(kind),
            a,
            b,
        ),
        _ => trap_if(is_constant(a) && is_constant(b)),
    }
}

/// What is known of a comparison of operands of one type (C11 6.5.8, 6.5.9).
#[tactic(auto, unfolding(static_rules::specs::Constants::known_comparison))]
pub fn known_comparison(comparison: Comparison, kind: TypeNo, a: Known, b: Known) -> Known
    requires left { IsOf kind a }
    requires right { IsOf kind b }
    ensures { result ≡ spec.known_comparison comparison kind a b }
{
    match (a, b) {
        (Known::Number(a), Known::Number(b)) => outcome(
            number_comparison(comparison),
            whole_type(kind),
            a,
            b,
        ),
        _ => trap_if(is_constant(a) && is_constant(b)),
    }
}

/// What is known of a shift, whose count has a type of its own (C11 6.5.7).
#[tactic(auto, unfolding(static_rules::specs::Constants::known_binary, whole_numbers::specs::Operators::shifted))]
pub fn known_shift(
    operator: Operator,
    kind: TypeNo,
    count_kind: TypeNo,
    a: Known,
    count: Known,
) -> Known
    requires shift { IsTrue (is_shift operator) }
    requires left { IsOf kind a }
    requires count { IsOf count_kind count }
    ensures { result ≡ spec.known_binary operator kind a count }
{
    match (a, count) {
        (Known::Number(a), Known::Number(count)) => shifted(
            operator,
            whole_type(kind),
            a,
            whole_type(count_kind),
            count,
        ),
        _ => trap_if(is_constant(a) && is_constant(count)),
    }
}

/// What a shift makes of two numbers, each of a type of its own.
fn shifted(
    operator: Operator,
    kind: WholeType,
    a: i128,
    count_kind: WholeType,
    count: i128,
) -> Known
    requires shift { IsTrue (is_shift operator) }
    requires left { IsNumberOf kind a }
    requires count { IsNumberOf count_kind count }
    ensures { result ≡ spec.known_outcome (numbers.outcome (tree.number_operator operator) kind a count) }
{
    law_conversion();
    law_values();
    let left = bits_of(kind, a);
    let right = bits_of(count_kind, count);
    match operator {
        Operator::ShiftLeft => known_answer(kind, shift_left(kind, left, count_kind, right)),
        _ => known_answer(kind, shift_right(kind, left, count_kind, right)),
    }
}

/// What is known of `+`, `-` and `~` before a promoted operand (C11 6.5.3.3).
#[tactic(auto, unfolding(static_rules::specs::Constants::known_unary, whole_numbers::specs::Operators::unary_applied))]
pub fn known_unary(operator: UnaryOperator, kind: TypeNo, a: Known) -> Known
    ensures { result ≡ spec.known_unary operator kind a }
{
    match a {
        Known::Number(n) => {
            law_conversion();
            law_values();
            let kind = whole_type(kind);
            let bits = single_operator(operator).apply(kind, bits_of(kind, n));
            Known::Number(number_of(kind, bits))
        }
        Known::Traps => Known::Traps,
        Known::Nothing | Known::NullPointer => Known::Nothing,
    }
}

// ---- conditions

fn is_true(n: i128) -> bool
    ensures { result ≡ spec.is_true n }
{
    n != 0
}

/// What is known of the answer of a test.
fn known_test(holds: bool) -> Known
    ensures { result ≡ number (numbers.truth holds) }
{
    Known::Number(i128::from(holds))
}

/// What is known of a condition, as 0 or 1.
fn known_truth(known: Known) -> Known
    ensures { result ≡ spec.known_truth known }
{
    match known {
        Known::Number(n) => known_test(is_true(n)),
        Known::Traps => Known::Traps,
        Known::Nothing | Known::NullPointer => Known::Nothing,
    }
}

/// What is known of `!` before an operand (C11 6.5.3.3p5).
#[tactic(auto, unfolding(static_rules::specs::Constants::known_not))]
pub fn known_not(known: Known) -> Known
    ensures { result ≡ spec.known_not known }
{
    match known {
        Known::Number(n) => known_test(!is_true(n)),
        Known::Traps => Known::Traps,
        Known::Nothing | Known::NullPointer => Known::Nothing,
    }
}

/// Whether the left operand alone decides (C11 6.5.13p4, 6.5.14p4).
fn decides(operator: LogicalOperator, n: i128) -> bool
    ensures { result ≡ spec.decides operator n }
{
    match operator {
        LogicalOperator::And => !is_true(n),
        LogicalOperator::Or => is_true(n),
    }
}

/// What is known behind a left operand that is this number.
fn known_right(operator: LogicalOperator, n: i128, right: Known) -> Known
    ensures { result ≡ spec.known_right operator n right }
{
    if decides(operator, n) {
        known_test(is_true(n))
    } else {
        known_truth(right)
    }
}

/// What is known of `&&` and `||`.
#[tactic(auto, unfolding(static_rules::specs::Constants::known_logical))]
pub fn known_logical(operator: LogicalOperator, a: Known, b: Known) -> Known
    ensures { result ≡ spec.known_logical operator a b }
{
    if !is_constant(a) || !is_constant(b) {
        return Known::Nothing;
    }
    match a {
        Known::Number(n) => known_right(operator, n, b),
        _ => a,
    }
}

/// What is known of `?:`, of which one of the last two operands is evaluated (C11 6.5.15p4).
#[tactic(auto, unfolding(static_rules::specs::Constants::known_conditional))]
pub fn known_conditional(test: Known, a: Known, b: Known) -> Known
    ensures { result ≡ spec.known_conditional test a b }
{
    if !is_constant(test) || !is_constant(a) || !is_constant(b) {
        return Known::Nothing;
    }
    match test {
        Known::Number(n) => { if is_true(n) { a } else { b } }
        _ => test,
    }
}
