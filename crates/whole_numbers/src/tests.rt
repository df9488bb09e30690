//! Numbers of every type under every operator.

use crate::mixed_tables::{CONVERSIONS, MIXED, Mixed, Single, UNARY};
use crate::plain_tables::{PLAIN, Paired, Plain, QUOTIENTS, SHIFTS};
use crate::{
    BinaryOperator, Trap, WholeType, Width, bits_of, common, converted, number_of, shift_left,
    shift_right,
};
use std::cmp::Ordering;
use std::test::Fail;

/// The number of an answer.
fn number_in(kind: WholeType, answer: Result<u64, Trap>) -> Result<i128, Trap> {
    match answer {
        Ok(word) => Ok(number_of(kind, word)),
        Err(trap) => Err(trap),
    }
}

/// Whether an operator answers a number on two numbers of one type.
fn answers(operator: BinaryOperator, kind: WholeType, numbers: (i128, i128), want: i128) -> bool {
    let left = bits_of(kind, numbers.0);
    let right = bits_of(kind, numbers.1);
    number_in(kind, operator.apply(kind, left, right)) == Ok(want)
}

/// What the comparisons answer: `<`, `>`, `<=`, `>=`, `==` and `!=`.
fn comparisons(order: Ordering) -> [i128; 6] {
    match order {
        Ordering::Less => [1, 0, 1, 0, 0, 1],
        Ordering::Equal => [0, 0, 1, 1, 1, 0],
        Ordering::Greater => [0, 1, 0, 1, 0, 1],
    }
}

fn compares(kind: WholeType, numbers: (i128, i128), order: Ordering) -> bool {
    let [less, greater, less_equal, greater_equal, equal, not_equal] = comparisons(order);
    answers(BinaryOperator::Less, kind, numbers, less)
        && answers(BinaryOperator::Greater, kind, numbers, greater)
        && answers(BinaryOperator::LessEqual, kind, numbers, less_equal)
        && answers(BinaryOperator::GreaterEqual, kind, numbers, greater_equal)
        && answers(BinaryOperator::Equal, kind, numbers, equal)
        && answers(BinaryOperator::NotEqual, kind, numbers, not_equal)
}

fn is_plain(row: &Plain) -> bool {
    let (kind, left, right, product, sum, difference, order, both, one, either) = *row;
    let numbers = (left, right);
    answers(BinaryOperator::Multiply, kind, numbers, product)
        && answers(BinaryOperator::Add, kind, numbers, sum)
        && answers(BinaryOperator::Subtract, kind, numbers, difference)
        && compares(kind, numbers, order)
        && answers(BinaryOperator::And, kind, numbers, both)
        && answers(BinaryOperator::ExclusiveOr, kind, numbers, one)
        && answers(BinaryOperator::Or, kind, numbers, either)
}

/// Whether two answers are the two numbers of a row, or both its trap.
fn are(row: &Paired, first: Result<u64, Trap>, second: Result<u64, Trap>) -> bool {
    let first = number_in(row.0, first);
    let second = number_in(row.0, second);
    match row.3 {
        Ok((left, right)) => first == Ok(left) && second == Ok(right),
        Err(trap) => first == Err(trap) && second == Err(trap),
    }
}

fn is_quotient(row: &Paired) -> bool {
    let kind = row.0;
    let left = bits_of(kind, row.1);
    let right = bits_of(kind, row.2);
    let quotient = BinaryOperator::Divide.apply(kind, left, right);
    are(
        row,
        quotient,
        BinaryOperator::Remainder.apply(kind, left, right),
    )
}

fn is_shift(row: &Paired) -> bool {
    let kind = row.0;
    let word = bits_of(kind, row.1);
    let count = bits_of(WholeType::LONG, row.2);
    let left = shift_left(kind, word, WholeType::LONG, count);
    are(row, left, shift_right(kind, word, WholeType::LONG, count))
}

fn is_mixed(row: &Mixed) -> bool {
    let (operator, left_kind, left, right_kind, right, kind, want) = *row;
    let left = bits_of(left_kind, left);
    let right = bits_of(right_kind, right);
    operator.result_type(left_kind, right_kind) == kind
        && number_in(kind, operator.evaluate(left_kind, left, right_kind, right)) == want
}

fn is_unary(row: &Single) -> bool {
    let (operator, kind, number, answer, want) = *row;
    operator.result_type(kind) == answer
        && number_of(answer, operator.evaluate(kind, bits_of(kind, number))) == want
}

#[test]
fn operators_answer_as_gcc_does_and_trap_where_c_has_no_value(rt: HostRuntime) -> Result<(), Fail> {
    for row in &PLAIN {
        assert!(rt; is_plain(row), "{row:?}");
    }
    for row in &QUOTIENTS {
        assert!(rt; is_quotient(row), "{row:?}");
    }
    for row in &SHIFTS {
        assert!(rt; is_shift(row), "{row:?}");
    }
    for row in &MIXED {
        assert!(rt; is_mixed(row), "{row:?}");
    }
    for row in &UNARY {
        assert!(rt; is_unary(row), "{row:?}");
    }
    Ok(())
}

/// Types with their promoted types.
static PROMOTED: [(WholeType, WholeType); 8] = [
    (WholeType::CHAR, WholeType::INT),
    (WholeType::UNSIGNED_CHAR, WholeType::INT),
    (WholeType::SHORT, WholeType::INT),
    (WholeType::UNSIGNED_SHORT, WholeType::INT),
    (WholeType::INT, WholeType::INT),
    (WholeType::UNSIGNED_INT, WholeType::UNSIGNED_INT),
    (WholeType::LONG, WholeType::LONG),
    (WholeType::UNSIGNED_LONG, WholeType::UNSIGNED_LONG),
];

/// Two types with their common type.
static COMMON: [(WholeType, WholeType, WholeType); 7] = [
    (WholeType::CHAR, WholeType::UNSIGNED_SHORT, WholeType::INT),
    (
        WholeType::INT,
        WholeType::UNSIGNED_INT,
        WholeType::UNSIGNED_INT,
    ),
    (WholeType::LONG, WholeType::UNSIGNED_INT, WholeType::LONG),
    (WholeType::LONG, WholeType::INT, WholeType::LONG),
    (
        WholeType::UNSIGNED_LONG,
        WholeType::INT,
        WholeType::UNSIGNED_LONG,
    ),
    (
        WholeType::UNSIGNED_LONG,
        WholeType::LONG,
        WholeType::UNSIGNED_LONG,
    ),
    (
        WholeType::UNSIGNED_CHAR,
        WholeType::UNSIGNED_INT,
        WholeType::UNSIGNED_INT,
    ),
];

#[test]
fn values_keep_their_bits_and_types_are_those_of_c(rt: HostRuntime) -> Result<(), Fail> {
    for (kind, promoted) in &PROMOTED {
        assert!(rt; kind.promoted() == *promoted);
    }
    for (left, right, both) in &COMMON {
        assert!(rt; common(*left, *right) == *both && common(*right, *left) == *both);
    }
    for (from, word, to, want) in &CONVERSIONS {
        assert!(rt; converted(*to, *from, *word) == *want, "{word} to {to:?}");
    }
    assert_eq!(rt; Width::Two.bits(), 16);
    assert_eq!(rt;
        number_of(WholeType::UNSIGNED_LONG, u64::MAX),
        18_446_744_073_709_551_615
    );
    assert_eq!(rt; number_of(WholeType::LONG, u64::MAX), -1);
    assert_eq!(rt; bits_of(WholeType::CHAR, -1), u64::MAX);
    assert_eq!(rt; bits_of(WholeType::UNSIGNED_CHAR, -1), 0xff);
    Ok(())
}
