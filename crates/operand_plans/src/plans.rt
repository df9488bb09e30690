//! What an operator makes of two values (C11 6.5.5 to 6.5.14).

ghost use Rattle.std.specs.Prelude.{◌≡◌, IsTrue};
ghost use Rattle.well_typed.specs.Surroundings.{is_shift};
ghost use Rattle.static_rules.specs.Operands.{some_if};
ghost use Rattle.static_rules.specs.Plans as spec;
ghost use Rattle.static_rules.specs.Sorts.{sort_of};

use crate::constants::{known_as, known_binary, known_comparison, known_logical, known_shift};
use crate::conversions::{is_null, to_whole};
use crate::kinds::{
    INT, LONG, is_scalar, is_void_pointer, is_whole, promoted, sized_target, target, usual,
};
use c_grammar::Binary;
use c_tree::{Comparison, LogicalOperator, Operator};
use c_types::{TypeNo, TypeTable};
use static_rules::{Change, Joint, Known, Plan, Seen};

// ---- whole numbers

fn both_whole(a: Seen, b: Seen) -> bool
    ensures { result ≡ spec.both_whole a b }
{
    is_whole(a.kind) && is_whole(b.kind)
}

/// Operands as ones of their common type (C11 6.3.1.8).
#[tactic(auto, unfolding(static_rules::specs::Plans::computed))]
fn in_common(operator: Operator, a: Seen, b: Seen) -> Plan
    ensures { result ≡ spec.in_common operator a b }
{
    let kind = usual(a.kind, b.kind);
    Plan {
        left: to_whole(kind, a),
        right: to_whole(kind, b),
        joint: Joint::Binary(operator),
        kind,
        known: known_binary(
            operator,
            kind,
            known_as(kind, a.known),
            known_as(kind, b.known),
        ),
    }
}

/// A shift, of which each operand is promoted by itself (C11 6.5.7p3).
#[tactic(auto, unfolding(static_rules::specs::Plans::computed))]
fn shifted(operator: Operator, a: Seen, b: Seen) -> Plan
    requires { IsTrue (is_shift operator) }
    ensures { result ≡ spec.shifted operator a b }
{
    let left = promoted(a.kind);
    let right = promoted(b.kind);
    Plan {
        left: to_whole(left, a),
        right: to_whole(right, b),
        joint: Joint::Binary(operator),
        kind: left,
        known: known_shift(
            operator,
            left,
            right,
            known_as(left, a.known),
            known_as(right, b.known),
        ),
    }
}

#[tactic(auto, unfolding(static_rules::specs::Plans::compared))]
fn compared(comparison: Comparison, kind: TypeNo, a: Seen, b: Seen) -> Plan
    ensures { result ≡ spec.compared comparison kind a b }
{
    Plan {
        left: to_whole(kind, a),
        right: to_whole(kind, b),
        joint: Joint::Compare(comparison),
        kind: INT,
        known: known_comparison(
            comparison,
            kind,
            known_as(kind, a.known),
            known_as(kind, b.known),
        ),
    }
}

// ---- pointers

/// Whether it is a pointer whose target has a size.
fn is_sized(types: &TypeTable, x: Seen) -> bool
    ensures { result ≡ spec.is_sized types.now x }
{
    sized_target(types, x.kind).is_some()
}

fn is_pointer(types: &TypeTable, x: Seen) -> bool
    ensures { result ≡ spec.is_pointer types.now x }
{
    target(types, x.kind).is_some()
}

fn moved(joint: Joint, kind: TypeNo) -> Plan
    ensures { result ≡ spec.moved joint kind }
{
    Plan {
        left: Change::Stay,
        right: Change::Stay,
        joint,
        kind,
        known: Known::Nothing,
    }
}

fn pointers(comparison: Comparison, left: Change, right: Change) -> Plan
    ensures { result ≡ spec.pointers comparison left right }
{
    Plan {
        left,
        right,
        joint: Joint::ComparePointers(comparison),
        kind: INT,
        known: Known::Nothing,
    }
}

/// `+` (C11 6.5.6p2).
#[tactic(auto, unfolding(static_rules::specs::Plans::sum))]
fn sum(types: &TypeTable, a: Seen, b: Seen) -> Option<Plan>
    ensures { result ≡ spec.sum types.now a b }
{
    if both_whole(a, b) {
        Some(in_common(Operator::Add, a, b))
    } else if is_sized(types, a) && is_whole(b.kind) {
        Some(moved(Joint::Advance, a.kind))
    } else if is_whole(a.kind) && is_sized(types, b) {
        Some(moved(Joint::AdvanceFirst, b.kind))
    } else {
        None
    }
}

/// `-` (C11 6.5.6p3).
#[tactic(auto, unfolding(static_rules::specs::Plans::difference))]
fn difference(types: &TypeTable, a: Seen, b: Seen) -> Option<Plan>
    ensures { result ≡ spec.difference types.now a b }
{
    if both_whole(a, b) {
        Some(in_common(Operator::Subtract, a, b))
    } else if is_sized(types, a) && is_whole(b.kind) {
        Some(moved(Joint::Retreat, a.kind))
    } else if is_sized(types, a) && a.kind == b.kind {
        Some(moved(Joint::Difference, LONG))
    } else {
        None
    }
}

/// `==` and `!=` of two pointers, of which one may be a null pointer constant or a `void *` (C11 6.5.9p2).
#[tactic(auto, unfolding(static_rules::specs::Plans::equal_pointers))]
fn equal_pointers(types: &TypeTable, comparison: Comparison, a: Seen, b: Seen) -> Option<Plan>
    ensures { result ≡ spec.equal_pointers types.now comparison a b }
{
    if is_pointer(types, a) && a.kind == b.kind {
        Some(pointers(comparison, Change::Stay, Change::Stay))
    } else if is_pointer(types, a) && is_null(b) {
        Some(pointers(comparison, Change::Stay, Change::Null(a.kind)))
    } else if is_null(a) && is_pointer(types, b) {
        Some(pointers(comparison, Change::Null(b.kind), Change::Stay))
    } else if is_void_pointer(types, a.kind) && is_pointer(types, b) {
        Some(pointers(comparison, Change::Stay, Change::Keep(a.kind)))
    } else if is_pointer(types, a) && is_void_pointer(types, b.kind) {
        Some(pointers(comparison, Change::Keep(b.kind), Change::Stay))
    } else {
        None
    }
}

#[tactic(auto, unfolding(static_rules::specs::Plans::equal))]
fn equal(types: &TypeTable, comparison: Comparison, a: Seen, b: Seen) -> Option<Plan>
    ensures { result ≡ spec.equal types.now comparison a b }
{
    if both_whole(a, b) {
        Some(compared(comparison, usual(a.kind, b.kind), a, b))
    } else {
        equal_pointers(types, comparison, a, b)
    }
}

/// `<`, `>`, `<=` and `>=` (C11 6.5.8p2).
#[tactic(auto, unfolding(static_rules::specs::Plans::ordered))]
fn ordered(types: &TypeTable, comparison: Comparison, a: Seen, b: Seen) -> Option<Plan>
    ensures { result ≡ spec.ordered types.now comparison a b }
{
    if both_whole(a, b) {
        Some(compared(comparison, usual(a.kind, b.kind), a, b))
    } else if is_sized(types, a) && a.kind == b.kind {
        Some(pointers(comparison, Change::Stay, Change::Stay))
    } else {
        None
    }
}

// ---- all operators

fn arithmetic(operator: Operator, a: Seen, b: Seen) -> Option<Plan>
    ensures { result ≡ some_if (spec.both_whole a b) (spec.in_common operator a b) }
{
    if both_whole(a, b) {
        Some(in_common(operator, a, b))
    } else {
        None
    }
}

fn shift(operator: Operator, a: Seen, b: Seen) -> Option<Plan>
    requires { IsTrue (is_shift operator) }
    ensures { result ≡ some_if (spec.both_whole a b) (spec.shifted operator a b) }
{
    if both_whole(a, b) {
        Some(shifted(operator, a, b))
    } else {
        None
    }
}

/// `&&` and `||` of numbers and pointers (C11 6.5.13p2, 6.5.14p2).
#[tactic(auto, unfolding(static_rules::specs::Plans::logical))]
fn logical(types: &TypeTable, operator: LogicalOperator, a: Seen, b: Seen) -> Option<Plan>
    ensures { result ≡ some_if (spec.both_scalar types.now a b) (spec.logical operator a b) }
{
    if !is_scalar(types, a.kind) || !is_scalar(types, b.kind) {
        return None;
    }
    Some(Plan {
        left: Change::Stay,
        right: Change::Stay,
        joint: Joint::Logical(operator),
        kind: INT,
        known: known_logical(operator, a.known, b.known),
    })
}

/// How two values are converted under an operator, and what joins them; nothing where their types are a mismatch.
#[tactic(auto, unfolding(static_rules::specs::Plans::planned))]
pub fn planned(types: &TypeTable, operator: Binary, a: Seen, b: Seen) -> Option<Plan>
    ensures { result ≡ spec.planned types.now (sort_of operator) a b }
{
    match operator {
        Binary::Multiply => arithmetic(Operator::Multiply, a, b),
        Binary::Divide => arithmetic(Operator::Divide, a, b),
        Binary::Remainder => arithmetic(Operator::Remainder, a, b),
        Binary::And => arithmetic(Operator::And, a, b),
        Binary::ExclusiveOr => arithmetic(Operator::ExclusiveOr, a, b),
        Binary::Or => arithmetic(Operator::Or, a, b),
        Binary::Add => sum(types, a, b),
        Binary::Subtract => difference(types, a, b),
        Binary::ShiftLeft => shift(Operator::ShiftLeft, a, b),
        Binary::ShiftRight => shift(Operator::ShiftRight, a, b),
        Binary::Equal => equal(types, Comparison::Equal, a, b),
        Binary::NotEqual => equal(types, Comparison::NotEqual, a, b),
        Binary::Less => ordered(types, Comparison::Less, a, b),
        Binary::Greater => ordered(types, Comparison::Greater, a, b),
        Binary::LessEqual => ordered(types, Comparison::LessEqual, a, b),
        Binary::GreaterEqual => ordered(types, Comparison::GreaterEqual, a, b),
        Binary::LogicalOr => logical(types, LogicalOperator::Or, a, b),
        Binary::LogicalAnd => logical(types, LogicalOperator::And, a, b),
    }
}
