//! `?:` (C11 6.5.15).

ghost use Rattle.std.specs.Prelude.{◌≡◌};
ghost use Rattle.static_rules.specs.Operators as spec;

use crate::constants::{known_as, known_conditional};
use crate::conversions::{conversion, is_null};
use crate::kinds::{VOID, is_aggregate, is_scalar, is_void_pointer, is_whole, target, usual};
use c_types::{TypeNo, TypeTable};
use static_rules::{Change, CheckKind, Choice, Feature, Known, Seen};

/// The type to which both operands are converted (C11 6.5.15p5 and p6).
#[tactic(auto, unfolding(static_rules::specs::Operators::common))]
fn common(types: &TypeTable, a: Seen, b: Seen) -> Option<TypeNo>
    ensures { result ≡ spec.common types.now a b }
{
    let left_points = target(types, a.kind).is_some();
    let right_points = target(types, b.kind).is_some();
    if is_whole(a.kind) && is_whole(b.kind) {
        Some(usual(a.kind, b.kind))
    } else if a.kind == b.kind && (a.kind == VOID || left_points) {
        Some(a.kind)
    } else if left_points && is_null(b) {
        Some(a.kind)
    } else if is_null(a) && right_points {
        Some(b.kind)
    } else if is_void_pointer(types, a.kind) && right_points {
        Some(a.kind)
    } else if left_points && is_void_pointer(types, b.kind) {
        Some(b.kind)
    } else {
        None
    }
}

/// How an operand becomes one of the type.
fn to_common(types: &TypeTable, kind: TypeNo, x: Seen) -> Option<Change>
    ensures { result ≡ spec.to_common types.now kind x }
{
    if x.kind == kind {
        Some(Change::Stay)
    } else {
        conversion(types, kind, x)
    }
}

/// What is known of a converted operand.
fn known_changed(how: Change, x: Seen) -> Known
    ensures { result ≡ spec.known_changed how x }
{
    match how {
        Change::Whole(kind) => known_as(kind, x.known),
        Change::Stay => x.known,
        Change::Null(_) | Change::Keep(_) | Change::Check(_) | Change::Allocate(_, _) =>
            Known::Nothing,
    }
}

fn choice_of(types: &TypeTable, test: Known, a: Seen, b: Seen) -> Option<Choice>
    ensures { result ≡ spec.choice_by types.now test a b (spec.common types.now a b) }
{
    let kind = common(types, a, b)?;
    let left = to_common(types, kind, a)?;
    let right = to_common(types, kind, b)?;
    Some(Choice {
        kind,
        left,
        right,
        known: known_conditional(test, known_changed(left, a), known_changed(right, b)),
    })
}

/// The type of `?:` and how its last two operands are converted. Else it is why there is none: a struct or union among
/// these is left out.
#[tactic(auto, unfolding(static_rules::specs::Operators::planned_choice))]
pub fn planned_choice(types: &TypeTable, test: Seen, a: Seen, b: Seen) -> Result<Choice, CheckKind>
    ensures { result ≡ spec.planned_choice types.now test a b }
{
    if !is_scalar(types, test.kind) {
        return Err(CheckKind::TypeMismatch);
    }
    if is_aggregate(types, a.kind) || is_aggregate(types, b.kind) {
        return Err(CheckKind::LeftOut(Feature::StructValue));
    }
    match choice_of(types, test.known, a, b) {
        Some(choice) => Ok(choice),
        None => Err(CheckKind::TypeMismatch),
    }
}
