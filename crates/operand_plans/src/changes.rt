//! Assignments with an operator (C11 6.5.16.2), `++` and `--` (6.5.2.4p1, 6.5.3.1p1).

ghost use Rattle.std.specs.Prelude.{◌≡◌};
ghost use Rattle.static_rules.specs.Changes as spec;

use crate::conversions::to_whole;
use crate::kinds::{is_whole, promoted, sized_target, usual};
use crate::operators::step_of;
use c_tree::Operator;
use c_types::{TypeNo, TypeTable};
use static_rules::{Seen, Stepping, Updating};

/// How a number of a type changes: it is computed in the common type, at a shift in the promoted one.
fn number_updating(operator: Operator, kind: TypeNo, x: Seen) -> Updating
    ensures { result ≡ spec.number_updating operator kind x }
{
    match operator {
        Operator::ShiftLeft | Operator::ShiftRight => {
            Updating::Number(operator, promoted(kind), to_whole(promoted(x.kind), x))
        }
        _ => {
            let computing = usual(kind, x.kind);
            Updating::Number(operator, computing, to_whole(computing, x))
        }
    }
}

/// How an assignment with an operator changes a place of a type: a whole number by another, or a pointer that a whole
/// number moves. Nothing is answered for others.
#[tactic(auto, unfolding(static_rules::specs::Changes::updating_of))]
pub fn updating_of(types: &TypeTable, operator: Operator, kind: TypeNo, x: Seen) -> Option<Updating>
    ensures { result ≡ spec.updating_of types.now operator kind x }
{
    if !is_whole(x.kind) {
        None
    } else if is_whole(kind) {
        Some(number_updating(operator, kind, x))
    } else if sized_target(types, kind).is_some() {
        Some(Updating::Pointer(step_of(operator)?))
    } else {
        None
    }
}

/// What `++` and `--` change in a place of a type: a whole number or a pointer, and nothing else.
#[tactic(auto, unfolding(static_rules::specs::Changes::stepping_of))]
pub fn stepping_of(types: &TypeTable, kind: TypeNo) -> Option<Stepping>
    ensures { result ≡ spec.stepping_of types.now kind }
{
    if is_whole(kind) {
        Some(Stepping::Number(promoted(kind)))
    } else if sized_target(types, kind).is_some() {
        Some(Stepping::Pointer)
    } else {
        None
    }
}
