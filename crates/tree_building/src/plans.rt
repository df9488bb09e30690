//! The node that joins two operands (C11 6.5.5 to 6.5.14).

ghost use Rattle.std.specs.Prelude.{◌≡◌, IfOk};
ghost use Rattle.static_rules.specs.Plans as spec;

use crate::operands::{at, changed_pair};
use c_tree::{At, Value};
use sqlite_items::Boxed;
use static_rules::{Joint, Operand, Plan};
use std::alloc::{AllocError, Global};

fn node(at: At, joint: Joint, left: Boxed<Value>, right: Boxed<Value>) -> Value
    ensures { result ≡ spec.node at joint left right }
{
    match joint {
        Joint::Binary(operator) => Value::Binary(at, operator, left, right),
        Joint::Compare(comparison) => Value::Compare(at, comparison, left, right),
        Joint::ComparePointers(comparison) => Value::ComparePointers(at, comparison, left, right),
        Joint::Advance => Value::Advance(at, left, right),
        Joint::AdvanceFirst => Value::AdvanceFirst(at, left, right),
        Joint::Retreat => Value::Retreat(at, left, right),
        Joint::Difference => Value::Difference(at, left, right),
        Joint::Logical(operator) => Value::Logical(at, operator, left, right),
    }
}

/// What a plan makes of two operands: they are converted, and joined by a node.
#[tactic(auto, unfolding(static_rules::specs::Plans::built))]
pub fn built(
    alloc: Global,
    line: u32,
    plan: Plan,
    x: Operand,
    y: Operand,
) -> Result<Operand, AllocError>
    ensures { IfOk result (λ made. made ≡ spec.built line plan x y) }
{
    let (left, right) = changed_pair(alloc, line, plan.left, plan.right, x, y)?;
    Ok(Operand {
        value: node(at(line, plan.kind), plan.joint, left, right),
        kind: plan.kind,
        known: plan.known,
    })
}
