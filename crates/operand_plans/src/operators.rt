//! The operators of assignments (C11 6.5.16.2).

ghost use Rattle.std.specs.Prelude.{◌≡◌};
ghost use Rattle.static_rules.specs.Sorts as spec;

use c_grammar::Assignment;
use c_tree::{Operator, Step};

/// The operator of an assignment, none for `=`.
pub fn operator_of(assignment: Assignment) -> Option<Operator>
    ensures { result ≡ spec.operator_of assignment }
{
    match assignment {
        Assignment::Plain => None,
        Assignment::Multiply => Some(Operator::Multiply),
        Assignment::Divide => Some(Operator::Divide),
        Assignment::Remainder => Some(Operator::Remainder),
        Assignment::Add => Some(Operator::Add),
        Assignment::Subtract => Some(Operator::Subtract),
        Assignment::ShiftLeft => Some(Operator::ShiftLeft),
        Assignment::ShiftRight => Some(Operator::ShiftRight),
        Assignment::And => Some(Operator::And),
        Assignment::ExclusiveOr => Some(Operator::ExclusiveOr),
        Assignment::Or => Some(Operator::Or),
    }
}

/// The way that a sum or a difference moves a pointer.
pub fn step_of(operator: Operator) -> Option<Step>
    ensures { result ≡ spec.step_of operator }
{
    match operator {
        Operator::Add => Some(Step::Increment),
        Operator::Subtract => Some(Step::Decrement),
        _ => None,
    }
}
