//! The operators of two operands, and the types of their answers.

ghost use Rattle.std.specs.Prelude.{◌≡◌, IfOk};
ghost use Rattle.whole_numbers.specs.Types.{IsValue};
ghost use Rattle.whole_numbers.specs.Operators as spec;
ghost use Rattle.whole_numbers.specs.Operators.{answer_type, applied, evaluated};

use crate::arithmetic::{
    bits_of_both, bits_of_either, bits_of_one, difference, is_equal, is_less, product, sum, truth,
};
use crate::division::{quotient, remainder};
use crate::shifts::{shift_left, shift_right};
use crate::trap::Trap;
use crate::types::{WholeType, common};
use crate::values::converted;

/// The operators of two operands (C11 6.5.5 to 6.5.12).
#[derive(Clone, Copy, Debug, PartialEq, Eq)]
pub enum BinaryOperator {
    Multiply,
    Divide,
    Remainder,
    Add,
    Subtract,
    ShiftLeft,
    ShiftRight,
    Less,
    Greater,
    LessEqual,
    GreaterEqual,
    Equal,
    NotEqual,
    And,
    ExclusiveOr,
    Or,
}

impl BinaryOperator {
    /// Whether it answers 0 or 1.
    fn compares(self) -> bool
        ensures { result ≡ spec.compares self }
    {
        match self {
            BinaryOperator::Less
            | BinaryOperator::Greater
            | BinaryOperator::LessEqual
            | BinaryOperator::GreaterEqual
            | BinaryOperator::Equal
            | BinaryOperator::NotEqual => true,
            _ => false,
        }
    }

    /// The type in which it works on operands of two types: to which they are converted, a shift's count apart.
    pub fn working_type(self, left: WholeType, right: WholeType) -> WholeType
        ensures { result ≡ spec.working_type self left right }
    {
        match self {
            BinaryOperator::ShiftLeft | BinaryOperator::ShiftRight => left.promoted(),
            _ => common(left, right),
        }
    }

    /// The type of its answer on operands of two types.
    pub fn result_type(self, left: WholeType, right: WholeType) -> WholeType
        ensures { result ≡ spec.result_type self left right }
    {
        if self.compares() {
            WholeType::INT
        } else {
            self.working_type(left, right)
        }
    }

    /// What it makes of two operands that have been converted to one type.
    #[tactic(auto, unfolding(crate::specs::Operators::applied, crate::specs::Operators::shifted, crate::specs::Operators::outcome))]
    pub fn apply(self, kind: WholeType, left: u64, right: u64) -> Result<u64, Trap>
        ensures value { result ≡ applied self kind left right }
        ensures kept { IfOk result (IsValue (answer_type self kind)) }
    {
        match self {
            BinaryOperator::Multiply => Ok(product(kind, left, right)),
            BinaryOperator::Divide => quotient(kind, left, right),
            BinaryOperator::Remainder => remainder(kind, left, right),
            BinaryOperator::Add => Ok(sum(kind, left, right)),
            BinaryOperator::Subtract => Ok(difference(kind, left, right)),
            BinaryOperator::ShiftLeft => shift_left(kind, left, kind, right),
            BinaryOperator::ShiftRight => shift_right(kind, left, kind, right),
            BinaryOperator::Less => Ok(truth(is_less(kind, left, right))),
            BinaryOperator::Greater => Ok(truth(is_less(kind, right, left))),
            BinaryOperator::LessEqual => Ok(truth(!is_less(kind, right, left))),
            BinaryOperator::GreaterEqual => Ok(truth(!is_less(kind, left, right))),
            BinaryOperator::Equal => Ok(truth(is_equal(kind, left, right))),
            BinaryOperator::NotEqual => Ok(truth(!is_equal(kind, left, right))),
            BinaryOperator::And => Ok(bits_of_both(kind, left, right)),
            BinaryOperator::ExclusiveOr => Ok(bits_of_one(kind, left, right)),
            BinaryOperator::Or => Ok(bits_of_either(kind, left, right)),
        }
    }

    /// What it makes of two operands, each of a type of its own.
    pub fn evaluate(
        self,
        left_kind: WholeType,
        left: u64,
        right_kind: WholeType,
        right: u64,
    ) -> Result<u64, Trap>
        ensures value { result ≡ evaluated self left_kind left right_kind right }
        ensures kept { IfOk result (IsValue (spec.result_type self left_kind right_kind)) }
    {
        let kind = self.working_type(left_kind, right_kind);
        let left = converted(kind, left_kind, left);
        match self {
            BinaryOperator::ShiftLeft => shift_left(kind, left, right_kind, right),
            BinaryOperator::ShiftRight => shift_right(kind, left, right_kind, right),
            _ => {
                let right = converted(kind, right_kind, right);
                self.apply(kind, left, right)
            }
        }
    }
}
