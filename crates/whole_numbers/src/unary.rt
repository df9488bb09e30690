//! The operators of one operand.

ghost use Rattle.std.specs.Prelude.{◌≡◌};
ghost use Rattle.whole_numbers.specs.Types.{IsValue};
ghost use Rattle.whole_numbers.specs.Operators as spec;
ghost use Rattle.whole_numbers.specs.Operators.{unary_answer_type, unary_applied, unary_evaluated};

use crate::arithmetic::{complement, is_zero, negative, truth};
use crate::types::WholeType;
use crate::values::converted;

/// The operators of one operand (C11 6.5.3.3).
#[derive(Clone, Copy, Debug, PartialEq, Eq)]
pub enum UnaryOperator {
    Plus,
    Minus,
    Complement,
    Not,
}

impl UnaryOperator {
    /// The type of its answer on an operand of a type.
    pub fn result_type(self, kind: WholeType) -> WholeType
        ensures { result ≡ spec.unary_result_type self kind }
    {
        match self {
            UnaryOperator::Not => WholeType::INT,
            _ => kind.promoted(),
        }
    }

    /// What it makes of an operand that has been promoted.
    #[tactic(auto, unfolding(crate::specs::Types::converted, crate::specs::Operators::unary_applied, crate::specs::Operators::unary_outcome))]
    pub fn apply(self, kind: WholeType, word: u64) -> u64
        ensures value { result ≡ unary_applied self kind word }
        ensures kept { IsValue (unary_answer_type self kind) result }
    {
        match self {
            UnaryOperator::Plus => converted(kind, kind, word),
            UnaryOperator::Minus => negative(kind, word),
            UnaryOperator::Complement => complement(kind, word),
            UnaryOperator::Not => truth(is_zero(kind, word)),
        }
    }

    /// What it makes of an operand of any type.
    pub fn evaluate(self, kind: WholeType, word: u64) -> u64
        ensures value { result ≡ unary_evaluated self kind word }
        ensures kept { IsValue (spec.unary_result_type self kind) result }
    {
        let promoted = kind.promoted();
        self.apply(promoted, converted(promoted, kind, word))
    }
}
