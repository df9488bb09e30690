//! What holds of the operands that rules answer.

ghost use Rattle.expression_laws.specs.Laws.{BinaryLaw, ConvertedLaw, NotLaw, UnaryLaw};

use whole_numbers::law_conversion;

/// What the rules of operators and of conversions make of operands that fit surroundings fits them too, in each
/// surroundings whose types have grown from those of the rule (C11 6.3, 6.5.3.3, 6.5.5 to 6.5.14, 6.5.16.1).
pub fn law_operators()
    ensures binary { BinaryLaw }
    ensures unary { UnaryLaw }
    ensures negation { NotLaw }
    ensures converted { ConvertedLaw }
{
    law_conversion();
}
