//! What holds of types, values and conversions and quotients.

ghost use Rattle.whole_numbers.specs.Laws.{ConversionLaw, DivisionLaw, TypesLaw, ValuesLaw};

/// What conversion to a type makes of a number (C11 6.3.1.3).
pub fn law_conversion()
    ensures { ConversionLaw }
{}

/// Numbers of a type and their bits stand for each other.
pub fn law_values()
    ensures { ValuesLaw }
{}

/// Promotion keeps each number, and the common type is the same for operands turned round.
pub fn law_types()
    ensures { TypesLaw }
{}

/// A quotient and a remainder are those that the type has, and nothing where it lacks the quotient (C11 6.5.5p6).
pub fn law_division()
    ensures { DivisionLaw }
{}
