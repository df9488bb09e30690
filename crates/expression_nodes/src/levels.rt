//! How tightly operators bind (C11 6.5).

ghost use Rattle.std.specs.Prelude.{◌≡◌, ◌+◌, ◌≤◌};
ghost use Rattle.c_grammar.specs.Operators as levels;

use c_grammar::{Binary, Level, Prefix};

/// How tightly an expression of the level binds: 0 for the loosest, `Comma`, up to 16 for `Primary`.
pub fn tightness(level: Level) -> u8
    ensures value { result ≡ levels.tightness level }
    ensures small { result ≤ 16 }
{
    level as u8
}

/// The level of the operand after the operator.
pub fn operand_level(op: Prefix) -> Level
    ensures { result ≡ levels.operand_level op }
{
    match op {
        Prefix::Increment | Prefix::Decrement => Level::Unary,
        _ => Level::Cast,
    }
}

/// The level of what the operator makes of its two operands, which is that of its left operand.
pub fn binary_level(op: Binary) -> Level
    ensures { result ≡ levels.binary_level op }
{
    match op {
        Binary::LogicalOr => Level::LogicalOr,
        Binary::LogicalAnd => Level::LogicalAnd,
        Binary::Or => Level::Or,
        Binary::ExclusiveOr => Level::ExclusiveOr,
        Binary::And => Level::And,
        Binary::Equal | Binary::NotEqual => Level::Equality,
        Binary::Less | Binary::Greater | Binary::LessEqual | Binary::GreaterEqual => {
            Level::Relational
        }
        Binary::ShiftLeft | Binary::ShiftRight => Level::Shift,
        Binary::Add | Binary::Subtract => Level::Additive,
        Binary::Multiply | Binary::Divide | Binary::Remainder => Level::Multiplicative,
    }
}

/// The level of its right operand, the next tighter one, since operators of one level group to the left.
pub fn right_operand_level(op: Binary) -> Level
    ensures { levels.tightness result ≡ levels.rank op + 1 }
{
    match op {
        Binary::LogicalOr => Level::LogicalAnd,
        Binary::LogicalAnd => Level::Or,
        Binary::Or => Level::ExclusiveOr,
        Binary::ExclusiveOr => Level::And,
        Binary::And => Level::Equality,
        Binary::Equal | Binary::NotEqual => Level::Relational,
        Binary::Less | Binary::Greater | Binary::LessEqual | Binary::GreaterEqual => Level::Shift,
        Binary::ShiftLeft | Binary::ShiftRight => Level::Additive,
        Binary::Add | Binary::Subtract => Level::Multiplicative,
        Binary::Multiply | Binary::Divide | Binary::Remainder => Level::Cast,
    }
}
