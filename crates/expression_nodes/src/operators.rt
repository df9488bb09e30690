//! What the marks of operators do.

ghost use Rattle.std.specs.Prelude.{◌≡◌, IsSome, OnSome};
ghost use Rattle.c_grammar.specs.Operators as levels;
ghost use Rattle.grammar_descent.specs.ExpressionSteps as spec;

use crate::levels::{binary_level, tightness};
use c_grammar::{Assignment, Binary, Level, Postfix, Prefix, Selection};
use c_tokens::{Kind, Mark};
use grammar_descent::Growth;

/// The operator before an operand that the mark is, if it is one.
pub fn prefix_of(mark: Mark) -> Option<Prefix>
    ensures { result ≡ spec.prefix_of mark }
{
    match mark {
        Mark::PlusPlus => Some(Prefix::Increment),
        Mark::MinusMinus => Some(Prefix::Decrement),
        Mark::And => Some(Prefix::Address),
        Mark::Star => Some(Prefix::Dereference),
        Mark::Plus => Some(Prefix::Plus),
        Mark::Minus => Some(Prefix::Minus),
        Mark::Tilde => Some(Prefix::Complement),
        Mark::Not => Some(Prefix::Not),
        _ => None,
    }
}

/// How an expression grows before the mark, if it does.
fn growth_by_mark(mark: Mark) -> Option<Growth>
    ensures { result ≡ spec.growth_by_mark mark }
{
    match mark {
        Mark::LeftBracket => Some(Growth::Index),
        Mark::LeftParen => Some(Growth::Call),
        Mark::Dot => Some(Growth::Select(Selection::Direct)),
        Mark::Arrow => Some(Growth::Select(Selection::ThroughPointer)),
        Mark::PlusPlus => Some(Growth::Postfix(Postfix::Increment)),
        Mark::MinusMinus => Some(Growth::Postfix(Postfix::Decrement)),
        Mark::OrOr => Some(Growth::Binary(Binary::LogicalOr)),
        Mark::AndAnd => Some(Growth::Binary(Binary::LogicalAnd)),
        Mark::Or => Some(Growth::Binary(Binary::Or)),
        Mark::Caret => Some(Growth::Binary(Binary::ExclusiveOr)),
        Mark::And => Some(Growth::Binary(Binary::And)),
        Mark::EqualEqual => Some(Growth::Binary(Binary::Equal)),
        Mark::NotEqual => Some(Growth::Binary(Binary::NotEqual)),
        Mark::Less => Some(Growth::Binary(Binary::Less)),
        Mark::Greater => Some(Growth::Binary(Binary::Greater)),
        Mark::LessEqual => Some(Growth::Binary(Binary::LessEqual)),
        Mark::GreaterEqual => Some(Growth::Binary(Binary::GreaterEqual)),
        Mark::ShiftLeft => Some(Growth::Binary(Binary::ShiftLeft)),
        Mark::ShiftRight => Some(Growth::Binary(Binary::ShiftRight)),
        Mark::Plus => Some(Growth::Binary(Binary::Add)),
        Mark::Minus => Some(Growth::Binary(Binary::Subtract)),
        Mark::Star => Some(Growth::Binary(Binary::Multiply)),
        Mark::Slash => Some(Growth::Binary(Binary::Divide)),
        Mark::Percent => Some(Growth::Binary(Binary::Remainder)),
        Mark::Question => Some(Growth::Conditional),
        Mark::Equal => Some(Growth::Assign(Assignment::Plain)),
        Mark::StarEqual => Some(Growth::Assign(Assignment::Multiply)),
        Mark::SlashEqual => Some(Growth::Assign(Assignment::Divide)),
        Mark::PercentEqual => Some(Growth::Assign(Assignment::Remainder)),
        Mark::PlusEqual => Some(Growth::Assign(Assignment::Add)),
        Mark::MinusEqual => Some(Growth::Assign(Assignment::Subtract)),
        Mark::ShiftLeftEqual => Some(Growth::Assign(Assignment::ShiftLeft)),
        Mark::ShiftRightEqual => Some(Growth::Assign(Assignment::ShiftRight)),
        Mark::AndEqual => Some(Growth::Assign(Assignment::And)),
        Mark::CaretEqual => Some(Growth::Assign(Assignment::ExclusiveOr)),
        Mark::OrEqual => Some(Growth::Assign(Assignment::Or)),
        Mark::Comma => Some(Growth::Comma),
        _ => None,
    }
}

fn growth_by(kind: Option<Kind>) -> Option<Growth>
    ensures value { result ≡ spec.growth_by kind }
    ensures some { OnSome result (IsSome kind) }
{
    match kind {
        Some(Kind::Mark(mark)) => growth_by_mark(mark),
        _ => None,
    }
}

/// The level of what it makes.
pub fn growth_level(by: Growth) -> Level
    ensures { levels.tightness result ≡ spec.growth_level by }
{
    match by {
        Growth::Index | Growth::Call | Growth::Select(_) | Growth::Postfix(_) => Level::Postfix,
        Growth::Binary(op) => binary_level(op),
        Growth::Conditional => Level::Conditional,
        Growth::Assign(_) => Level::Assignment,
        Growth::Comma => Level::Comma,
    }
}

/// The loosest level of what grows so.
fn least_operand(by: Growth) -> Level
    ensures { levels.tightness result ≡ spec.least_operand by }
{
    match by {
        Growth::Index | Growth::Call | Growth::Select(_) | Growth::Postfix(_) => Level::Postfix,
        Growth::Binary(op) => binary_level(op),
        Growth::Conditional => Level::LogicalOr,
        Growth::Assign(_) => Level::Unary,
        Growth::Comma => Level::Assignment,
    }
}

/// How an expression of the level grows before a token of the kind, where one of the level `least` or a tighter one is read.
pub fn growth(kind: Option<Kind>, least: Level, level: Level) -> Option<Growth>
    ensures value { result ≡ spec.growth_within (levels.tightness least) (levels.tightness level) (spec.growth_by kind) }
    ensures some { OnSome result (IsSome kind) }
{
    match growth_by(kind) {
        Some(by)
            if tightness(least) <= tightness(growth_level(by))
                && tightness(least_operand(by)) <= tightness(level) => { Some(by) }
        _ => None,
    }
}
