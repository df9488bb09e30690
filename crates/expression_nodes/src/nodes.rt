//! Nodes of expressions from their parts.

ghost use Rattle.std.specs.Prelude.{◌≡◌, IfOk};

use c_grammar::{Expression, Place, Prefix, TypePhrase};
use sqlite_items::Boxed;
use std::alloc::{AllocError, Global};

/// `(inner)`
pub fn parentheses(alloc: Global, place: Place, inner: Expression) -> Result<Expression, AllocError>
    ensures { IfOk result (λ e. e ≡ Expression.Parentheses place inner) }
{
    Ok(Expression::Parentheses(place, Boxed::new(alloc, inner)?))
}

/// An operator before its operand.
pub fn prefix(
    alloc: Global,
    place: Place,
    op: Prefix,
    operand: Expression,
) -> Result<Expression, AllocError>
    ensures { IfOk result (λ e. e ≡ Expression.Prefix place op operand) }
{
    Ok(Expression::Prefix(place, op, Boxed::new(alloc, operand)?))
}

/// `sizeof operand`
pub fn size_of(alloc: Global, place: Place, operand: Expression) -> Result<Expression, AllocError>
    ensures { IfOk result (λ e. e ≡ Expression.SizeOf place operand) }
{
    Ok(Expression::SizeOf(place, Boxed::new(alloc, operand)?))
}

/// `sizeof (of)`
pub fn size_of_type(alloc: Global, place: Place, of: TypePhrase) -> Result<Expression, AllocError>
    ensures { IfOk result (λ e. e ≡ Expression.SizeOfType place of) }
{
    Ok(Expression::SizeOfType(place, Boxed::new(alloc, of)?))
}

/// `(to)operand`
pub fn cast(
    alloc: Global,
    place: Place,
    to: TypePhrase,
    operand: Expression,
) -> Result<Expression, AllocError>
    ensures { IfOk result (λ e. e ≡ Expression.Cast place to operand) }
{
    Ok(Expression::Cast(place, Boxed::new(alloc, to)?, Boxed::new(alloc, operand)?))
}
