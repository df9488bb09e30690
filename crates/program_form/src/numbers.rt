//! Expressions of type `int`.

ghost use Rattle.std.specs.Prelude.{◌≡◌, IfOk};
ghost use Rattle.program_form.specs.Answers.{Gives};
ghost use Rattle.program_form.specs.Numbers as spec;

use crate::error::Unfit;
use c_grammar::{Binary, Expression as Syntax};
use c_tokens::NumType;
use form_parts::{Scope, pointer};
use plain_meaning::{Expression, Operator, Pointer};
use sqlite_items::Boxed;
use std::alloc::{AllocError, Global};
use token_texts::TokenTexts;

fn operator(operation: Binary) -> Option<Operator>
    ensures { result ≡ spec.operator operation }
{
    match operation {
        Binary::Multiply => Some(Operator::Multiply),
        Binary::Add => Some(Operator::Add),
        Binary::Subtract => Some(Operator::Subtract),
        Binary::Less => Some(Operator::Less),
        Binary::LessEqual => Some(Operator::LessEqual),
        Binary::Equal => Some(Operator::Equal),
        _ => None,
    }
}

/// A constant of type `int`.
fn constant(value: u64, number_type: NumType) -> Option<i32>
    ensures { result ≡ spec.constant value number_type }
{
    match number_type {
        NumType::Int if value < 1 << 31 => Some(value as i32),
        _ => None,
    }
}

fn binary(
    alloc: Global,
    operator: Operator,
    left: Expression,
    right: Expression,
) -> Result<Expression, AllocError>
    ensures { IfOk result (λ made. made ≡ Expression.Binary operator left right) }
{
    Ok(Expression::Binary(
        operator,
        Boxed::new(alloc, left)?,
        Boxed::new(alloc, right)?,
    ))
}

fn element(alloc: Global, pointer: Pointer, index: Expression) -> Result<Expression, AllocError>
    ensures { IfOk result (λ made. made ≡ Expression.Element pointer index) }
{
    Ok(Expression::Element(pointer, Boxed::new(alloc, index)?))
}

/// An expression of type `int`, nested no deeper than `depth`.
#[cycle(number)]
pub fn number(
    alloc: Global,
    texts: &TokenTexts,
    scope: &Scope,
    depth: u32,
    syntax: &Syntax,
) -> Result<Expression, Unfit>
    ensures { Gives result (spec.number texts.now depth scope.now syntax.now) }
{
    if depth == 0 {
        return Err(Unfit::Outside);
    }
    number_by(alloc, texts, scope, depth - 1, syntax)
}

/// An expression of type `int` whose parts nest no deeper than `depth`.
#[cycle(number)]
#[tactic(auto, unfolding(crate::specs::Numbers::number_by))]
fn number_by(
    alloc: Global,
    texts: &TokenTexts,
    scope: &Scope,
    depth: u32,
    syntax: &Syntax,
) -> Result<Expression, Unfit>
    ensures { Gives result (spec.number_by texts.now (spec.number texts.now depth scope.now) scope.now syntax.now) }
{
    match syntax {
        Syntax::Name(place) => match scope.number(texts.number(place.token)) {
            Some(variable) => Ok(Expression::Variable(variable)),
            None => Err(Unfit::Outside),
        },
        Syntax::Number(_, value, number_type) => match constant(*value, *number_type) {
            Some(value) => Ok(Expression::Number(value)),
            None => Err(Unfit::Outside),
        },
        Syntax::Parentheses(_, inner) => number(alloc, texts, scope, depth, inner.get()),
        Syntax::Binary(_, operation, left, right) => {
            let Some(operator) = operator(*operation) else {
                return Err(Unfit::Outside);
            };
            let left = number(alloc, texts, scope, depth, left.get())?;
            let right = number(alloc, texts, scope, depth, right.get())?;
            Ok(binary(alloc, operator, left, right)?)
        }
        Syntax::Index(_, array, index) => {
            let Some(pointer) = pointer(texts, scope, array.get()) else {
                return Err(Unfit::Outside);
            };
            let index = number(alloc, texts, scope, depth, index.get())?;
            Ok(element(alloc, pointer, index)?)
        }
        _ => Err(Unfit::Outside),
    }
}
