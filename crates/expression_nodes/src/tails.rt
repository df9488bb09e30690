//! What stands after an operand and makes a larger expression of it (C11 6.5.2 and 6.5.5 to 6.5.17).

ghost use Rattle.std.specs.Prelude.{◌≡◌, ◌∷◌, IfOk};
ghost use Rattle.expression_nodes.specs.Tails.{joined};

use c_grammar::{Assignment, Binary, Expression, Place, Postfix, Selection};
use sqlite_items::{Boxed, Items};
use std::alloc::{AllocError, Global};

/// All of a larger expression but its first operand.
#[derive(Debug, Drop)]
pub enum Tail {
    /// `[index]`
    Index(Expression),
    /// `(arguments)`
    Call(Items<Expression>),
    /// `.name` or `->name`, with the number of the name's token.
    Select(Selection, u32),
    /// `++` or `--`
    Postfix(Postfix),
    /// An operator, and its right operand.
    Binary(Binary, Expression),
    /// `? then : otherwise`
    Conditional(Expression, Expression),
    /// `=`, or an operator with it, and the value.
    Assign(Assignment, Expression),
    /// `, second, ..`
    Comma(Items<Expression>),
}

fn index(
    alloc: Global,
    place: Place,
    array: Expression,
    index: Expression,
) -> Result<Expression, AllocError>
    ensures { IfOk result (λ e. e ≡ Expression.Index place array index) }
{
    Ok(Expression::Index(place, Boxed::new(alloc, array)?, Boxed::new(alloc, index)?))
}

fn call(
    alloc: Global,
    place: Place,
    function: Expression,
    arguments: Items<Expression>,
) -> Result<Expression, AllocError>
    ensures { IfOk result (λ e. e ≡ Expression.Call place function arguments) }
{
    Ok(Expression::Call(place, Boxed::new(alloc, function)?, arguments))
}

fn select(
    alloc: Global,
    place: Place,
    how: Selection,
    operand: Expression,
    member: u32,
) -> Result<Expression, AllocError>
    ensures { IfOk result (λ e. e ≡ Expression.Select place how operand member) }
{
    Ok(Expression::Select(place, how, Boxed::new(alloc, operand)?, member))
}

fn postfix(
    alloc: Global,
    place: Place,
    op: Postfix,
    operand: Expression,
) -> Result<Expression, AllocError>
    ensures { IfOk result (λ e. e ≡ Expression.Postfix place op operand) }
{
    Ok(Expression::Postfix(place, op, Boxed::new(alloc, operand)?))
}

fn binary(
    alloc: Global,
    place: Place,
    op: Binary,
    left: Expression,
    right: Expression,
) -> Result<Expression, AllocError>
    ensures { IfOk result (λ e. e ≡ Expression.Binary place op left right) }
{
    Ok(Expression::Binary(
        place,
        op,
        Boxed::new(alloc, left)?,
        Boxed::new(alloc, right)?,
    ))
}

fn conditional(
    alloc: Global,
    place: Place,
    test: Expression,
    then: Expression,
    otherwise: Expression,
) -> Result<Expression, AllocError>
    ensures { IfOk result (λ e. e ≡ Expression.Conditional place test then otherwise) }
{
    Ok(Expression::Conditional(
        place,
        Boxed::new(alloc, test)?,
        Boxed::new(alloc, then)?,
        Boxed::new(alloc, otherwise)?,
    ))
}

fn assign(
    alloc: Global,
    place: Place,
    op: Assignment,
    left: Expression,
    right: Expression,
) -> Result<Expression, AllocError>
    ensures { IfOk result (λ e. e ≡ Expression.Assign place op left right) }
{
    Ok(Expression::Assign(
        place,
        op,
        Boxed::new(alloc, left)?,
        Boxed::new(alloc, right)?,
    ))
}

/// `first, rest`
fn comma(
    alloc: Global,
    place: Place,
    first: Expression,
    rest: Items<Expression>,
) -> Result<Expression, AllocError>
    ensures { IfOk result (λ e. e ≡ Expression.Comma place (first ∷ rest)) }
{
    let mut parts = Items::new(alloc);
    parts.push(first)?;
    parts.append(rest)?;
    Ok(Expression::Comma(place, parts))
}

/// The node of the larger expression, whose first operand is `left`.
pub fn join(
    alloc: Global,
    place: Place,
    left: Expression,
    tail: Tail,
) -> Result<Expression, AllocError>
    ensures { IfOk result (λ e. e ≡ joined place left tail) }
{
    match tail {
        Tail::Index(at) => index(alloc, place, left, at),
        Tail::Call(arguments) => call(alloc, place, left, arguments),
        Tail::Select(how, member) => select(alloc, place, how, left, member),
        Tail::Postfix(op) => postfix(alloc, place, op, left),
        Tail::Binary(op, right) => binary(alloc, place, op, left, right),
        Tail::Conditional(then, otherwise) => conditional(alloc, place, left, then, otherwise),
        Tail::Assign(op, value) => assign(alloc, place, op, left, value),
        Tail::Comma(rest) => comma(alloc, place, left, rest),
    }
}
