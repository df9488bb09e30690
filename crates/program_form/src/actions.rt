//! Expressions that are statements: assignments and calls.

ghost use Rattle.std.specs.Prelude.{◌≡◌};
ghost use Rattle.program_form.specs.Answers.{Gives};
ghost use Rattle.program_form.specs.Actions as spec;

use crate::error::Unfit;
use crate::numbers::number;
use c_grammar::{Assignment, Expression, MAX_DEPTH};
use form_parts::{Scope, Sort, cast, is_format, is_free, is_printf, lone_name, only, pointer};
use plain_meaning::{Pointer, Statement};
use std::alloc::Global;
use token_texts::TokenTexts;

/// `NAME = value`
#[tactic(auto, unfolding(crate::specs::Actions::name_assignment))]
fn name_assignment(
    alloc: Global,
    texts: &TokenTexts,
    scope: &Scope,
    line: u32,
    name: u32,
    value: &Expression,
) -> Result<Statement, Unfit>
    ensures { Gives result (spec.name_assignment texts.now scope.now line name value.now) }
{
    match scope.find(name) {
        Some((variable, Sort::Number)) => {
            let value = number(alloc, texts, scope, MAX_DEPTH, value)?;
            Ok(Statement::Assignment(line, variable, value))
        }
        Some((variable, Sort::Pointer(target))) => match cast(texts, scope, target, value) {
            Some(source) => Ok(Statement::PointerAssignment(
                line,
                Pointer { variable, target },
                source,
            )),
            None => Err(Unfit::Outside),
        },
        None => Err(Unfit::Outside),
    }
}

/// `NAME[index] = value`
#[tactic(auto, unfolding(crate::specs::Actions::element_assignment))]
fn element_assignment(
    alloc: Global,
    texts: &TokenTexts,
    scope: &Scope,
    line: u32,
    array: &Expression,
    index: &Expression,
    value: &Expression,
) -> Result<Statement, Unfit>
    ensures { Gives result (spec.element_assignment texts.now scope.now line array.now index.now value.now) }
{
    let Some(pointer) = pointer(texts, scope, array) else {
        return Err(Unfit::Outside);
    };
    let index = number(alloc, texts, scope, MAX_DEPTH, index)?;
    let value = number(alloc, texts, scope, MAX_DEPTH, value)?;
    Ok(Statement::ElementAssignment(line, pointer, index, value))
}

#[tactic(auto, unfolding(crate::specs::Actions::assignment))]
fn assignment(
    alloc: Global,
    texts: &TokenTexts,
    scope: &Scope,
    line: u32,
    left: &Expression,
    value: &Expression,
) -> Result<Statement, Unfit>
    ensures { Gives result (spec.assignment texts.now scope.now line left.now value.now) }
{
    match left {
        Expression::Name(place) => {
            let name = texts.number(place.token);
            name_assignment(alloc, texts, scope, line, name, value)
        }
        Expression::Index(_, array, index) => {
            element_assignment(alloc, texts, scope, line, array.get(), index.get(), value)
        }
        _ => Err(Unfit::Outside),
    }
}

/// `printf(FORMAT, value)`
#[tactic(auto, unfolding(crate::specs::Actions::print_statement))]
fn print_statement(
    alloc: Global,
    texts: &TokenTexts,
    scope: &Scope,
    line: u32,
    arguments: &[Expression],
) -> Result<Statement, Unfit>
    ensures { Gives result (spec.print_statement texts.now scope.now line arguments.now) }
{
    match arguments {
        [format, value] => {
            if !is_format(texts, format) {
                return Err(Unfit::Outside);
            }
            let value = number(alloc, texts, scope, MAX_DEPTH, value)?;
            Ok(Statement::Print(line, value))
        }
        _ => Err(Unfit::Outside),
    }
}

/// `free(NAME)`
#[tactic(auto, unfolding(crate::specs::Actions::free_statement))]
fn free_statement(
    texts: &TokenTexts,
    scope: &Scope,
    line: u32,
    arguments: &[Expression],
) -> Result<Statement, Unfit>
    ensures { Gives result (spec.free_statement texts.now scope.now line arguments.now) }
{
    let Some(argument) = only(arguments) else {
        return Err(Unfit::Outside);
    };
    match pointer(texts, scope, argument) {
        Some(pointer) => Ok(Statement::Free(line, pointer)),
        None => Err(Unfit::Outside),
    }
}

/// A call of the function of this name.
#[tactic(auto, unfolding(crate::specs::Actions::call_statement))]
fn call_statement(
    alloc: Global,
    texts: &TokenTexts,
    scope: &Scope,
    line: u32,
    name: u32,
    arguments: &[Expression],
) -> Result<Statement, Unfit>
    ensures { Gives result (spec.call_statement texts.now scope.now line name arguments.now) }
{
    let spelled = texts.name(name);
    if is_printf(spelled) {
        print_statement(alloc, texts, scope, line, arguments)
    } else if is_free(spelled) {
        free_statement(texts, scope, line, arguments)
    } else {
        Err(Unfit::Outside)
    }
}

/// An expression that is a statement on this line.
#[tactic(auto, unfolding(crate::specs::Actions::action))]
pub fn action(
    alloc: Global,
    texts: &TokenTexts,
    scope: &Scope,
    line: u32,
    expression: &Expression,
) -> Result<Statement, Unfit>
    ensures { Gives result (spec.action texts.now scope.now line expression.now) }
{
    match expression {
        Expression::Assign(_, Assignment::Plain, left, value) => {
            assignment(alloc, texts, scope, line, left.get(), value.get())
        }
        Expression::Call(_, function, arguments) => match lone_name(texts, function.get()) {
            Some(name) => call_statement(alloc, texts, scope, line, name, arguments.as_slice()),
            None => Err(Unfit::Outside),
        },
        _ => Err(Unfit::Outside),
    }
}
