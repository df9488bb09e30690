//! Declarations of numbers and pointers.

ghost use Rattle.std.specs.Prelude.{◌≡◌, length, take, OnOk};
ghost use Rattle.std.specs.Option.{option_copied};
ghost use Rattle.program_form.specs.Answers.{Gives, GivesIn};
ghost use Rattle.program_form.specs.Declarations as spec;

use crate::error::Unfit;
use crate::numbers::number;
use c_grammar::{Declaration, Declarator, Expression, Initialiser, MAX_DEPTH};
use form_parts::{Scope, Sort, after_star, cast, declared_name, malloc, only, target};
use plain_meaning::{Statement, Target};
use std::alloc::Global;
use token_texts::TokenTexts;

/// `int NAME = value;`, in a block whose variables begin at `start`.
#[tactic(auto, unfolding(crate::specs::Declarations::number_declaration))]
fn number_declaration(
    alloc: Global,
    texts: &TokenTexts,
    scope: &mut Scope,
    start: usize,
    line: u32,
    name: u32,
    value: &Expression,
) -> Result<Statement, Unfit>
    ensures value { GivesIn result scope.new (spec.number_declaration texts.now start scope.old line name value.now) }
    ensures outside { OnOk result (take (length scope.old) scope.new ≡ scope.old) }
{
    if scope.is_taken(texts, start, name) {
        return Err(Unfit::Outside);
    }
    scope.declare(name, Sort::Number)?;
    let value = number(alloc, texts, scope, MAX_DEPTH, value)?;
    Ok(Statement::Declaration(line, value))
}

/// `malloc(SIZE)` or `(TARGET *)SOURCE`, as the value of a new pointer.
fn pointer_value(
    texts: &TokenTexts,
    scope: &Scope,
    line: u32,
    target: Target,
    value: &Expression,
) -> Result<Statement, Unfit>
    ensures { Gives result (spec.pointer_value texts.now scope.now line target value.now) }
{
    if let Some(size) = malloc(texts, value) {
        return Ok(Statement::Allocation(line, target, size));
    }
    match cast(texts, scope, target, value) {
        Some(source) => Ok(Statement::PointerDeclaration(line, target, source)),
        None => Err(Unfit::Outside),
    }
}

/// `TARGET *NAME = ..;`, in a block whose variables begin at `start`.
#[tactic(auto, unfolding(crate::specs::Declarations::pointer_declaration))]
fn pointer_declaration(
    alloc: Global,
    texts: &TokenTexts,
    scope: &mut Scope,
    start: usize,
    line: u32,
    target: Target,
    name: u32,
    value: &Expression,
) -> Result<Statement, Unfit>
    ensures value { GivesIn result scope.new (spec.pointer_declaration texts.now start scope.old line target name value.now) }
    ensures outside { OnOk result (take (length scope.old) scope.new ≡ scope.old) }
{
    if scope.is_taken(texts, start, name) {
        return Err(Unfit::Outside);
    }
    scope.declare(name, Sort::Pointer(target))?;
    pointer_value(texts, scope, line, target, value)
}

fn declaration_of(
    alloc: Global,
    texts: &TokenTexts,
    scope: &mut Scope,
    start: usize,
    line: u32,
    target: Target,
    declarator: &Declarator,
    value: &Expression,
) -> Result<Statement, Unfit>
    ensures value { GivesIn result scope.new (spec.declaration_of texts.now start scope.old line target declarator.now value.now) }
    ensures outside { OnOk result (take (length scope.old) scope.new ≡ scope.old) }
{
    if let Some(inner) = after_star(declarator) {
        return match declared_name(texts, inner) {
            Some(name) => pointer_declaration(
                alloc, texts, scope, start, line, target, name, value,
            ),
            None => Err(Unfit::Outside),
        };
    }
    match (declared_name(texts, declarator), target) {
        (Some(name), Target::Int) => {
            number_declaration(alloc, texts, scope, start, line, name, value)
        }
        _ => Err(Unfit::Outside),
    }
}

/// The value that an initialiser is, if it is no list in braces.
#[tactic(auto, unfolding(crate::specs::Declarations::value_of))]
fn value_of(initialiser: &Initialiser) -> Option<&Expression>
    ensures { option_copied result ≡ spec.value_of initialiser.now }
{
    match initialiser {
        Initialiser::Value(value) => Some(value),
        Initialiser::Braces(..) => None,
    }
}

/// A declaration in a block whose variables begin at `start`. What it declares is in scope after it.
#[tactic(auto, unfolding(crate::specs::Declarations::declaration))]
pub fn declaration(
    alloc: Global,
    texts: &TokenTexts,
    scope: &mut Scope,
    start: usize,
    syntax: &Declaration,
) -> Result<Statement, Unfit>
    ensures value { GivesIn result scope.new (spec.declaration texts.now start scope.old syntax.now) }
    ensures outside { OnOk result (take (length scope.old) scope.new ≡ scope.old) }
{
    let Some(one) = only(syntax.declarators.as_slice()) else {
        return Err(Unfit::Outside);
    };
    let Some(initialiser) = &one.value else {
        return Err(Unfit::Outside);
    };
    let (Some(value), Some(target)) = (value_of(initialiser), target(&syntax.specs)) else {
        return Err(Unfit::Outside);
    };
    let line = syntax.place.line;
    declaration_of(
        alloc,
        texts,
        scope,
        start,
        line,
        target,
        &one.declarator,
        value,
    )
}
