//! Statements and blocks.

ghost use Rattle.std.specs.Prelude.{◌≡◌, ◌≤◌, [], length, take, IfOk, OnOk};
ghost use Rattle.program_form.specs.Answers.{Gives, GivesIn};
ghost use Rattle.program_form.specs.Statements as spec;

use crate::actions::action;
use crate::declarations::declaration;
use crate::error::Unfit;
use crate::numbers::number;
use c_grammar::{Block, BlockItem, Expression as Test, MAX_DEPTH, Statement as Syntax};
use form_parts::Scope;
use plain_meaning::{Expression, Statement};
use sqlite_items::{Boxed, Items};
use std::alloc::{AllocError, Global};
use token_texts::TokenTexts;

fn make_if(
    alloc: Global,
    line: u32,
    test: Expression,
    then: Statement,
) -> Result<Statement, AllocError>
    ensures { IfOk result (λ made. made ≡ Statement.If line test then) }
{
    Ok(Statement::If(line, test, Boxed::new(alloc, then)?))
}

fn make_if_else(
    alloc: Global,
    line: u32,
    test: Expression,
    then: Statement,
    otherwise: Statement,
) -> Result<Statement, AllocError>
    ensures { IfOk result (λ made. made ≡ Statement.IfElse line test then otherwise) }
{
    Ok(Statement::IfElse(
        line,
        test,
        Boxed::new(alloc, then)?,
        Boxed::new(alloc, otherwise)?,
    ))
}

fn make_while(
    alloc: Global,
    line: u32,
    test: Expression,
    body: Statement,
) -> Result<Statement, AllocError>
    ensures { IfOk result (λ made. made ≡ Statement.While line test body) }
{
    Ok(Statement::While(line, test, Boxed::new(alloc, body)?))
}

/// A statement, nested no deeper than `depth`.
#[cycle(statement)]
pub fn statement(
    alloc: Global,
    texts: &TokenTexts,
    scope: &mut Scope,
    depth: u32,
    syntax: &Syntax,
) -> Result<Statement, Unfit>
    ensures value { Gives result (spec.statement texts.now depth scope.old syntax.now) }
    ensures kept { OnOk result (scope.new ≡ scope.old) }
{
    if depth == 0 {
        return Err(Unfit::Outside);
    }
    statement_by(alloc, texts, scope, depth - 1, syntax)
}

/// A statement whose parts nest no deeper than `depth`.
#[cycle(statement)]
#[tactic(auto, unfolding(crate::specs::Statements::statement_by))]
fn statement_by(
    alloc: Global,
    texts: &TokenTexts,
    scope: &mut Scope,
    depth: u32,
    syntax: &Syntax,
) -> Result<Statement, Unfit>
    ensures value { Gives result (spec.statement_by texts.now (spec.statement texts.now depth) scope.old syntax.now) }
    ensures kept { OnOk result (scope.new ≡ scope.old) }
{
    match syntax {
        Syntax::Block(body) => block(alloc, texts, scope, depth, body),
        Syntax::Expression(place, value) => action(alloc, texts, scope, place.line, value),
        Syntax::If(place, test, then) => {
            if_statement(alloc, texts, scope, depth, place.line, test, then.get())
        }
        Syntax::IfElse(place, test, then, otherwise) => if_else_statement(
            alloc,
            texts,
            scope,
            depth,
            place.line,
            test,
            then.get(),
            otherwise.get(),
        ),
        Syntax::While(place, test, body) => {
            while_statement(alloc, texts, scope, depth, place.line, test, body.get())
        }
        _ => Err(Unfit::Outside),
    }
}

#[cycle(statement)]
#[tactic(auto, unfolding(crate::specs::Statements::if_statement))]
fn if_statement(
    alloc: Global,
    texts: &TokenTexts,
    scope: &mut Scope,
    depth: u32,
    line: u32,
    test: &Test,
    then: &Syntax,
) -> Result<Statement, Unfit>
    ensures value { Gives result (spec.if_statement texts.now (spec.statement texts.now depth) scope.old line test.now then.now) }
    ensures kept { OnOk result (scope.new ≡ scope.old) }
{
    let test = number(alloc, texts, scope, MAX_DEPTH, test)?;
    let then = statement(alloc, texts, scope, depth, then)?;
    Ok(make_if(alloc, line, test, then)?)
}

#[cycle(statement)]
#[tactic(auto, unfolding(crate::specs::Statements::if_else_statement))]
fn if_else_statement(
    alloc: Global,
    texts: &TokenTexts,
    scope: &mut Scope,
    depth: u32,
    line: u32,
    test: &Test,
    then: &Syntax,
    otherwise: &Syntax,
) -> Result<Statement, Unfit>
    ensures value { Gives result (spec.if_else_statement texts.now (spec.statement texts.now depth) scope.old line test.now then.now otherwise.now) }
    ensures kept { OnOk result (scope.new ≡ scope.old) }
{
    let test = number(alloc, texts, scope, MAX_DEPTH, test)?;
    let then = statement(alloc, texts, scope, depth, then)?;
    let otherwise = statement(alloc, texts, scope, depth, otherwise)?;
    Ok(make_if_else(alloc, line, test, then, otherwise)?)
}

#[cycle(statement)]
#[tactic(auto, unfolding(crate::specs::Statements::while_statement))]
fn while_statement(
    alloc: Global,
    texts: &TokenTexts,
    scope: &mut Scope,
    depth: u32,
    line: u32,
    test: &Test,
    body: &Syntax,
) -> Result<Statement, Unfit>
    ensures value { Gives result (spec.while_statement texts.now (spec.statement texts.now depth) scope.old line test.now body.now) }
    ensures kept { OnOk result (scope.new ≡ scope.old) }
{
    let test = number(alloc, texts, scope, MAX_DEPTH, test)?;
    let body = statement(alloc, texts, scope, depth, body)?;
    Ok(make_while(alloc, line, test, body)?)
}

/// A block whose statements nest no deeper than `depth`.
#[cycle(statement)]
#[tactic(auto, unfolding(crate::specs::Statements::block))]
pub fn block(
    alloc: Global,
    texts: &TokenTexts,
    scope: &mut Scope,
    depth: u32,
    body: &Block,
) -> Result<Statement, Unfit>
    ensures value { Gives result (spec.block texts.now (spec.statement texts.now depth) scope.old body.now) }
    ensures kept { OnOk result (scope.new ≡ scope.old) }
{
    let all = items(alloc, texts, scope, depth, body.items.as_slice())?;
    Ok(Statement::Block(all))
}

/// What stands in a block, at whose end its own variables go out of scope.
#[cycle(statement)]
fn items(
    alloc: Global,
    texts: &TokenTexts,
    scope: &mut Scope,
    depth: u32,
    all: &[BlockItem],
) -> Result<Items<Statement>, Unfit>
    ensures value { Gives result (spec.items texts.now (spec.statement texts.now depth) (length scope.old) scope.old [] all.now) }
    ensures kept { OnOk result (scope.new ≡ scope.old) }
{
    let start = scope.len();
    let mut found = Items::new(alloc);
    for one in all {
        let next = item(alloc, texts, scope, start, depth, one)?;
        found.push(next)?;
    }
    scope.close(start);
    Ok(found)
}

/// A declaration or a statement in a block whose variables begin at `start`.
#[cycle(statement)]
#[tactic(auto, unfolding(crate::specs::Statements::item))]
fn item(
    alloc: Global,
    texts: &TokenTexts,
    scope: &mut Scope,
    start: usize,
    depth: u32,
    one: &BlockItem,
) -> Result<Statement, Unfit>
    ensures value { GivesIn result scope.new (spec.item texts.now (spec.statement texts.now depth) start scope.old one.now) }
    ensures outside { OnOk result (take (length scope.old) scope.new ≡ scope.old) }
{
    match one {
        BlockItem::Declaration(syntax) => declaration(alloc, texts, scope, start, syntax),
        BlockItem::Statement(part) => statement(alloc, texts, scope, depth, part),
    }
}
