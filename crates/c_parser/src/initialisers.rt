//! Expressions by themselves, and initialisers (C11 6.7.9).

ghost use Rattle.std.specs.Prelude.{◌≤◌, ◌+◌, [], length};
ghost use Rattle.c_grammar.specs.Limits.{max_depth};
ghost use Rattle.c_grammar.specs.Operators.{tightness};
ghost use Rattle.grammar_descent.specs.AllReaders.{readers};
ghost use Rattle.grammar_descent.specs.InitialiserSteps as step;
ghost use Rattle.token_reader.specs.Input.{Reads};
ghost use Rattle.c_parser.specs.ListEnd.{list_end};

use crate::phrases;
use c_grammar::{Expression, Initialiser, Level};
use c_tokens::Mark;
use sqlite_items::Items;
use std::alloc::Global;
use token_reader::{ParseError, Reader, refused_at};

/// An expression without its height.
#[tactic(auto, unfolding(grammar_descent::specs::InitialiserSteps::expression_at))]
pub fn expression(
    alloc: Global,
    reader: &mut Reader<'_>,
    depth: u32,
    level: Level,
) -> Result<Expression, ParseError>
    requires { depth ≤ max_depth }
    ensures { Reads (λ text ts. step.expression_at ts (readers text ts) depth (tightness level)) reader.old result reader.new }
{
    let (found, _) = phrases::expression(alloc, reader, depth, level)?;
    Ok(found)
}

#[tactic(auto, unfolding(grammar_descent::specs::InitialiserSteps::value))]
fn value(alloc: Global, reader: &mut Reader<'_>, depth: u32) -> Result<Initialiser, ParseError>
    requires { depth ≤ max_depth }
    ensures { Reads (λ text ts. step.value ts (readers text ts) depth) reader.old result reader.new }
{
    Ok(Initialiser::Value(expression(alloc, reader, depth, Level::Assignment)?))
}

/// Goes past a comma, or past the brace that closes a list with or without a comma before it, and answers whether the list ends.
fn read_list_end(reader: &mut Reader<'_>) -> Result<bool, ParseError>
    ensures { Reads (λ text ts. list_end ts) reader.old result reader.new }
{
    if reader.sees_mark(Mark::RightBrace) {
        reader.pass(1);
        return Ok(true);
    }
    if !reader.sees_mark(Mark::Comma) {
        return Err(reader.refuse());
    }
    if reader.sees_mark_after(1, Mark::RightBrace) {
        reader.pass(2);
        Ok(true)
    } else {
        reader.pass(1);
        Ok(false)
    }
}

/// What stands after a `{` up to the `}` that closes it. `depth` is that of the parts.
#[cycle(initialiser)]
fn initialisers(
    alloc: Global,
    reader: &mut Reader<'_>,
    depth: u32,
) -> Result<Items<Initialiser>, ParseError>
    requires { depth ≤ max_depth }
    ensures { Reads (λ text ts. step.initialisers ts (readers text ts) (step.initialiser ts (readers text ts) depth) (length ts) []) reader.old result reader.new }
{
    let mut found = Items::new(alloc);
    for _turn in 0..reader.tokens_len() {
        found.push(initialiser(alloc, reader, depth)?)?;
        if read_list_end(reader)? {
            return Ok(found);
        }
    }
    Err(reader.refuse())
}

#[cycle(initialiser)]
#[tactic(auto, unfolding(grammar_descent::specs::InitialiserSteps::braces))]
fn braces(alloc: Global, reader: &mut Reader<'_>, depth: u32) -> Result<Initialiser, ParseError>
    requires small { depth ≤ max_depth }
    requires within { reader.old.state.at + 1 ≤ length reader.old.tokens }
    ensures { Reads (λ text ts. step.braces ts (readers text ts) (step.initialiser ts (readers text ts) depth)) reader.old result reader.new }
{
    let place = reader.place();
    reader.pass(1);
    let all = initialisers(alloc, reader, depth)?;
    Ok(Initialiser::Braces(place, all))
}

/// An initialiser that is nested no deeper than `depth`. Where none fits into braces, the brace that opens them is refused.
#[cycle(initialiser)]
pub fn initialiser(
    alloc: Global,
    reader: &mut Reader<'_>,
    depth: u32,
) -> Result<Initialiser, ParseError>
    requires { depth ≤ max_depth }
    ensures { Reads (λ text ts. step.initialiser ts (readers text ts) depth) reader.old result reader.new }
{
    if reader.sees_mark(Mark::LeftBrace) {
        if depth == 0 {
            return Err(reader.refuse());
        }
        let brace = (depth == 1).then_some(reader.at() as u32);
        let found = braces(alloc, reader, depth - 1);
        refused_at(found, brace)
    } else {
        value(alloc, reader, depth)
    }
}
