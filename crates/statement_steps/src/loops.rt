//! Loops (C11 6.8.5).

ghost use Rattle.std.specs.Prelude.{◌≡◌, MatchResult};
ghost use Rattle.c_tree.specs.declared.statements.Statement.TheVariants as t;
ghost use Rattle.rule_answers.specs.Faults.{want_of_memory};

use crate::boxes::boxed;
use c_tree::{ForStart, Statement, Value};
use static_rules::CheckError;
use std::alloc::Global;

/// `while (test) body`
pub fn while_loop(
    alloc: Global,
    line: u32,
    test: Value,
    body: Statement,
) -> Result<Statement, CheckError>
    ensures { MatchResult result (λ made. made ≡ t.While line test body) (λ e. e ≡ want_of_memory) }
{
    match boxed(alloc, body, test) {
        Ok((body, test)) => Ok(Statement::While(line, test, body)),
        Err(error) => Err(error),
    }
}

/// `do body while (test);`
pub fn do_loop(
    alloc: Global,
    line: u32,
    body: Statement,
    test: Value,
) -> Result<Statement, CheckError>
    ensures { MatchResult result (λ made. made ≡ t.Do line body test) (λ e. e ≡ want_of_memory) }
{
    match boxed(alloc, body, test) {
        Ok((body, test)) => Ok(Statement::Do(line, body, test)),
        Err(error) => Err(error),
    }
}

/// `for (start; test; step) body`
pub fn for_loop(
    alloc: Global,
    line: u32,
    start: ForStart,
    test: Option<Value>,
    step: Option<Value>,
    body: Statement,
) -> Result<Statement, CheckError>
    ensures { MatchResult result (λ made. made ≡ t.For line start test step body) (λ e. e ≡ want_of_memory) }
{
    match boxed(alloc, body, (start, test, step)) {
        Ok((body, (start, test, step))) => Ok(Statement::For(line, start, test, step, body)),
        Err(error) => Err(error),
    }
}
