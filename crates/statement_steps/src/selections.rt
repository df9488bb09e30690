//! `if` and `switch` (C11 6.8.4).

ghost use Rattle.std.specs.Prelude.{◌≡◌, MatchResult};
ghost use Rattle.c_tree.specs.declared.statements.Statement.TheVariants as t;
ghost use Rattle.rule_answers.specs.Faults.{want_of_memory};
ghost use Rattle.rule_answers.specs.Gives.{GivesValue};
ghost use Rattle.statement_steps.specs.Switches as spec;

use crate::boxes::boxed;
use c_tree::{Statement, Value};
use c_types::TypeNo;
use operand_plans::is_whole;
use rule_answers::fault;
use static_rules::{CheckError, CheckKind, Operand};
use std::alloc::Global;

/// `if (test) then`
pub fn if_then(
    alloc: Global,
    line: u32,
    test: Value,
    then: Statement,
) -> Result<Statement, CheckError>
    ensures { MatchResult result (λ made. made ≡ t.If line test then) (λ e. e ≡ want_of_memory) }
{
    match boxed(alloc, then, test) {
        Ok((then, test)) => Ok(Statement::If(line, test, then)),
        Err(error) => Err(error),
    }
}

/// `if (test) then else otherwise`
pub fn if_else(
    alloc: Global,
    line: u32,
    test: Value,
    first: Statement,
    second: Statement,
) -> Result<Statement, CheckError>
    ensures { MatchResult result (λ made. made ≡ t.IfElse line test first second) (λ e. e ≡ want_of_memory) }
{
    let (first, (test, second)) = match boxed(alloc, first, (test, second)) {
        Ok(both) => both,
        Err(error) => return Err(error),
    };
    match boxed(alloc, second, (test, first)) {
        Ok((second, (test, first))) => Ok(Statement::IfElse(line, test, first, second)),
        Err(error) => Err(error),
    }
}

/// The value of a `switch`, which had this type before it was converted to the promoted one, where it can be.
pub fn switch_value(
    here: u32,
    kind: TypeNo,
    converted: Option<Operand>,
) -> Result<Operand, CheckError>
    ensures { GivesValue (spec.switched here kind converted) result }
{
    let whole = is_whole(kind);
    match converted {
        Some(operand) if whole => Ok(operand),
        _ => Err(fault(CheckKind::TypeMismatch, here)),
    }
}
