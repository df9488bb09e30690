//! `return` (C11 6.8.6.4).

ghost use Rattle.rule_answers.specs.Gives.{Gives};
ghost use Rattle.statement_steps.specs.Returns as spec;
ghost use Rattle.static_rules.specs.declared.states.State.{State};

use c_tree::Statement;
use c_types::TypeNo;
use operand_plans::VOID;
use rule_answers::fault;
use static_rules::{CheckError, CheckKind, Operand};

/// `return value;` on a line, in a function whose result has this type: the value as it was converted to it, where it
/// can be.
pub fn return_value(
    line: u32,
    kind: TypeNo,
    converted: Option<Operand>,
) -> Result<Statement, CheckError>
    ensures { (s : State) → Gives (spec.returned line kind converted s) result s }
{
    let gives = kind != VOID;
    match converted {
        Some(operand) if gives => Ok(Statement::Return(line, Some(operand.value))),
        _ => Err(fault(CheckKind::TypeMismatch, line)),
    }
}

/// `return;` on a line, in a function whose result has this type.
pub fn return_nothing(line: u32, kind: TypeNo) -> Result<Statement, CheckError>
    ensures { (s : State) → Gives (spec.returned_nothing line kind s) result s }
{
    if kind == VOID {
        Ok(Statement::Return(line, None))
    } else {
        Err(fault(CheckKind::TypeMismatch, line))
    }
}
