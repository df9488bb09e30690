//! `break` and `continue` (C11 6.8.6.2, 6.8.6.3).

ghost use Rattle.declaration_rules.specs.Statements as spec;
ghost use Rattle.rule_answers.specs.Gives.{Gives};
ghost use Rattle.static_rules.specs.declared.states.State.{State};

use c_tree::Statement;
use declaration_rules::Inside;
use rule_answers::fault;
use static_rules::{CheckError, CheckKind};

/// `break;` on a line.
pub fn break_out(here: u32, around: Inside) -> Result<Statement, CheckError>
    ensures { (s : State) → Gives (spec.break_of here around s) result s }
{
    if around.in_loop || around.in_switch {
        Ok(Statement::Break(here))
    } else {
        Err(fault(CheckKind::TypeMismatch, here))
    }
}

/// `continue;` on a line.
pub fn continue_loop(here: u32, around: Inside) -> Result<Statement, CheckError>
    ensures { (s : State) → Gives (spec.continue_of here around s) result s }
{
    if around.in_loop {
        Ok(Statement::Continue(here))
    } else {
        Err(fault(CheckKind::TypeMismatch, here))
    }
}
