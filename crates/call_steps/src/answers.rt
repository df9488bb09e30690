//! What a call answers, once its arguments are read (C11 6.5.2.2p1 and p2).

ghost use Rattle.std.specs.Prelude.{◌≡◌, Err};
ghost use Rattle.call_steps.specs.Tails as tails;
ghost use Rattle.static_rules.specs.Calls as spec;
ghost use Rattle.static_rules.specs.declared.states.State.{State as Around};

use c_tree::Value;
use rule_answers::fault;
use sqlite_items::Items;
use static_rules::{Arguments, CheckError, CheckKind, Where};

/// The values of arguments that fit, and are as many as the parameters.
pub fn answered(at: Where, here: u32, arguments: Arguments) -> Result<Items<Value>, CheckError>
    ensures { (s : Around) → result ≡ spec.answered at here s arguments }
{
    if at.constant || arguments.misfit {
        return Err(fault(CheckKind::TypeMismatch, here));
    }
    if !arguments.as_many {
        return Err(fault(CheckKind::BadCall, here));
    }
    Ok(arguments.values)
}

/// Why there is no call of what is no function, and none of `printf` without a format.
pub fn wrong_call(at: Where, here: u32) -> CheckError
    ensures other { Err result ≡ tails.call_of_other at here }
    ensures no_format { (s : Around) → Err result ≡ tails.print_of_none at here s }
{
    if at.constant {
        fault(CheckKind::TypeMismatch, here)
    } else {
        fault(CheckKind::BadCall, here)
    }
}
