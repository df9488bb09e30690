//! Calls of the functions that each text has, but for `printf` and `atomic_fetch_add`
//! (C11 7.21.7.8, 7.21.7.9, 7.22.3, 7.24).

ghost use Rattle.std.specs.Prelude.{◌≡◌};
ghost use Rattle.call_steps.specs.Tails as tails;
ghost use Rattle.rule_answers.specs.Gives.{Gives, Makes};
ghost use Rattle.static_rules.specs.Calls as spec;

use crate::answers::answered;
use c_tree::Value;
use c_types::TypeNo;
use operand_plans::VOID;
use rule_answers::{fault, out_of_memory, pointer_to};
use sqlite_items::Items;
use static_rules::{Arguments, BuiltIn, CheckError, CheckKind, Operand, State, Where};
use std::alloc::Global;
use tree_building::given_node;

/// Whether the result is a `void *`.
fn gives_any(which: BuiltIn) -> bool
    ensures { result ≡ spec.gives_any which }
{
    matches!(
        which,
        BuiltIn::Malloc | BuiltIn::Calloc | BuiltIn::Memcpy | BuiltIn::Memset
    )
}

/// The type `void *` where that is what the function gives, and 0 for others.
pub fn result_type(state: &mut State, which: BuiltIn) -> Result<TypeNo, CheckError>
    ensures { Makes (spec.result_type state.old which) result state.new }
{
    if gives_any(which) {
        match pointer_to(state, VOID) {
            Ok(kind) => Ok(kind),
            Err(error) => Err(error),
        }
    } else {
        Ok(0)
    }
}

/// The node of a call whose arguments fit.
fn given_made(
    alloc: Global,
    state: &mut State,
    at: Where,
    here: u32,
    which: BuiltIn,
    values: Items<Value>,
) -> Result<Operand, CheckError>
    ensures { Gives (spec.given_node at here which values (spec.result_type state.old which)) result state.new }
{
    let any = match result_type(state, which) {
        Ok(any) => any,
        Err(_) => return Err(out_of_memory()),
    };
    match given_node(alloc, at.line, any, which, values) {
        Ok(Some(x)) => Ok(x),
        Ok(None) => Err(fault(CheckKind::BadCall, here)),
        Err(_) => Err(out_of_memory()),
    }
}

/// The call of a function that each text has, with what was read of the arguments.
#[tactic(auto, using(crate::proofs::Tellings::told_behind))]
pub fn given_call(
    alloc: Global,
    state: &mut State,
    at: Where,
    here: u32,
    which: BuiltIn,
    arguments: Arguments,
) -> Result<Operand, CheckError>
    ensures { Gives (tails.given_call at here which state.old arguments) result state.new }
{
    match answered(at, here, arguments) {
        Ok(values) => given_made(alloc, state, at, here, which, values),
        Err(error) => Err(error),
    }
}
