//! Calls of functions of the text (C11 6.5.2.2).

ghost use Rattle.std.specs.Prelude.{◌≡◌, IfOk};
ghost use Rattle.call_steps.specs.Tails as tails;
ghost use Rattle.rule_answers.specs.Gives.{Gives, GivesValue};
ghost use Rattle.scoped_meanings.specs.Meanings.{declared_at};
ghost use Rattle.static_rules.specs.declared.states.State.{State as Around};

use crate::answers::answered;
use c_types::TypeNo;
use rule_answers::{fault, out_of_memory};
use sqlite_items::Items;
use static_rules::{Arguments, CheckError, CheckKind, DeclaredFunction, Operand, State, Where};
use std::alloc::{AllocError, Global};
use tree_building::call;

/// A function of the text that is called: its number among those that the text defines, the type of its result, and
/// those of its parameters.
#[derive(Drop)]
pub struct Callee {
    pub number: u32,
    pub result: TypeNo,
    pub parameters: Items<TypeNo>,
}

/// A function that the text defines somewhere, with its number.
fn defined(alloc: Global, function: &DeclaredFunction, number: u32) -> Result<Callee, AllocError>
    ensures { IfOk result (λ made. made ≡ tails.defined function.now number) }
{
    let parameters = Items::from_slice(alloc, function.signature.parameters.as_slice())?;
    Ok(Callee {
        number,
        result: function.signature.result,
        parameters,
    })
}

/// The function that is called, by its place in the order of first declarations: one that the text never defines is
/// unknown.
pub fn function_called(
    alloc: Global,
    state: &State,
    named_at: u32,
    place: u32,
) -> Result<Callee, CheckError>
    ensures { GivesValue (tails.callee_of named_at (declared_at state.now.functions place)) result }
{
    match state.functions.get(place as usize) {
        Some(function) => match function.number {
            Some(number) => match defined(alloc, function, number) {
                Ok(callee) => Ok(callee),
                Err(_) => Err(out_of_memory()),
            },
            None => Err(fault(CheckKind::Unknown, named_at)),
        },
        None => Err(fault(CheckKind::Unknown, named_at)),
    }
}

/// The call of a function of the text: the type of its result, its number, and what was read of the arguments.
#[tactic(auto, using(crate::proofs::Tellings::told_behind))]
pub fn call_of_text(
    at: Where,
    here: u32,
    kind: TypeNo,
    number: u32,
    arguments: Arguments,
) -> Result<Operand, CheckError>
    ensures { (s : Around) → Gives (tails.call_of_text at here kind number s arguments) result s }
{
    match answered(at, here, arguments) {
        Ok(values) => Ok(call(at.line, kind, number, values)),
        Err(error) => Err(error),
    }
}
