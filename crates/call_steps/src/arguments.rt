//! Arguments one after another, in the order in which they are read (C11 6.5.2.2p2 and p7).

ghost use Rattle.std.specs.Prelude.{◌≡◌, true, IfOk, OnOk, IfErr, option_map, slice_get};
ghost use Rattle.call_steps.specs.Reading as reading;
ghost use Rattle.operand_plans.specs.Parameters.{taken};
ghost use Rattle.rule_answers.specs.Faults.{want_of_memory};
ghost use Rattle.rule_answers.specs.Gives.{Makes};
ghost use Rattle.static_rules.specs.Calls as spec;
ghost use Rattle.static_rules.specs.Operands as operands;
ghost use Rattle.static_rules.specs.declared.judged.Arguments.{Arguments as Read};

use c_types::{TypeNo, TypeTable};
use operand_plans::{Parameter, conversion, taken_by};
use rule_answers::{out_of_memory, pointer_to};
use sqlite_items::Items;
use static_rules::{Arguments, BuiltIn, CheckError, Operand, State};
use std::alloc::{AllocError, Global};
use tree_building::{changed, seen};

/// What the parameter at a place takes, of a function that each text has; nothing where it has no such parameter.
#[tactic(auto, using(crate::proofs::Parameters::taken_at))]
pub fn parameter_at(which: BuiltIn, place: usize) -> Option<Parameter>
    ensures { option_map taken result ≡ slice_get (spec.taken_by which) place }
{
    taken_by(which).get(place).copied()
}

/// The type that a parameter takes, which is added where the table lacks it.
pub fn kind_taken(state: &mut State, parameter: Parameter) -> Result<TypeNo, CheckError>
    ensures { Makes (spec.kind_taken state.old (taken parameter)) result state.new }
{
    match parameter {
        Parameter::Kind(kind) => Ok(kind),
        Parameter::PointerTo(to) => match pointer_to(state, to) {
            Ok(kind) => Ok(kind),
            Err(error) => Err(error),
        },
    }
}

/// An operand as one of a type, nothing where that is a mismatch (C11 6.5.16.1).
#[tactic(auto, unfolding(static_rules::specs::Operands::converted))]
pub fn converted(
    alloc: Global,
    types: &TypeTable,
    line: u32,
    to: TypeNo,
    x: Operand,
) -> Result<Option<Operand>, AllocError>
    ensures { IfOk result (λ made. made ≡ operands.converted types.now line to x) }
{
    match conversion(types, to, seen(&x)) {
        Some(how) => Ok(Some(changed(alloc, line, how, x)?)),
        None => Ok(None),
    }
}

/// No arguments, before the first is read.
pub fn no_arguments(alloc: Global) -> Arguments
    ensures { result ≡ spec.no_more true }
{
    Arguments {
        values: Items::new(alloc),
        misfit: false,
        as_many: true,
    }
}

/// Puts a converted argument behind those that were read; nothing is one that does not fit.
#[tactic(auto, unfolding(crate::specs::Reading::with_argument))]
pub fn keep_argument(arguments: &mut Arguments, x: Option<Operand>) -> Result<(), AllocError>
    ensures { OnOk result (arguments.new ≡ reading.with_argument arguments.old x) }
{
    match x {
        Some(x) => match arguments.values.push(x.value) {
            Ok(()) => Ok(()),
            Err(error) => Err(error),
        },
        None => {
            arguments.misfit = true;
            Ok(())
        }
    }
}

/// An argument as one of a type, behind those that were read.
fn keep_as(
    alloc: Global,
    types: &TypeTable,
    line: u32,
    to: TypeNo,
    x: Operand,
    arguments: &mut Arguments,
) -> Result<(), AllocError>
    ensures { let made = operands.converted types.now line to x in
        OnOk result (arguments.new ≡ reading.with_argument arguments.old made) }
{
    match converted(alloc, types, line, to, x) {
        Ok(x) => keep_argument(arguments, x),
        Err(error) => Err(error),
    }
}

/// One more argument, which has a parameter: it is kept as one of the type that this takes, or it is a misfit.
pub fn add_argument(
    alloc: Global,
    state: &mut State,
    line: u32,
    parameter: Parameter,
    x: Operand,
    arguments: &mut Arguments,
) -> Result<(), CheckError>
    ensures state { OnOk result (state.new ≡ (spec.kind_taken state.old (taken parameter)).1) }
    ensures kept { let to = spec.kind_taken state.old (taken parameter) in
        let made = operands.converted to.1.types line to.0 x in
        OnOk result (arguments.new ≡ reading.with_argument arguments.old made) }
    ensures memory { IfErr result (λ e. e ≡ want_of_memory) }
{
    let to = match kind_taken(state, parameter) {
        Ok(to) => to,
        Err(_) => return Err(out_of_memory()),
    };
    match keep_as(alloc, &state.types, line, to, x, arguments) {
        Ok(()) => Ok(()),
        Err(_) => Err(out_of_memory()),
    }
}

/// One more argument, for which there is no parameter.
#[tactic(auto, using(crate::proofs::Orders::surplus_behind))]
pub fn add_surplus(arguments: &mut Arguments)
    ensures { (rest : Read) →
        reading.followed arguments.new rest ≡ reading.followed arguments.old (reading.surplus rest) }
{
    arguments.as_many = false;
}

/// The arguments of a call, behind the last of them: whether each parameter that is left has one.
#[tactic(auto, using(crate::proofs::Orders::ended))]
pub fn end_arguments(mut arguments: Arguments, as_many: bool) -> Arguments
    ensures { result ≡ reading.followed arguments (spec.no_more as_many) }
{
    arguments.as_many = arguments.as_many && as_many;
    arguments
}
