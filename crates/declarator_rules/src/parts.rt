//! What the parts of a declarator make (C11 6.7.6).

ghost use Rattle.std.specs.Prelude.{◌≡◌, Ok, IfOk};
ghost use Rattle.declaration_rules.specs.Parts as spec;
ghost use Rattle.declaration_rules.specs.Specifiers as specifiers;
ghost use Rattle.rule_answers.specs.Gives.{Gives};
ghost use Rattle.static_rules.specs.Operands.{in_table};
ghost use Rattle.static_rules.specs.States.{symbol_of};

use c_tree::{MAX_PARAMETERS, Variable};
use c_types::TypeNo;
use declaration_rules::ParameterList;
use operand_plans::{element, is_aggregate};
use rule_answers::{fault, in_table, out_of_memory, pointer_to};
use sqlite_items::Items;
use static_rules::{CheckError, CheckKind, Feature, Made, State, Symbol};
use std::alloc::{AllocError, Global};
use well_typed::Signature;

/// The types of variables.
fn kinds_of(alloc: Global, variables: &[Variable]) -> Result<Items<TypeNo>, AllocError>
    ensures { IfOk result (λ kinds. kinds ≡ spec.kinds_of variables.now) }
{
    let mut kinds = Items::new(alloc);
    for variable in variables {
        kinds.push(variable.kind)?;
    }
    Ok(kinds)
}

/// A function that gives a type: no array, struct or union, and with 16 parameters at most.
pub fn function_of(
    alloc: Global,
    here: u32,
    list: &ParameterList,
    state: &State,
    kind: TypeNo,
) -> Result<Made, CheckError>
    ensures { Gives (spec.function_of here list.now state.now kind) result state.now }
{
    if element(&state.types, kind).is_some() {
        return Err(fault(CheckKind::TypeMismatch, here));
    }
    if is_aggregate(&state.types, kind) {
        return Err(fault(CheckKind::LeftOut(Feature::StructValue), here));
    }
    if list.variables.len() > MAX_PARAMETERS as usize {
        return Err(fault(CheckKind::Limit, here));
    }
    match kinds_of(alloc, list.variables.as_slice()) {
        Ok(parameters) => Ok(Made::Function(Signature {
            result: kind,
            parameters,
        })),
        Err(_) => Err(out_of_memory()),
    }
}

/// A pointer to what was made, which is no function.
pub fn pointed(state: &mut State, to: &Made) -> Result<Made, CheckError>
    ensures { Gives (Ok (spec.pointed (in_table state.old to.now))) result state.new }
{
    match in_table(state, to) {
        Ok(to) => match pointer_to(state, to) {
            Ok(kind) => Ok(Made::Known(kind)),
            Err(_) => Err(out_of_memory()),
        },
        Err(_) => Err(out_of_memory()),
    }
}

/// Another one that equals it.
pub fn copy_of(alloc: Global, made: &Made) -> Result<Made, AllocError>
    ensures { IfOk result (λ copy. copy ≡ made.now) }
{
    match made {
        Made::Known(kind) => Ok(Made::Known(*kind)),
        Made::Array(of, count) => Ok(Made::Array(*of, *count)),
        Made::Open(of) => Ok(Made::Open(*of)),
        Made::Function(signature) => {
            match Items::from_slice(alloc, signature.parameters.as_slice()) {
                Ok(parameters) => Ok(Made::Function(Signature {
                    result: signature.result,
                    parameters,
                })),
                Err(error) => Err(error),
            }
        }
    }
}

/// The type that a name is a typedef of (C11 6.7.8p3).
pub fn typedef_used(alloc: Global, here: u32, state: &State, name: u32) -> Result<Made, CheckError>
    ensures { Gives (specifiers.typedef_used here state.now (symbol_of state.now name)) result state.now }
{
    match state.symbols.meaning(name) {
        Some(Symbol::Typedef(made)) => match copy_of(alloc, made) {
            Ok(copy) => Ok(copy),
            Err(_) => Err(out_of_memory()),
        },
        _ => Err(fault(CheckKind::Unknown, here)),
    }
}

/// The type of a member, which is no function (C11 6.7.2.1p3).
pub fn member_kind(here: u32, state: &mut State, made: &Made) -> Result<TypeNo, CheckError>
    ensures { Gives (specifiers.member_kind here (made.now, state.old)) result state.new }
{
    if let Made::Function(_) = made {
        return Err(fault(CheckKind::TypeMismatch, here));
    }
    match in_table(state, made) {
        Ok(kind) => Ok(kind),
        Err(_) => Err(out_of_memory()),
    }
}
