//! Types of parameters, and arrays without a size (C11 6.7.6.3p7 and p8).

ghost use Rattle.std.specs.Prelude.{◌≡◌, Ok};
ghost use Rattle.declaration_rules.specs.Parts as spec;
ghost use Rattle.rule_answers.specs.Gives.{Gives};
ghost use Rattle.static_rules.specs.Operands.{pointer_to};
ghost use Rattle.well_typed.specs.Kinds.{element};

use c_types::{CType, TypeError, TypeNo, TypeTable, law_table};
use operand_plans::{element, has_size, is_aggregate};
use rule_answers::{fault, out_of_memory, pointer_to};
use static_rules::{CheckError, CheckKind, Feature, Made, State};

/// A parameter has a size, and is no struct or union.
pub fn sized_parameter(here: u32, state: &State, kind: TypeNo) -> Result<TypeNo, CheckError>
    ensures { Gives (spec.sized_parameter here state.now kind) result state.now }
{
    if is_aggregate(&state.types, kind) {
        Err(fault(CheckKind::LeftOut(Feature::StructValue), here))
    } else if has_size(&state.types, kind) {
        Ok(kind)
    } else {
        Err(fault(CheckKind::BadType(TypeError::Incomplete), here))
    }
}

fn pointed(state: &mut State, to: TypeNo) -> Result<TypeNo, CheckError>
    ensures { Gives (Ok (pointer_to state.old to)) result state.new }
{
    match pointer_to(state, to) {
        Ok(kind) => Ok(kind),
        Err(_) => Err(out_of_memory()),
    }
}

fn adjusted_known(here: u32, state: &mut State, kind: TypeNo) -> Result<TypeNo, CheckError>
    ensures { Gives (spec.adjusted_by here state.old kind (element state.old.types kind)) result state.new }
{
    match element(&state.types, kind) {
        Some(of) => pointed(state, of),
        None => sized_parameter(here, state, kind),
    }
}

/// The type of a parameter: an array is a pointer, and there are no functions.
#[tactic(auto, unfolding(declaration_rules::specs::Parts::adjusted))]
pub fn adjusted(here: u32, state: &mut State, made: &Made) -> Result<TypeNo, CheckError>
    ensures { Gives (spec.adjusted here state.old made.now) result state.new }
{
    match made {
        Made::Function(_) => Err(fault(CheckKind::LeftOut(Feature::FunctionPointer), here)),
        Made::Array(of, _) | Made::Open(of) => pointed(state, *of),
        Made::Known(kind) => adjusted_known(here, state, *kind),
    }
}

#[tactic(auto, using(crate::proofs::Open::element_if_flexible))]
fn element_if_open(types: &TypeTable, kind: TypeNo) -> Option<TypeNo>
    ensures { result ≡ spec.element_if_open types.now kind }
{
    law_table(types);
    match types.find(kind) {
        Some(CType::Flexible(of)) => Some(of),
        _ => None,
    }
}

/// The type of the elements, of an array without a size alone.
#[tactic(auto, unfolding(declaration_rules::specs::Parts::open_element))]
pub fn open_element(types: &TypeTable, made: &Made) -> Option<TypeNo>
    ensures { result ≡ spec.open_element types.now made.now }
{
    match made {
        Made::Open(of) => Some(*of),
        Made::Known(kind) => element_if_open(types, *kind),
        Made::Array(..) | Made::Function(_) => None,
    }
}
