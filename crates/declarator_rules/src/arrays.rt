//! Arrays (C11 6.7.6.2p1): their elements have a size, and end in no flexible member.

ghost use Rattle.std.specs.Prelude.{◌≡◌};
ghost use Rattle.c_types.specs.Adding as adding;
ghost use Rattle.c_types.specs.Shapes as shapes;
ghost use Rattle.c_types.specs.Table.{IsNumber, shape_of};
ghost use Rattle.declaration_rules.specs.Parts as spec;
ghost use Rattle.declarator_rules.specs.Flexible.{flexible_by};
ghost use Rattle.rule_answers.specs.Gives.{Gives};
ghost use Rattle.static_rules.specs.Operands.{in_table};

use c_types::{CType, Member, TypeError, TypeNo, TypeTable, law_table};
use rule_answers::{has_room_beside, in_table, out_of_memory, refused};
use static_rules::{CheckError, Made, State};

/// The bytes of the largest object.
const LARGEST: u64 = 1_048_559;

/// Whether a type is an array that is open at its end.
pub fn is_open(types: &TypeTable, kind: TypeNo) -> bool
    ensures { result ≡ shapes.is_open (shape_of types.now kind) }
{
    law_table(types);
    matches!(types.find(kind), Some(CType::Flexible(_)))
}

fn any_open(types: &TypeTable, mut members: &[Member]) -> bool
    ensures { result ≡ adding.any (λ m. shapes.is_open (shape_of types.now m.kind)) members.entry.now }
{
    while let [first, rest @ ..] = members {
        if is_open(types, first.kind) {
            return true;
        }
        members = rest;
    }
    false
}

/// Whether a type with these members is a struct of which one is flexible.
fn is_flexible_by(types: &TypeTable, kind: Option<CType>, members: &[Member]) -> bool
    ensures { result ≡ flexible_by (shape_of types.now) members.now kind }
{
    match kind {
        Some(CType::Struct(_)) => any_open(types, members),
        _ => false,
    }
}

/// Whether a type is a struct with a flexible member.
fn is_flexible(types: &TypeTable, kind: TypeNo) -> bool
    requires { IsNumber types.now kind }
    ensures { result ≡ shapes.is_flexible (shape_of types.now kind) }
{
    law_table(types);
    is_flexible_by(types, types.find(kind), types.members(kind))
}

/// Why there is no array without a size of such elements.
fn open_fault(types: &TypeTable, of: TypeNo) -> Option<TypeError>
    requires { IsNumber types.now of }
    ensures { result ≡ adding.open_fault (shape_of types.now of) }
{
    if is_flexible(types, of) {
        return Some(TypeError::BadFlexible);
    }
    match types.size_of(of) {
        None => Some(TypeError::Incomplete),
        Some(_) => None,
    }
}

/// Why there is no array of so many such elements.
fn array_fault(types: &TypeTable, of: TypeNo, count: u32) -> Option<TypeError>
    requires { IsNumber types.now of }
    ensures { result ≡ adding.array_fault (shape_of types.now of) count }
{
    if count == 0 {
        return Some(TypeError::Empty);
    }
    if is_flexible(types, of) {
        return Some(TypeError::BadFlexible);
    }
    match types.size_of(of) {
        None => Some(TypeError::Incomplete),
        Some(size) => {
            if u64::from(count) * u64::from(size) > LARGEST {
                Some(TypeError::TooLarge)
            } else {
                None
            }
        }
    }
}

/// An array of so many elements of what was made, which is no function.
#[tactic(auto, using(crate::proofs::Tellings::refused_tells))]
pub fn array_of(here: u32, state: &mut State, of: &Made, count: u32) -> Result<Made, CheckError>
    ensures { Gives (spec.array_of here count (in_table state.old of.now)) result state.new }
{
    let of = match in_table(state, of) {
        Ok(of) => of,
        Err(_) => return Err(out_of_memory()),
    };
    if !has_room_beside(&state.types, of) {
        return Err(out_of_memory());
    }
    match array_fault(&state.types, of, count) {
        Some(reason) => Err(refused(here, reason)),
        None => Ok(Made::Array(of, count)),
    }
}

/// An array without a size.
#[tactic(auto, using(crate::proofs::Tellings::refused_tells))]
pub fn open_array_of(here: u32, state: &mut State, of: &Made) -> Result<Made, CheckError>
    ensures { Gives (spec.open_array_of here (in_table state.old of.now)) result state.new }
{
    let of = match in_table(state, of) {
        Ok(of) => of,
        Err(_) => return Err(out_of_memory()),
    };
    if !has_room_beside(&state.types, of) {
        return Err(out_of_memory());
    }
    match open_fault(&state.types, of) {
        Some(reason) => Err(refused(here, reason)),
        None => Ok(Made::Open(of)),
    }
}
