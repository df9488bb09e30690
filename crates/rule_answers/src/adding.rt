//! Types that the table may not have yet.

ghost use Rattle.std.specs.Prelude.{◌≡◌, IfOk, IfErr, IsTrue};
ghost use Rattle.c_types.specs.Adding.{added};
ghost use Rattle.c_types.specs.declared.kinds.CType.TheVariants.{Pointer, Array, Flexible};
ghost use Rattle.static_rules.specs.Operands as spec;
ghost use Rattle.rule_answers.specs.Faults.{HasRoomBeside, want_of_memory};
ghost use Rattle.rule_answers.specs.Gives.{Makes};

use crate::faults::out_of_memory;
use c_types::{TypeNo, TypeTable};
use static_rules::{CheckError, Made, State};

/// The most types that a table may have.
pub const MAX_TYPES: usize = 20_000_000;

/// Whether a type may be made of this one: it is one of the table, which has room.
pub fn has_room_beside(types: &TypeTable, n: TypeNo) -> bool
    ensures { IsTrue result → HasRoomBeside types.now n }
{
    0 < n && n as usize <= types.len() && types.len() < MAX_TYPES
}

/// The number of a pointer type.
pub fn pointer_type(types: &mut TypeTable, to: TypeNo) -> Result<TypeNo, CheckError>
    ensures number { IfOk result (λ n. (n, types.new) ≡ added (Pointer to) types.old) }
    ensures memory { IfErr result (λ e. e ≡ want_of_memory) }
{
    if !has_room_beside(types, to) {
        return Err(out_of_memory());
    }
    match types.add_pointer(to) {
        Ok(number) => Ok(number),
        Err(_) => Err(out_of_memory()),
    }
}

/// The number of an array type that its makers did not refuse.
pub fn array_type(types: &mut TypeTable, of: TypeNo, count: u32) -> Result<TypeNo, CheckError>
    ensures number { IfOk result (λ n. (n, types.new) ≡ added (Array of count) types.old) }
    ensures memory { IfErr result (λ e. e ≡ want_of_memory) }
{
    if !has_room_beside(types, of) {
        return Err(out_of_memory());
    }
    match types.add_array(of, count) {
        Ok(number) => Ok(number),
        Err(_) => Err(out_of_memory()),
    }
}

/// The number of the type of an open array that its makers did not refuse.
pub fn open_array_type(types: &mut TypeTable, of: TypeNo) -> Result<TypeNo, CheckError>
    ensures number { IfOk result (λ n. (n, types.new) ≡ added (Flexible of) types.old) }
    ensures memory { IfErr result (λ e. e ≡ want_of_memory) }
{
    if !has_room_beside(types, of) {
        return Err(out_of_memory());
    }
    match types.add_flexible(of) {
        Ok(number) => Ok(number),
        Err(_) => Err(out_of_memory()),
    }
}

/// The number of the pointer type to a type, which is added where the table lacks it.
#[tactic(auto, unfolding(static_rules::specs::Operands::pointer_to))]
pub fn pointer_to(state: &mut State, to: TypeNo) -> Result<TypeNo, CheckError>
    ensures { Makes (spec.pointer_to state.old to) result state.new }
{
    match pointer_type(&mut state.types, to) {
        Ok(number) => Ok(number),
        Err(error) => Err(error),
    }
}

/// The number of what specifiers and a declarator make, which is added where the table lacks it: 0 for a function.
#[tactic(auto, unfolding(static_rules::specs::Operands::in_table))]
pub fn in_table(state: &mut State, made: &Made) -> Result<TypeNo, CheckError>
    ensures { Makes (spec.in_table state.old made.now) result state.new }
{
    match made {
        Made::Known(kind) => Ok(*kind),
        Made::Array(of, count) => match array_type(&mut state.types, *of, *count) {
            Ok(number) => Ok(number),
            Err(error) => Err(error),
        },
        Made::Open(of) => match open_array_type(&mut state.types, *of) {
            Ok(number) => Ok(number),
            Err(error) => Err(error),
        },
        Made::Function(_) => Ok(0),
    }
}
