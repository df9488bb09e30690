//! Calls that add types and complete tags, each where its conditions hold.

ghost use Rattle.std.specs.Prelude.{◌-◌, ◌<◌, ◌^◌, length, IsTrue};
ghost use Rattle.c_types.specs.Table.{IsNumber};
ghost use Rattle.c_types.specs.Calls.{AreFields};

use crate::words::text_of;
use c_types::{CType, Field, TypeError, TypeNo, TypeTable};
use std::alloc::{AllocError, Global};

/// More types than a case adds.
const MANY: usize = 1_000_000;

/// Whether a number is one of the table.
pub fn is_number(types: &TypeTable, t: TypeNo) -> bool
    ensures { IsTrue result → IsNumber types.now t }
{
    1 <= t && t as usize <= types.len()
}

/// Whether a table has room for a type.
fn has_room(types: &TypeTable) -> bool
    ensures { IsTrue result → length types.now.kinds < 2 ^ 32 - 1 }
{
    types.len() < MANY
}

/// Whether all fields are of types of the table.
fn are_fields(types: &TypeTable, fields: &[Field]) -> bool
    ensures { IsTrue result → AreFields types.now fields.now }
{
    for field in fields {
        if !is_number(types, field.kind) {
            return false;
        }
    }
    true
}

/// What is printed where a call's conditions do not hold.
fn not_called(alloc: Global) -> Result<String, AllocError> {
    String::from_str(alloc, "not called")
}

/// The number of a type, or why it is refused.
fn number_of(alloc: Global, added: Result<TypeNo, TypeError>) -> Result<String, AllocError> {
    match added {
        Ok(t) => t.to_string(alloc),
        Err(why) => format!(in alloc; "{why:?}"),
    }
}

/// The number of a pointer type.
pub fn add_pointer(alloc: Global, types: &mut TypeTable, to: TypeNo) -> Result<String, AllocError> {
    if !is_number(types, to) || !has_room(types) {
        return not_called(alloc);
    }
    types.add_pointer(to)?.to_string(alloc)
}

/// The number of an array type, or why it is refused.
pub fn add_array(
    alloc: Global,
    types: &mut TypeTable,
    of: TypeNo,
    count: u32,
) -> Result<String, AllocError> {
    if !is_number(types, of) || !has_room(types) {
        return not_called(alloc);
    }
    number_of(alloc, types.add_array(of, count))
}

/// The number of an open array type, or why it is refused.
pub fn add_flexible(
    alloc: Global,
    types: &mut TypeTable,
    of: TypeNo,
) -> Result<String, AllocError> {
    if !is_number(types, of) || !has_room(types) {
        return not_called(alloc);
    }
    number_of(alloc, types.add_flexible(of))
}

/// The number of a new struct or union.
pub fn add_tag(
    alloc: Global,
    types: &mut TypeTable,
    union_tag: bool,
    name: &str,
) -> Result<String, AllocError> {
    if !has_room(types) {
        return not_called(alloc);
    }
    types
        .add_tag(union_tag, text_of(alloc, name)?)?
        .to_string(alloc)
}

/// Completes a struct or a union, or says why its members are refused.
pub fn complete(
    alloc: Global,
    types: &mut TypeTable,
    tag: TypeNo,
    fields: &[Field],
) -> Result<String, AllocError> {
    if !is_number(types, tag) || !are_fields(types, fields) {
        return not_called(alloc);
    }
    let completed = match types.find(tag) {
        Some(CType::Struct(_)) => types.add_struct(tag, fields),
        Some(CType::Union(_)) => types.add_union(tag, fields),
        _ => return not_called(alloc),
    };
    match completed {
        Ok(()) => String::from_str(alloc, "ok"),
        Err(why) => format!(in alloc; "{why:?}"),
    }
}
