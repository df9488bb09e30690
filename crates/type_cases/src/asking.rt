//! What a table says of its types, as text.

ghost use Rattle.c_types.specs.Table.{IsNumber};

use crate::adding::is_number;
use c_types::{CType, Member, TypeNo, TypeTable};
use std::alloc::{AllocError, Global};

/// A number, if there is one.
fn optional(alloc: Global, n: Option<u32>) -> Result<String, AllocError> {
    match n {
        Some(n) => n.to_string(alloc),
        None => String::from_str(alloc, "-"),
    }
}

/// A member as `NAME:TYPE@OFFSET`.
fn member_text(alloc: Global, member: &Member) -> Result<String, AllocError> {
    let name = String::from_utf8_lossy(alloc, member.name.bytes())?;
    format!(in alloc; "{name}:{}@{}", member.kind, member.offset)
}

/// The size of a type, its alignment, and its members.
pub fn layout(alloc: Global, types: &TypeTable, t: TypeNo) -> Result<String, AllocError> {
    if !is_number(types, t) {
        return String::from_str(alloc, "no type");
    }
    let mut text = optional(alloc, types.size_of(t))?;
    text.push(' ')?;
    text.push_str(optional(alloc, types.align_of(t))?.as_str())?;
    for member in types.members(t) {
        text.push(' ')?;
        text.push_str(member_text(alloc, member)?.as_str())?;
    }
    Ok(text)
}

/// The member at a place, from 0.
pub fn member(
    alloc: Global,
    types: &TypeTable,
    t: TypeNo,
    place: u32,
) -> Result<String, AllocError> {
    if !is_number(types, t) {
        return String::from_str(alloc, "no type");
    }
    match types.members(t).get(place as usize) {
        Some(member) => member_text(alloc, member),
        None => String::from_str(alloc, "no member"),
    }
}

/// What type a number has.
pub fn kind(alloc: Global, types: &TypeTable, t: TypeNo) -> Result<String, AllocError> {
    match types.find(t) {
        Some(kind) => format!(in alloc; "{kind:?}"),
        None => String::from_str(alloc, "no type"),
    }
}

/// The name of a struct or a union.
fn name_of(types: &TypeTable, t: TypeNo) -> &[u8]
    requires { IsNumber types.now t }
{
    match types.get(t) {
        CType::Struct(tag) => types.tag_name(tag),
        CType::Union(tag) => types.tag_name(tag),
        _ => b"no tag",
    }
}

/// The name of a struct or a union in quotation marks.
pub fn tag_name(alloc: Global, types: &TypeTable, t: TypeNo) -> Result<String, AllocError> {
    if !is_number(types, t) {
        return String::from_str(alloc, "no type");
    }
    let name = String::from_utf8_lossy(alloc, name_of(types, t))?;
    format!(in alloc; "\"{name}\"")
}

/// The numbers of the types but incomplete structs and unions, in their order.
pub fn known_types(alloc: Global, types: &TypeTable) -> Result<String, AllocError> {
    let mut text = String::new(alloc);
    let mut mark = "";
    for t in types.known_types() {
        text.push_str(mark)?;
        text.push_str(t.to_string(alloc)?.as_str())?;
        mark = " ";
    }
    Ok(text)
}
