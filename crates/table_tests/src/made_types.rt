//! Types that are made for tests.

ghost use Rattle.std.specs.Prelude.{IsTrue};
ghost use Rattle.c_types.specs.Table.{HasSize, IsNumber};
ghost use Rattle.c_types.specs.Calls.{AreFields};

use c_types::{CType, Field, Text, TypeNo, TypeTable};
use layout_table::Table;
use std::alloc::Global;
use std::test::Fail;

/// More types than a test makes.
const MANY: usize = 1000;

/// The largest object.
const LARGEST: u64 = 1_048_559;

/// Whether a number is one of the table.
fn is_number(types: &TypeTable, t: TypeNo) -> bool
    ensures { IsTrue result → IsNumber types.now t }
{
    1 <= t && t as usize <= types.len()
}

/// Whether a type has a size.
pub fn has_size(types: &TypeTable, t: TypeNo) -> bool
    ensures { IsTrue result → HasSize types.now t }
{
    is_number(types, t) && types.size_of(t).is_some()
}

/// Whether all fields are of types of the table.
fn are_fields(types: &TypeTable, fields: &[Field]) -> bool
    ensures { IsTrue result → AreFields types.now fields.now }
{
    for field in fields {
        if !is_number(types, field.kind) {
            return false;
        }
    }
    true
}

pub fn pointer(types: &mut TypeTable, to: TypeNo) -> Result<TypeNo, Fail> {
    if !is_number(types, to) || types.len() >= MANY {
        return Err(Fail::from("no type"));
    }
    Ok(types.add_pointer(to)?)
}

pub fn array(types: &mut TypeTable, of: TypeNo, count: u32) -> Result<TypeNo, Fail> {
    if !is_number(types, of) || types.len() >= MANY {
        return Err(Fail::from("no type"));
    }
    Ok(types.add_array(of, count)?)
}

pub fn flexible(types: &mut TypeTable, of: TypeNo) -> Result<TypeNo, Fail> {
    if !is_number(types, of) || types.len() >= MANY {
        return Err(Fail::from("no type"));
    }
    Ok(types.add_flexible(of)?)
}

/// The name of a member: its number in four digits.
fn name_of(alloc: Global, i: usize) -> Result<Text, Fail> {
    let mut name = Text::new(alloc);
    name.push(b'0' + (i / 1000 % 10) as u8)?;
    name.push(b'0' + (i / 100 % 10) as u8)?;
    name.push(b'0' + (i / 10 % 10) as u8)?;
    name.push(b'0' + (i % 10) as u8)?;
    Ok(name)
}

/// Members of these types.
fn fields_of(alloc: Global, kinds: &[TypeNo]) -> Result<Vec<Field>, Fail> {
    let mut fields = Vec::new(alloc);
    for (i, kind) in kinds.iter().enumerate() {
        let name = name_of(alloc, i)?;
        fields.push(Field { name, kind: *kind })?;
    }
    Ok(fields)
}

/// Completes a tag.
fn complete(types: &mut TypeTable, tag: TypeNo, fields: &[Field]) -> Result<(), Fail> {
    if !are_fields(types, fields) {
        return Err(Fail::from("a field is of no type"));
    }
    match types.find(tag) {
        Some(CType::Struct(_)) => types.add_struct(tag, fields)?,
        Some(CType::Union(_)) => types.add_union(tag, fields)?,
        _ => return Err(Fail::from("no tag")),
    }
    Ok(())
}

/// A struct or a union of members of these types.
pub fn tagged(
    alloc: Global,
    types: &mut TypeTable,
    union_tag: bool,
    kinds: &[TypeNo],
) -> Result<TypeNo, Fail> {
    if types.len() >= MANY {
        return Err(Fail::from("too many types"));
    }
    let tag = types.add_tag(union_tag, Text::new(alloc))?;
    let fields = fields_of(alloc, kinds)?;
    complete(types, tag, fields.as_slice())?;
    Ok(tag)
}

/// The bounds that a table has, where it may be asked.
pub fn bounds_in(
    table: &Table,
    elem: TypeNo,
    size: u64,
    k: u64,
    want: TypeNo,
) -> Result<Option<(u64, u64)>, Fail> {
    if !table.has(elem) || !table.has(want) || size > LARGEST {
        return Err(Fail::from("no size"));
    }
    Ok(
        table
            .lookup(elem, size, k, want)
            .map(|found| (found.lo, found.hi)),
    )
}
