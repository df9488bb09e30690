//! The types of the cases: the nine basic ones, and five more.

ghost use Rattle.std.specs.Prelude.{IsTrue};
ghost use Rattle.c_types.specs.Table.{IsNumber};
ghost use Rattle.c_types.specs.Calls.{AreFields};

use c_types::{CType, Field, Text, TypeError, TypeNo, TypeTable};
use layout_table::Table;
use std::alloc::{AllocError, Global};
use std::io;

/// More types than there are in the cases.
const MANY: usize = 1000;

const VOID: TypeNo = 1;

const CHAR: TypeNo = 2;

const INT: TypeNo = 6;

/// The number of a type of the cases, or 0. `S` is `struct S { int *p; int n; int a[2]; char s[4]; }`.
pub fn type_no(word: &str) -> TypeNo {
    match word {
        "void" => VOID,
        "char" => CHAR,
        "uchar" => 3,
        "short" => 4,
        "ushort" => 5,
        "int" => INT,
        "uint" => 7,
        "long" => 8,
        "ulong" => 9,
        "void*" => 10,
        "int*" => 11,
        "int[2]" => 12,
        "char[4]" => 13,
        "S" => 14,
        _ => 0,
    }
}

/// Whether a number is one of the types.
fn is_number(types: &TypeTable, t: TypeNo) -> bool
    ensures { IsTrue result → IsNumber types.now t }
{
    1 <= t && t as usize <= types.len()
}

/// Whether all fields are of types of the table.
fn are_fields(types: &TypeTable, fields: &[Field]) -> bool
    ensures { IsTrue result → AreFields types.now fields.now }
{
    for field in fields {
        if !is_number(types, field.kind) {
            return false;
        }
    }
    true
}

fn refused<T>(_: T) -> io::Error
where
    T: Drop,
{
    io::Error::other("a type is refused")
}

fn add_pointer(types: &mut TypeTable, to: TypeNo) -> io::Result<TypeNo> {
    if !is_number(types, to) || types.len() >= MANY {
        return Err(io::Error::other("no type"));
    }
    Ok(types.add_pointer(to)?)
}

fn add_array(types: &mut TypeTable, of: TypeNo, count: u32) -> io::Result<TypeNo> {
    if !is_number(types, of) || types.len() >= MANY {
        return Err(io::Error::other("no type"));
    }
    types.add_array(of, count).map_err(refused)
}

fn field_of(alloc: Global, name: u8, kind: TypeNo) -> Result<Field, AllocError> {
    let mut text = Text::new(alloc);
    text.push(name)?;
    Ok(Field { name: text, kind })
}

fn add_struct(types: &mut TypeTable, alloc: Global, fields: &[Field]) -> io::Result<()> {
    if types.len() >= MANY {
        return Err(io::Error::other("too many types"));
    }
    let tag = types.add_tag(false, Text::new(alloc))?;
    if !is_number(types, tag) || !are_fields(types, fields) {
        return Err(io::Error::other("no type"));
    }
    match types.find(tag) {
        Some(CType::Struct(_)) => types.add_struct(tag, fields).map_err(refused),
        _ => Err(io::Error::other("no struct")),
    }
}

/// The layouts of these types.
pub fn table(alloc: Global) -> io::Result<Table> {
    let mut types = TypeTable::new(alloc)?;
    add_pointer(&mut types, VOID)?;
    let to_int = add_pointer(&mut types, INT)?;
    let two_ints = add_array(&mut types, INT, 2)?;
    let four_chars = add_array(&mut types, CHAR, 4)?;
    let mut fields = Vec::new(alloc);
    fields.push(field_of(alloc, b'p', to_int)?)?;
    fields.push(field_of(alloc, b'n', INT)?)?;
    fields.push(field_of(alloc, b'a', two_ints)?)?;
    fields.push(field_of(alloc, b's', four_chars)?)?;
    add_struct(&mut types, alloc, fields.as_slice())?;
    Table::build(alloc, &types).map_err(refused)
}
