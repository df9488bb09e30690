//! The names of types.

ghost use Rattle.std.specs.Prelude.{◌≡◌, ◌≤◌, ◌++◌, OnOk, length, replicate, [], Some};
ghost use Rattle.reports.specs.TypeNames.{kind_name, type_name};

use c_types::{CType, TypeNo, TypeTable};
use plain_meaning::Text;
use std::alloc::AllocError;

/// The name of a type, without that of what it points to.
fn base_name(kind: CType) -> &'static [u8]
    ensures { result.now ≡ kind_name (λ to. []) (Some kind) }
{
    match kind {
        CType::Void => b"void",
        CType::Num(1, true) => b"char",
        CType::Num(1, false) => b"unsigned char",
        CType::Num(2, true) => b"short",
        CType::Num(2, false) => b"unsigned short",
        CType::Num(4, true) => b"int",
        CType::Num(4, false) => b"unsigned int",
        CType::Num(_, true) => b"long",
        CType::Num(_, false) => b"unsigned long",
        CType::Pointer(_) => b"*",
        CType::Array(..) | CType::Flexible(_) | CType::Struct(_) | CType::Union(_) => b"",
    }
}

/// The name of what is at the end of a row of pointers, and how many they are. The number 0, which is no type's, has no name.
fn base_and_stars(types: &TypeTable, number: TypeNo) -> (&'static [u8], u32)
    requires { number ≤ length types.now.kinds }
    ensures { result.0.now ++ replicate result.1 42 ≡ type_name types.now number }
{
    let mut at = number;
    for pointers in 0..number {
        match types.get(at) {
            CType::Pointer(to) => at = to,
            kind => return (base_name(kind), pointers),
        }
    }
    (b"", number)
}

/// Adds the name of the type of a number.
pub fn append_type(to: &mut Text, types: &TypeTable, number: TypeNo) -> Result<(), AllocError>
    requires { number ≤ length types.now.kinds }
    ensures { OnOk result (to.new ≡ to.old ++ type_name types.now number) }
{
    let (base, pointers) = base_and_stars(types, number);
    to.append(base)?;
    for _ in 0..pointers {
        to.push(b'*')?;
    }
    Ok(())
}
