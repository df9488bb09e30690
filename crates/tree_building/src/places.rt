//! Places through pointers and members, and addresses (C11 6.5.2.1, 6.5.2.3, 6.5.3.2).

ghost use Rattle.std.specs.Prelude.{◌≡◌, IfOk, Some};
ghost use Rattle.static_rules.specs.Operands as operands;
ghost use Rattle.static_rules.specs.Places as spec;
ghost use Rattle.well_typed.specs.Surroundings as tree;

use crate::boxes::pair;
use crate::operands::{at, place, unknown};
use c_tree::{Place, Value};
use c_types::TypeNo;
use sqlite_items::Boxed;
use static_rules::{Indexing, Judged, Operand};
use std::alloc::{AllocError, Global};

/// `*pointer`, whose target has this type.
pub fn dereferenced(alloc: Global, line: u32, to: TypeNo, x: Operand) -> Result<Judged, AllocError>
    ensures { IfOk result (λ made. Some made ≡ spec.dereferenced_by line x (Some to)) }
{
    let pointer = Boxed::new(alloc, x.value)?;
    Ok(place(Place::Dereference(at(line, to), pointer), to))
}

/// `pointer[index]` and `index[pointer]`.
pub fn indexed(
    alloc: Global,
    line: u32,
    how: Indexing,
    x: Operand,
    y: Operand,
) -> Result<Judged, AllocError>
    ensures { IfOk result (λ made. Some made ≡ spec.indexed_by line x y (Some how)) }
{
    let (x, y) = pair(alloc, x.value, y.value)?;
    match how {
        Indexing::First(to) => Ok(place(Place::Index(at(line, to), x, y), to)),
        Indexing::Second(to) => Ok(place(Place::IndexFirst(at(line, to), x, y), to)),
    }
}

/// `place.member`: the member's type and its offset.
pub fn member(
    alloc: Global,
    line: u32,
    kind: TypeNo,
    offset: u32,
    inner: Place,
) -> Result<Judged, AllocError>
    ensures { IfOk result (λ made. made ≡ operands.place (Place.Member (tree.at line kind) inner offset) kind) }
{
    let inner = Boxed::new(alloc, inner)?;
    Ok(place(Place::Member(at(line, kind), inner, offset), kind))
}

/// `pointer->member`: the member's type and its offset.
pub fn arrow(
    alloc: Global,
    line: u32,
    kind: TypeNo,
    offset: u32,
    x: Operand,
) -> Result<Judged, AllocError>
    ensures { IfOk result (λ made. made ≡ operands.place (Place.Arrow (tree.at line kind) x.value offset) kind) }
{
    let pointer = Boxed::new(alloc, x.value)?;
    Ok(place(Place::Arrow(at(line, kind), pointer, offset), kind))
}

/// `&place`, of this pointer type.
pub fn address(alloc: Global, line: u32, kind: TypeNo, of: Place) -> Result<Operand, AllocError>
    ensures { IfOk result (λ made. made ≡ operands.unknown (Value.Address (tree.at line kind) of) kind) }
{
    let of = Boxed::new(alloc, of)?;
    Ok(unknown(Value::Address(at(line, kind), of), kind))
}
