//! Conversions as by assignment (C11 6.5.16.1).

ghost use Rattle.std.specs.Prelude.{◌≡◌};
ghost use Rattle.static_rules.specs.Operands as spec;
ghost use Rattle.well_typed.specs.Kinds.{target};

use crate::kinds::{VOID, has_size, is_whole, target};
use c_types::{TypeNo, TypeTable};
use static_rules::{Change, Known, Seen};

/// Whether it is a null pointer constant (C11 6.3.2.3p3).
pub fn is_null(x: Seen) -> bool
    ensures { result ≡ spec.is_null x }
{
    match x.known {
        Known::Number(n) => n == 0,
        Known::NullPointer => true,
        Known::Traps | Known::Nothing => false,
    }
}

/// A whole number as one of a whole-number type.
pub fn to_whole(to: TypeNo, x: Seen) -> Change
    ensures { result ≡ spec.to_whole to x }
{
    if x.kind == to {
        Change::Stay
    } else {
        Change::Whole(to)
    }
}

/// A `void *` as a pointer to a type.
fn from_void(types: &TypeTable, to: TypeNo, wanted: TypeNo, x: Seen) -> Option<Change>
    ensures { result ≡ spec.from_void types.now to wanted x }
{
    if !x.allocates {
        Some(Change::Check(to))
    } else if has_size(types, wanted) {
        Some(Change::Allocate(to, wanted))
    } else {
        None
    }
}

/// A pointer as one of another type: one of the two is `void *`.
fn between_pointers(types: &TypeTable, to: TypeNo, wanted: TypeNo, x: Seen) -> Option<Change>
    ensures { result ≡ spec.between_pointers types.now to wanted x (target types.now x.kind) }
{
    let has = target(types, x.kind)?;
    if has == VOID {
        from_void(types, to, wanted, x)
    } else if wanted == VOID {
        Some(Change::Keep(to))
    } else {
        None
    }
}

/// A value as a pointer of a type.
fn to_pointer(types: &TypeTable, to: TypeNo, x: Seen) -> Option<Change>
    ensures { result ≡ spec.to_pointer types.now to x (target types.now to) }
{
    let wanted = target(types, to)?;
    if is_null(x) {
        Some(Change::Null(to))
    } else if x.kind == to {
        Some(Change::Stay)
    } else {
        between_pointers(types, to, wanted, x)
    }
}

/// How a value becomes one of a type: between whole numbers, between equal pointer types, between `void *` and any
/// pointer, and from a null pointer constant. Nothing is answered for others.
#[tactic(auto, unfolding(static_rules::specs::Operands::conversion))]
pub fn conversion(types: &TypeTable, to: TypeNo, x: Seen) -> Option<Change>
    ensures { result ≡ spec.conversion types.now to x }
{
    if !is_whole(to) {
        to_pointer(types, to, x)
    } else if is_whole(x.kind) {
        Some(to_whole(to, x))
    } else {
        None
    }
}
