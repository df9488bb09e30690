//! Casts (C11 6.5.4).

ghost use Rattle.std.specs.Prelude.{◌≡◌, Some};
ghost use Rattle.static_rules.specs.Casts as spec;
ghost use Rattle.static_rules.specs.Operands.{seen};
ghost use Rattle.static_rules.specs.declared.judged.Operand.{Operand};

use crate::constants::known_as;
use crate::conversions::is_null;
use crate::kinds::{VOID, has_size, is_whole, target};
use c_types::{TypeNo, TypeTable};
use static_rules::{Casting, CheckKind, Feature, Known, Seen};

/// What is answered of a cast between a pointer and a whole number.
fn left_out() -> Result<Casting, CheckKind>
    ensures { result ≡ spec.left_out }
{
    Err(CheckKind::LeftOut(Feature::PointerNumber))
}

fn mismatch() -> Result<Casting, CheckKind>
    ensures { result ≡ spec.mismatch }
{
    Err(CheckKind::TypeMismatch)
}

fn to_whole(types: &TypeTable, x: Seen) -> Result<Casting, CheckKind>
    ensures { result ≡ spec.to_whole types.now x }
{
    if is_whole(x.kind) {
        Ok(Casting::Whole)
    } else if target(types, x.kind).is_some() {
        left_out()
    } else {
        mismatch()
    }
}

/// A pointer to one type as a pointer to another.
fn from_pointer(
    types: &TypeTable,
    wanted: TypeNo,
    x: Seen,
    has: TypeNo,
) -> Result<Casting, CheckKind>
    ensures { result ≡ spec.from_pointer types.now wanted x has }
{
    if wanted == VOID {
        Ok(Casting::Keep)
    } else if has != VOID || !x.allocates {
        Ok(Casting::Check)
    } else if has_size(types, wanted) {
        Ok(Casting::Allocate(wanted))
    } else {
        mismatch()
    }
}

fn to_pointer(types: &TypeTable, wanted: TypeNo, x: Seen) -> Result<Casting, CheckKind>
    ensures { result ≡ spec.to_pointer_by types.now x (Some wanted) }
{
    if is_null(x) {
        return Ok(Casting::Null);
    }
    match target(types, x.kind) {
        Some(has) => from_pointer(types, wanted, x, has),
        None => {
            if is_whole(x.kind) {
                left_out()
            } else {
                mismatch()
            }
        }
    }
}

/// What a cast to a type does: to void with any value, to a whole number with one, to a pointer with a null pointer
/// constant and any pointer. Else it is why there is no such cast.
#[tactic(auto, unfolding(static_rules::specs::Casts::planned_cast))]
pub fn planned_cast(types: &TypeTable, to: TypeNo, x: Seen) -> Result<Casting, CheckKind>
    ensures { result ≡ spec.planned_cast types.now to x }
{
    if to == VOID {
        return Ok(Casting::Discard);
    }
    if is_whole(to) {
        return to_whole(types, x);
    }
    match target(types, to) {
        Some(wanted) => to_pointer(types, wanted, x),
        None => mismatch(),
    }
}

/// What is known of a null pointer constant as a pointer: 0 as a `void *` is a null pointer constant itself, and no
/// other is (C11 6.3.2.3p3).
fn known_null(wanted: Option<TypeNo>, kind: TypeNo) -> Known
    ensures { result ≡ spec.known_null wanted kind }
{
    if is_whole(kind) && wanted == Some(VOID) {
        Known::NullPointer
    } else {
        Known::Nothing
    }
}

/// What is known of the result of a cast.
pub fn known_cast(types: &TypeTable, to: TypeNo, how: Casting, x: Seen) -> Known
    ensures { (operand : Operand) → seen operand ≡ x → result ≡ spec.known_cast types.now to how operand }
{
    match how {
        Casting::Whole => known_as(to, x.known),
        Casting::Null => known_null(target(types, to), x.kind),
        Casting::Discard | Casting::Keep | Casting::Allocate(_) | Casting::Check => Known::Nothing,
    }
}
