//! Types by their numbers in a table. A number that the table lacks is the type of nothing.

ghost use Rattle.std.specs.Prelude.{◌≡◌};
ghost use Rattle.well_typed.specs.Kinds as spec;
ghost use Rattle.whole_numbers.specs.Types.{IsNumberOf};

use c_types::{CType, TypeNo, TypeTable};
use whole_numbers::{
    WholeType, Width, bits_of, common, law_conversion, law_values, number_of as number_of_bits,
};

/// The number of `void`.
pub const VOID: TypeNo = 1;

/// The number of `char`, the first of the whole-number types.
pub const CHAR: TypeNo = 2;

pub const UNSIGNED_CHAR: TypeNo = 3;

pub const SHORT: TypeNo = 4;

pub const UNSIGNED_SHORT: TypeNo = 5;

pub const INT: TypeNo = 6;

pub const UNSIGNED_INT: TypeNo = 7;

pub const LONG: TypeNo = 8;

/// The number of `unsigned long`, the last of the whole-number types.
pub const UNSIGNED_LONG: TypeNo = 9;

/// The whole-number types in the order of their numbers.
const WHOLE_TYPES: [WholeType; 8] = [
    WholeType::CHAR,
    WholeType::UNSIGNED_CHAR,
    WholeType::SHORT,
    WholeType::UNSIGNED_SHORT,
    WholeType::INT,
    WholeType::UNSIGNED_INT,
    WholeType::LONG,
    WholeType::UNSIGNED_LONG,
];

/// Whether it is the number of a whole-number type (C11 6.2.5p17).
pub fn is_whole(kind: TypeNo) -> bool
    ensures { result ≡ spec.is_whole kind }
{
    CHAR <= kind && kind <= UNSIGNED_LONG
}

/// The whole-number type of a number.
pub fn whole_type(kind: TypeNo) -> WholeType
    ensures { result ≡ spec.whole_type kind }
{
    match WHOLE_TYPES.get(kind.saturating_sub(CHAR) as usize) {
        Some(found) => *found,
        None => WholeType::INT,
    }
}

/// The number of a whole-number type.
pub fn number_of(kind: WholeType) -> TypeNo
    ensures { result ≡ spec.number_of kind }
{
    match (kind.width, kind.signed) {
        (Width::One, true) => CHAR,
        (Width::One, false) => UNSIGNED_CHAR,
        (Width::Two, true) => SHORT,
        (Width::Two, false) => UNSIGNED_SHORT,
        (Width::Four, true) => INT,
        (Width::Four, false) => UNSIGNED_INT,
        (Width::Eight, true) => LONG,
        (Width::Eight, false) => UNSIGNED_LONG,
    }
}

/// The type after the integer promotions (C11 6.3.1.1p2).
#[tactic(auto, unfolding(well_typed::specs::Kinds::promoted))]
pub fn promoted(kind: TypeNo) -> TypeNo
    ensures { result ≡ spec.promoted kind }
{
    number_of(whole_type(kind).promoted())
}

/// The type that two whole numbers become (C11 6.3.1.8).
#[tactic(auto, unfolding(well_typed::specs::Kinds::usual))]
pub fn usual(a: TypeNo, b: TypeNo) -> TypeNo
    ensures { result ≡ spec.usual a b }
{
    number_of(common(whole_type(a), whole_type(b)))
}

/// A number as one of a whole-number type (C11 6.3.1.3).
pub fn wrapped(kind: TypeNo, value: i128) -> i128
    ensures value { result ≡ spec.wrapped kind value }
    ensures kept { IsNumberOf (spec.whole_type kind) result }
{
    law_conversion();
    law_values();
    let kind = whole_type(kind);
    number_of_bits(kind, bits_of(kind, value))
}

/// What a pointer type points to.
#[tactic(auto, unfolding(well_typed::specs::Kinds::target))]
pub fn target(types: &TypeTable, kind: TypeNo) -> Option<TypeNo>
    ensures { result ≡ spec.target types.now kind }
{
    match types.find(kind) {
        Some(CType::Pointer(to)) => Some(to),
        _ => None,
    }
}

/// The type of the elements of an array, also of one that is open at its end.
#[tactic(auto, unfolding(well_typed::specs::Kinds::element))]
pub fn element(types: &TypeTable, kind: TypeNo) -> Option<TypeNo>
    ensures { result ≡ spec.element types.now kind }
{
    match types.find(kind) {
        Some(CType::Array(of, _) | CType::Flexible(of)) => Some(of),
        _ => None,
    }
}

/// Whether it is a struct or a union.
#[tactic(auto, unfolding(well_typed::specs::Kinds::is_aggregate))]
pub fn is_aggregate(types: &TypeTable, kind: TypeNo) -> bool
    ensures { result ≡ spec.is_aggregate types.now kind }
{
    matches!(types.find(kind), Some(CType::Struct(_) | CType::Union(_)))
}

/// Whether it is a whole number or a pointer (C11 6.2.5p21).
#[tactic(auto, unfolding(well_typed::specs::Kinds::is_scalar))]
pub fn is_scalar(types: &TypeTable, kind: TypeNo) -> bool
    ensures { result ≡ spec.is_scalar types.now kind }
{
    is_whole(kind) || target(types, kind).is_some()
}

/// Whether the table has the type, and the type a size.
#[tactic(auto, unfolding(well_typed::specs::Kinds::has_size))]
pub fn has_size(types: &TypeTable, kind: TypeNo) -> bool
    ensures { result ≡ spec.has_size types.now kind }
{
    types.find(kind).is_some() && types.size_of(kind).is_some()
}

/// The target of a pointer type, where it has a size.
#[tactic(auto, unfolding(well_typed::specs::Kinds::sized_target))]
pub fn sized_target(types: &TypeTable, kind: TypeNo) -> Option<TypeNo>
    ensures { result ≡ spec.sized_target types.now kind }
{
    let to = target(types, kind)?;
    has_size(types, to).then_some(to)
}

/// Whether it is `void *`.
#[tactic(auto, unfolding(well_typed::specs::Kinds::is_void_pointer))]
pub fn is_void_pointer(types: &TypeTable, kind: TypeNo) -> bool
    ensures { result ≡ spec.is_void_pointer types.now kind }
{
    target(types, kind) == Some(VOID)
}
