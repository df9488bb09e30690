//! Which runs match a wanted type.

ghost use Rattle.std.specs.Prelude.{◌≡◌, ◌≤◌, ◌<◌, ◌+◌, ◌*◌, ◌^◌, Some, IfSome};
ghost use Rattle.c_types.specs.Shapes.{is_open as is_open_shape, size as size_of};
ghost use Rattle.c_types.specs.Table.{HasSize, IsNumber, shape_of};
ghost use Rattle.type_layout.specs.Matches as matches;
ghost use Rattle.type_layout.specs.Preferred as spec;
ghost use Rattle.layout_table.specs.Known as kinds;
ghost use Rattle.layout_table.specs.Stored.{key_of as spec_key_of};

use crate::known::KnownTypes;
use c_types::{CType, TypeNo, TypeTable};
use type_layout::Match;

/// The number of `void`.
const VOID: TypeNo = 1;

/// The key of all pointers.
const POINTER_KEY: u32 = 9;

/// The tier in which two types match that are not the same.
fn tier_of_kinds(kind: CType, want: CType) -> Option<u32>
    ensures { result ≡ kinds.tier_of_kinds kind want }
{
    match (kind, want) {
        (CType::Num(a, _), CType::Num(b, _)) if a == b => Some(1),
        (CType::Pointer(a), CType::Pointer(b)) if a == VOID || b == VOID => Some(2),
        _ => None,
    }
}

/// The tier in which a run of a type matches a wanted type, if it does.
fn tier(types: &KnownTypes, kind: TypeNo, want: TypeNo) -> Option<u32>
    requires kind { IsNumber types.now kind }
    requires want { IsNumber types.now want }
    ensures { result ≡ matches.tier_of (shape_of types.now kind) (shape_of types.now want) }
{
    if kind == want {
        return Some(1);
    }
    tier_of_kinds(types.get(kind), types.get(want))
}

/// The key of a type of a number, which types have alike that may match.
pub(crate) fn key_of_kind(kind: CType, t: TypeNo) -> u32
    ensures { result ≡ kinds.key_of_kind kind t }
{
    match kind {
        CType::Num(width, _) => width,
        CType::Pointer(_) => POINTER_KEY,
        CType::Void | CType::Array(..) | CType::Flexible(_) | CType::Struct(_) | CType::Union(_) =>
            t,
    }
}

/// The key of a type.
#[tactic(auto, using(crate::proofs::Tiers::key_known))]
pub(crate) fn key_of(types: &KnownTypes, t: TypeNo) -> u32
    requires { IsNumber types.now t }
    ensures { result ≡ spec_key_of (shape_of types.now t) }
{
    key_of_kind(types.get(t), t)
}

/// Whether a type is an array that is open at its end.
fn is_open_kind(kind: CType) -> bool
    ensures { result ≡ kinds.is_open_kind kind }
{
    matches!(kind, CType::Flexible(_))
}

/// Whether the type of a number is an array that is open at its end.
#[tactic(auto, using(crate::proofs::Tiers::open_known))]
pub(crate) fn is_open(types: &TypeTable, t: TypeNo) -> bool
    requires { IsNumber types.now t }
    ensures { result ≡ is_open_shape (shape_of types.now t) }
{
    is_open_kind(types.get(t))
}

/// The match of so many values of a type, from an offset, if they match.
pub(crate) fn matched(
    types: &KnownTypes,
    kind: TypeNo,
    lo: u64,
    count: u64,
    step: u64,
    want: TypeNo,
) -> Option<Match>
    requires kind { IsNumber types.now kind }
    requires want { IsNumber types.now want }
    requires step { step ≡ size_of (shape_of types.now kind) }
    requires sized { 0 < step }
    requires fits { lo + count * step < 2 ^ 64 }
    ensures value { result ≡ spec.run_match (shape_of types.now want) (record { kind = shape_of types.now kind; lo = lo; count = count }) }
    ensures step { IfSome result (λ m. 0 < m.step) }
{
    let tier = tier(types, kind, want)?;
    Some(Match {
        tier,
        lo,
        hi: lo + count * step,
        step,
    })
}

/// Whether a type is one of the character types.
#[tactic(auto, unfolding(c_types::specs::Table::shape_of))]
fn is_character(types: &KnownTypes, t: TypeNo) -> bool
    requires { IsNumber types.now t }
    ensures { result ≡ matches.is_character (shape_of types.now t) }
{
    matches!(types.get(t), CType::Num(1, _))
}

/// The match of the whole object, if it matches.
pub(crate) fn object_match(
    types: &KnownTypes,
    elem: TypeNo,
    size: u64,
    want: TypeNo,
) -> Option<Match>
    requires elem { IsNumber types.now elem }
    requires want { IsNumber types.now want }
    ensures value { result ≡ spec.object_match (shape_of types.now elem) size (shape_of types.now want) }
    ensures step { IfSome result (λ m. 0 < m.step) }
{
    let tier = if is_character(types, want) {
        2
    } else if is_character(types, elem) {
        3
    } else {
        return None;
    };
    Some(Match {
        tier,
        lo: 0,
        hi: size,
        step: 1,
    })
}
