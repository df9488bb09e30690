//! The members that complete a tag: what is tested of them, in its order, and where they stand.

ghost use Rattle.std.specs.Prelude.{ℕ, ◌≡◌, ◌+◌, ◌≤◌, ◌<◌, ◌||◌, ◌∷◌, [], length, max, map, IfOk, IsFalse};
ghost use Rattle.c_types.specs.declared.kinds.TypeError.TheVariants as why;
ghost use Rattle.c_types.specs.Shapes as trees;
ghost use Rattle.c_types.specs.Table.{IsNumber, fields_of, shape_of, members_of_fields};
ghost use Rattle.c_types.specs.Adding as spec;
ghost use Rattle.c_types.specs.Adding.{any, first_of, shapes, members_fault, fault_beside, tag_of};
ghost use Rattle.c_types.specs.Calls.{Refuses, IsTagOf, AreFields};
ghost use Rattle.c_types.specs.Rows.{IsLaid, IsSmall, IsSomeTag, field_of, has_fields, has_form, members_as, row_of};
ghost use Rattle.c_types.specs.Extents.{offset_after, extent_of, too_large, row_within};

use crate::kinds::{Field, Member, TypeError, TypeNo};
use crate::rows::{Form, TypeRow, rounded_up};
use crate::table::TypeTable;
use byte_texts::Text;
use sqlite_items::Items;
use std::alloc::{AllocError, Global};
use std::collections::BTreeSet;

/// The bytes of the largest object.
const LARGEST: u32 = 1_048_559;

/// The members of a tag with their offsets, and the row of the struct or union that they complete.
#[derive(Drop)]
pub(crate) struct Laid {
    pub(crate) tag: u32,
    pub(crate) members: Items<Member>,
    pub(crate) row: TypeRow,
}

/// Whether two fields have one name. An ordered set keeps it fast whatever the names are.
fn has_two_of_a_name(alloc: Global, fields: &[Field]) -> Result<bool, AllocError>
    ensures { IfOk result (λ two. two ≡ spec.has_two_of_a_name fields.now) }
{
    let mut names: BTreeSet<Vec<u8>> = BTreeSet::new(alloc);
    for field in fields {
        let name = Vec::from_slice(alloc, field.name.bytes())?;
        if !names.insert(name)? {
            return Ok(true);
        }
    }
    Ok(false)
}

/// Whether a field's type is of this form.
fn has(types: &TypeTable, field: &Field, form: Form) -> bool
    requires { IsNumber types.now field.now.kind }
    ensures { result ≡ has_form form (shape_of types.now field.now.kind) }
{
    types.row(field.kind).form == form
}

/// Whether a field is of a type of this form.
fn any_has(types: &TypeTable, fields: &[Field], form: Form) -> bool
    requires { AreFields types.now fields.now }
    ensures { result ≡ any (has_form form) (shapes (shape_of types.now) fields.now) }
{
    for field in fields {
        if has(types, field, form) {
            return true;
        }
    }
    false
}

/// Whether there is no field, or a flexible member alone.
fn is_empty(types: &TypeTable, fields: &[Field]) -> bool
    requires { AreFields types.now fields.now }
    ensures { result ≡ spec.is_empty (shapes (shape_of types.now) fields.now) }
{
    match fields {
        [] => true,
        [one] => has(types, one, Form::Open),
        _ => false,
    }
}

/// Whether a flexible member is not the last of a struct.
fn misplaced(types: &TypeTable, union_tag: bool, fields: &[Field]) -> bool
    requires { AreFields types.now fields.now }
    ensures { result ≡ spec.misplaced union_tag (shapes (shape_of types.now) fields.now) }
{
    if union_tag {
        return any_has(types, fields, Form::Open);
    }
    match fields.split_last() {
        None => false,
        Some((_, firsts)) => any_has(types, firsts, Form::Open),
    }
}

/// Why fields are no members, but for their names and their size.
fn misuse(types: &TypeTable, union_tag: bool, fields: &[Field]) -> Option<TypeError>
    requires { AreFields types.now fields.now }
    ensures { result ≡ first_of ((spec.is_empty (shapes (shape_of types.now) fields.now), why.Empty) ∷ (spec.misplaced union_tag (shapes (shape_of types.now) fields.now) || any trees.is_flexible (shapes (shape_of types.now) fields.now), why.BadFlexible) ∷ (any spec.is_unsized (shapes (shape_of types.now) fields.now), why.Incomplete) ∷ []) }
{
    if is_empty(types, fields) {
        return Some(TypeError::Empty);
    }
    if misplaced(types, union_tag, fields) || any_has(types, fields, Form::Extended) {
        return Some(TypeError::BadFlexible);
    }
    if any_has(types, fields, Form::Unsized) {
        return Some(TypeError::Incomplete);
    }
    None
}

/// How far the members of a struct or a union reach so far, and the greatest alignment of them, in bytes.
#[derive(Clone, Copy)]
struct Extent {
    end: u32,
    alignment: u32,
}

impl Extent {
    /// Where the next member stands.
    fn offset(self, union_tag: bool, next: TypeRow) -> u32
        requires next { IsSmall next }
        requires small { self.end ≤ spec.largest }
        ensures value { result ≡ offset_after union_tag next.alignment self.end }
        ensures near { result < self.end + 8 }
    {
        if union_tag {
            0
        } else {
            rounded_up(next.alignment, self.end)
        }
    }

    /// The extent with the next member, which stands at an offset.
    fn with(self, offset: u32, next: TypeRow) -> Extent
        requires next { IsSmall next }
        requires small { offset ≤ spec.largest + 8 }
        ensures { result ≡ record { end = max self.end (offset + next.size); alignment = max self.alignment next.alignment } }
    {
        Extent {
            end: self.end.max(offset + next.size),
            alignment: self.alignment.max(next.alignment),
        }
    }
}

/// A member at an offset.
fn member_of(alloc: Global, field: &Field, offset: u32) -> Result<Member, AllocError>
    ensures { IfOk result (λ member. member ≡ record { name = field.now.name; kind = field.now.kind; offset = offset }) }
{
    let mut name = Text::new(alloc);
    name.append(field.name.bytes())?;
    Ok(Member {
        name,
        kind: field.kind,
        offset,
    })
}

/// The members with their offsets, and how far they reach.
fn placed(
    alloc: Global,
    types: &TypeTable,
    union_tag: bool,
    fields: &[Field],
) -> Result<(Items<Member>, Extent), TypeError>
    requires fields { AreFields types.now fields.now }
    requires order { IsFalse (spec.misplaced union_tag (shapes (shape_of types.now) fields.now)) }
    ensures members { IfOk result (λ placed. placed.0 ≡ members_as union_tag (shape_of types.now) fields.now) }
    ensures extent { IfOk result (λ placed. placed.1 ≡ extent_of union_tag (members_of_fields (shape_of types.now) fields.now)) }
    ensures small { IfOk result (λ placed. placed.1.end ≤ spec.largest) }
    ensures first { IfOk result (λ placed. 1 ≤ placed.1.alignment) }
    ensures few { IfOk result (λ placed. placed.1.alignment ≤ 8) }
    ensures fault { Refuses result (too_large (extent_of union_tag (members_of_fields (shape_of types.now) fields.now)).end) }
{
    types.law();
    let mut members = Items::new(alloc);
    let mut extent = Extent {
        end: 0,
        alignment: 1,
    };
    for field in fields {
        let row = types.row(field.kind);
        let offset = extent.offset(union_tag, row);
        let next = extent.with(offset, row);
        if next.end > LARGEST {
            return Err(TypeError::TooLarge);
        }
        let member = member_of(alloc, field, offset)?;
        members.push(member)?;
        extent = next;
    }
    Ok((members, extent))
}

/// The row of a struct or a union with members of such an extent.
fn whole_row(extent: Extent, ends_open: bool) -> Option<TypeRow>
    requires first { 1 ≤ extent.alignment }
    requires alignment { extent.alignment ≤ 8 }
    requires small { extent.end ≤ spec.largest }
    ensures { result ≡ row_within extent ends_open }
{
    let size = rounded_up(extent.alignment, extent.end);
    if size > LARGEST {
        return None;
    }
    let form = if ends_open {
        Form::Extended
    } else {
        Form::Sized
    };
    Some(TypeRow {
        form,
        size,
        alignment: extent.alignment,
    })
}

/// The members with their offsets, and the row of what they complete.
fn shaped(
    alloc: Global,
    types: &TypeTable,
    union_tag: bool,
    fields: &[Field],
) -> Result<(Items<Member>, TypeRow), TypeError>
    requires fields { AreFields types.now fields.now }
    requires order { IsFalse (spec.misplaced union_tag (shapes (shape_of types.now) fields.now)) }
    ensures members { IfOk result (λ shaped. shaped.0 ≡ members_as union_tag (shape_of types.now) fields.now) }
    ensures row { IfOk result (λ shaped. (n : ℕ) → shaped.1 ≡ row_of (spec.whole_of union_tag n (members_of_fields (shape_of types.now) fields.now))) }
    ensures fault { Refuses result (too_large (trees.size (spec.whole_of union_tag 0 (members_of_fields (shape_of types.now) fields.now)))) }
{
    let (members, extent) = placed(alloc, types, union_tag, fields)?;
    match whole_row(extent, any_has(types, fields, Form::Open)) {
        None => Err(TypeError::TooLarge),
        Some(row) => Ok((members, row)),
    }
}

/// Whether a tag has members already, or two fields have one name.
fn repeats(
    alloc: Global,
    types: &TypeTable,
    tag: TypeNo,
    fields: &[Field],
) -> Result<bool, AllocError>
    requires number { IsNumber types.now tag }
    requires tag { IsSomeTag types.now tag }
    ensures { IfOk result (λ repeats. repeats ≡ (has_fields (fields_of types.now.tags (tag_of types.now tag)) || spec.has_two_of_a_name fields.now)) }
{
    if !types.members(tag).is_empty() {
        return Ok(true);
    }
    has_two_of_a_name(alloc, fields)
}

/// The members that complete a tag, where they may.
pub(crate) fn laid_out(
    alloc: Global,
    types: &TypeTable,
    union_tag: bool,
    tag: TypeNo,
    fields: &[Field],
) -> Result<Laid, TypeError>
    requires number { IsNumber types.now tag }
    requires tag { IsTagOf types.now union_tag tag }
    requires fields { AreFields types.now fields.now }
    ensures laid { IfOk result (IsLaid types.now tag) }
    ensures number { IfOk result (λ laid. laid.tag ≡ tag_of types.now tag) }
    ensures within { IfOk result (λ laid. laid.tag < length types.now.tags) }
    ensures fields { IfOk result (λ laid. map field_of laid.members ≡ fields.now) }
    ensures fault { Refuses result (fault_beside (fields_of types.now.tags (tag_of types.now tag)) (members_fault (shape_of types.now) union_tag tag fields.now)) }
{
    if repeats(alloc, types, tag, fields)? {
        return Err(TypeError::Duplicate);
    }
    if let Some(why) = misuse(types, union_tag, fields) {
        return Err(why);
    }
    match shaped(alloc, types, union_tag, fields) {
        Err(why) => Err(why),
        Ok((members, row)) => Ok(Laid {
            tag: types.tag_of(tag),
            members,
            row,
        }),
    }
}
