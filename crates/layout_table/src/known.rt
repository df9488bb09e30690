//! The types that a table was built from, which it keeps.

ghost use Rattle.std.specs.Prelude.{ℕ, ◌≡◌, ◌<◌, ◌≤◌, ◌^◌, Some, length, map, slice_get, IfOk};
ghost use Rattle.c_types.specs.Table.{IsNumber, kind_of};
ghost use Rattle.layout_table.specs.Known as kinds;
ghost use Rattle.layout_table.specs.Known.{field_of, tag_of, AreNumbersOfTags, IsNumberOfTag};

use c_types::{CType, Field, Member, Text, TypeNo, TypeTable, law_table};
use std::alloc::{AllocError, Global};
use std::marker::Model;

/// A tag with its members, of which it has none where it is not complete.
#[derive(Debug, Drop)]
pub(crate) struct KnownTag {
    pub union_tag: bool,
    pub name: Text,
    pub fields: Vec<Field>,
}

/// The types and tags, which contracts see as a table of types has them.
#[derive(Debug, Drop)]
pub(crate) struct KnownTypes {
    kinds: Vec<CType>,
    tags: Vec<KnownTag>,
}

impl Model for KnownTypes {
    ghost use Rattle.c_types.specs.Table.{Types};
    ghost use Rattle.layout_table.specs.Known.{known};

    ghost Value = { Types };

    ghost view = { λ t. known t.kinds.items t.tags.items };
}

/// The types in order.
fn kinds_of(alloc: Global, types: &TypeTable) -> Result<Vec<CType>, AllocError>
    requires few { length types.now.kinds < 2 ^ 32 }
    ensures { IfOk result (λ kinds. kinds.items ≡ types.now.kinds) }
{
    let mut kinds = Vec::new(alloc);
    for i in 0..types.len() {
        kinds.push(types.get(i as TypeNo + 1))?;
    }
    Ok(kinds)
}

/// The tag of a type, if it is a struct or a union.
fn tag_of_kind(kind: CType) -> Option<u32>
    ensures { result ≡ kinds.tag_of_kind kind }
{
    match kind {
        CType::Struct(tag) | CType::Union(tag) => Some(tag),
        _ => None,
    }
}

/// Whether a type is a union.
fn is_union(kind: CType) -> bool
    ensures { result ≡ kinds.is_union kind }
{
    matches!(kind, CType::Union(_))
}

/// How many tags there are, of those that were seen and a type.
fn count_next(count: usize, kind: CType) -> usize
    requires small { count ≤ 2 ^ 32 }
    ensures count { result ≡ kinds.count_by count (kinds.tag_of_kind kind) }
    ensures small { result ≤ 2 ^ 32 }
{
    match tag_of_kind(kind) {
        Some(tag) => count.max(tag as usize + 1),
        None => count,
    }
}

/// How many tags there are.
fn count_tags(types: &TypeTable, kinds: &[CType]) -> usize
    requires { kinds.now ≡ types.now.kinds }
    ensures count { result ≡ length types.now.tags }
    ensures few { result ≤ 2 ^ 32 }
{
    law_table(types);
    let mut count = 0;
    for kind in kinds {
        count = count_next(count, *kind);
    }
    count
}

/// Keeps the number of a type as that of its tag, if it has one.
fn put_number(numbers: &mut [TypeNo], kind: CType, t: TypeNo)
    requires { (tag : ℕ) → kinds.tag_of_kind kind ≡ Some tag → tag < length numbers.old }
    ensures { numbers.new ≡ kinds.put_by numbers.old (kinds.tag_of_kind kind) t }
{
    if let Some(tag) = tag_of_kind(kind) {
        numbers[tag as usize] = t;
    }
}

/// The number of the type of each tag.
fn numbers_of_tags(
    alloc: Global,
    types: &TypeTable,
    kinds: &[CType],
) -> Result<Vec<TypeNo>, AllocError>
    requires few { length types.now.kinds < 2 ^ 32 }
    requires kinds { kinds.now ≡ types.now.kinds }
    ensures { IfOk result (λ numbers. AreNumbersOfTags types.now numbers.items) }
{
    law_table(types);
    let mut numbers = vec![in alloc; 0; count_tags(types, kinds)]?;
    for i in 0..kinds.len() {
        put_number(&mut numbers, kinds[i], i as TypeNo + 1);
    }
    Ok(numbers)
}

/// A text of its own.
fn copied_text(alloc: Global, bytes: &[u8]) -> Result<Text, AllocError>
    ensures { IfOk result (λ text. text ≡ bytes.now) }
{
    let mut text = Text::new(alloc);
    text.append(bytes)?;
    Ok(text)
}

/// Members as they were declared.
fn fields_of_members(alloc: Global, members: &[Member]) -> Result<Vec<Field>, AllocError>
    ensures { IfOk result (λ fields. fields.items ≡ map field_of members.now) }
{
    let mut fields = Vec::new(alloc);
    for member in members {
        fields.push(Field {
            name: copied_text(alloc, member.name.bytes())?,
            kind: member.kind,
        })?;
    }
    Ok(fields)
}

/// A tag of the type of a number.
fn known_tag(alloc: Global, types: &TypeTable, tag: u32, t: TypeNo) -> Result<KnownTag, AllocError>
    requires { IsNumberOfTag types.now tag t }
    ensures { IfOk result (λ known. slice_get types.now.tags tag ≡ Some (tag_of known)) }
{
    law_table(types);
    let union_tag = is_union(types.get(t));
    let name = copied_text(alloc, types.tag_name(tag))?;
    let fields = fields_of_members(alloc, types.members(t))?;
    Ok(KnownTag {
        union_tag,
        name,
        fields,
    })
}

/// The tags in order.
fn tags_of(alloc: Global, types: &TypeTable, kinds: &[CType]) -> Result<Vec<KnownTag>, AllocError>
    requires few { length types.now.kinds < 2 ^ 32 }
    requires kinds { kinds.now ≡ types.now.kinds }
    ensures { IfOk result (λ tags. map tag_of tags.items ≡ types.now.tags) }
{
    let numbers = numbers_of_tags(alloc, types, kinds)?;
    let mut tags = Vec::new(alloc);
    for tag in 0..numbers.len() {
        tags.push(known_tag(alloc, types, tag as u32, numbers[tag])?)?;
    }
    Ok(tags)
}

impl KnownTypes {
    /// The types and tags of a table.
    pub fn copy_of(alloc: Global, types: &TypeTable) -> Result<KnownTypes, AllocError>
        ensures { IfOk result (λ known. known ≡ types.now) }
    {
        // A table has fewer types, since it numbers them in 32 bits.
        if types.len() > u32::MAX as usize {
            return Err(AllocError);
        }
        let kinds = kinds_of(alloc, types)?;
        let tags = tags_of(alloc, types, &kinds)?;
        Ok(KnownTypes { kinds, tags })
    }

    /// The type of a number.
    pub fn get(&self, t: TypeNo) -> CType
        requires { IsNumber self.now t }
        ensures { kind_of self.now t ≡ Some result }
    {
        self.kinds[t as usize - 1]
    }
}
