//! The table of types: each type has a number, and equal types have one.

ghost use Rattle.std.specs.Prelude.{◌≡◌, ◌-◌, ◌<◌, ◌^◌, ℕ, Bool, true, false, Some, None, Ok, suc, map, length, slice_get, position, IfSome, IfOk, OnOk, OnErr, IsFalse, Contains};
ghost use Rattle.c_types.specs.declared.kinds.CType.TheVariants.{Pointer, Array, Flexible};
ghost use Rattle.c_types.specs.declared.rows.Form.TheVariants as form;
ghost use Rattle.c_types.specs.Shapes as trees;
ghost use Rattle.c_types.specs.Shapes.{size_of_shape, alignment_of_shape, is_unknown};
ghost use Rattle.c_types.specs.Table as spec;
ghost use Rattle.c_types.specs.Table.{IsNumber, basic_types, kind_of, shape_of, shape_of_kind, fields_of};
ghost use Rattle.c_types.specs.Adding.{tag_kind as spec_tag_kind};
ghost use Rattle.c_types.specs.Adding.{added, added_tag, array_fault, open_fault, is_same, members_fault, fault_beside, completed, completed_tags, tag_kind, tag_of};
ghost use Rattle.c_types.specs.Calls.{Refuses, IsTagOf, AreFields};
ghost use Rattle.c_types.specs.Holds.{IsTable, IsOrdered, IsMade};
ghost use Rattle.c_types.specs.Rows.{IsPlain, IsSmall, IsLaid, IsSomeTag, row_of, field_of};

use crate::fields::{Laid, laid_out};
use crate::kinds::{CType, Field, Member, TypeError, TypeNo};
use crate::rows::{Form, TypeRow};
use byte_texts::Text;
use indexmap::IndexSet;
use sqlite_items::Items;
use std::alloc::{AllocError, Global};
use std::marker::Model;

/// The bytes of the largest object.
const LARGEST: u64 = 1_048_559;

/// The size of a pointer in bytes, and its alignment.
const POINTER_SIZE: u32 = 8;

/// The nine types that each text has, char being signed.
const BASIC: [CType; 9] = [
    CType::Void,
    CType::Num(1, true),
    CType::Num(1, false),
    CType::Num(2, true),
    CType::Num(2, false),
    CType::Num(4, true),
    CType::Num(4, false),
    CType::Num(8, true),
    CType::Num(8, false),
];

/// The row of `void`, and of a struct or union without its members.
const UNKNOWN: TypeRow = TypeRow {
    form: Form::Unsized,
    size: 0,
    alignment: 1,
};

/// A tag, with its members once it is complete.
#[derive(Debug, Drop)]
pub(crate) struct TagRow {
    union_tag: bool,
    name: Text,
    members: Items<Member>,
}

/// The types and the tags, which contracts see as two lists: the number of a type is its place, counted from 1, and that of
/// a tag its place, counted from 0. What is asked of a type is kept, not computed.
#[derive(Drop)]
pub struct TypeTable {
    alloc: Global,
    kinds: IndexSet<CType>,
    rows: Vec<TypeRow>,
    tags: Vec<TagRow>,
    order: Vec<TypeNo>,
}

impl Model for TypeTable {
    ghost use Rattle.c_types.specs.Table.{Types};
    ghost use Rattle.c_types.specs.Rows.{types_of, IsKept};

    ghost Value = { Types };

    ghost view = { λ t. types_of t.kinds.keys t.tags.items };

    ghost invariant = { λ t. IsKept t.kinds.keys t.rows.items t.tags.items t.order.items };
}

/// The row of a scalar type.
fn scalar(size: u32) -> TypeRow
    ensures { result ≡ record { form = form.Sized; size = size; alignment = size } }
{
    TypeRow {
        form: Form::Sized,
        size,
        alignment: size,
    }
}

/// The type of a tag.
fn tag_kind(union_tag: bool, tag: u32) -> CType
    ensures { result ≡ spec_tag_kind union_tag tag }
{
    if union_tag {
        CType::Union(tag)
    } else {
        CType::Struct(tag)
    }
}

impl TypeTable {
    /// The nine types that each text has: void, char (which is signed), unsigned char, short, unsigned short, int,
    /// unsigned int, long and unsigned long.
    pub fn new(alloc: Global) -> Result<TypeTable, AllocError>
        ensures { IfOk result (λ types. types ≡ basic_types) }
    {
        let mut kinds = IndexSet::with_capacity(alloc, 9)?;
        for kind in BASIC {
            kinds.insert(kind)?;
        }
        let rows = vec![in alloc;
            UNKNOWN,
            scalar(1),
            scalar(1),
            scalar(2),
            scalar(2),
            scalar(4),
            scalar(4),
            scalar(8),
            scalar(8),
        ]?;
        let order = vec![in alloc; 1, 2, 3, 4, 5, 6, 7, 8, 9]?;
        Ok(TypeTable {
            alloc,
            kinds,
            rows,
            tags: Vec::new(alloc),
            order,
        })
    }

    /// The place of a type that equals this one.
    fn place_of(&self, kind: CType) -> Option<usize>
        ensures { result ≡ position (is_same kind) self.now.kinds }
    {
        self.kinds.get_index_of(&kind)
    }

    /// Adds a type that the table lacks and that is no tag's.
    fn append(&mut self, kind: CType, row: TypeRow) -> Result<TypeNo, AllocError>
        requires absent { position (is_same kind) self.old.kinds ≡ None }
        requires plain { IsPlain kind }
        requires made { IsMade self.old (suc (length self.old.kinds)) kind }
        requires row { row ≡ row_of (shape_of_kind self.old.tags (shape_of self.old) (suc (length self.old.kinds)) (Some kind)) }
        requires room { length self.old.kinds < 2 ^ 32 - 1 }
        ensures number { IfOk result (λ number. (number, self.new) ≡ added kind self.old) }
        ensures unchanged { OnErr result (self.new ≡ self.old) }
    {
        self.rows.reserve(1)?;
        self.order.reserve(1)?;
        self.kinds.insert(kind)?;
        let number = self.kinds.len() as u32;
        let stored: Result<_, _> = self.rows.push(row);
        stored.unwrap();
        let stored: Result<_, _> = self.order.push(number);
        stored.unwrap();
        Ok(number)
    }

    /// The number of a type that is no tag's, which is added where the table lacks it.
    fn add(&mut self, kind: CType, row: TypeRow) -> Result<TypeNo, AllocError>
        requires plain { IsPlain kind }
        requires made { IsMade self.old (suc (length self.old.kinds)) kind }
        requires row { row ≡ row_of (shape_of_kind self.old.tags (shape_of self.old) (suc (length self.old.kinds)) (Some kind)) }
        requires room { length self.old.kinds < 2 ^ 32 - 1 }
        ensures number { IfOk result (λ number. (number, self.new) ≡ added kind self.old) }
        ensures unchanged { OnErr result (self.new ≡ self.old) }
    {
        match self.place_of(kind) {
            Some(place) => Ok(place as u32 + 1),
            None => self.append(kind, row),
        }
    }

    /// The row of an array of so many elements.
    fn array_row(&self, of: TypeNo, count: u32) -> Result<TypeRow, TypeError>
        requires { IsNumber self.now of }
        ensures row { IfOk result (λ row. (n : ℕ) → row ≡ row_of (trees.Array n (shape_of self.now of) count)) }
        ensures fault { Refuses result (array_fault (shape_of self.now of) count) }
    {
        if count == 0 {
            return Err(TypeError::Empty);
        }
        let element = self.element_row(of)?;
        let size = u64::from(count) * u64::from(element.size);
        if size > LARGEST {
            return Err(TypeError::TooLarge);
        }
        Ok(TypeRow {
            form: Form::Sized,
            size: size as u32,
            alignment: element.alignment,
        })
    }

    /// The row of what may be an element.
    fn element_row(&self, of: TypeNo) -> Result<TypeRow, TypeError>
        requires { IsNumber self.now of }
        ensures row { IfOk result (λ row. row ≡ row_of (shape_of self.now of)) }
        ensures small { IfOk result IsSmall }
        ensures fault { Refuses result (open_fault (shape_of self.now of)) }
    {
        let row = self.row(of);
        match row.form {
            Form::Extended => Err(TypeError::BadFlexible),
            Form::Unsized | Form::Open => Err(TypeError::Incomplete),
            Form::Sized => Ok(row),
        }
    }

    /// The number of the pointer type to a type, which is added where the table lacks it.
    pub fn add_pointer(&mut self, to: TypeNo) -> Result<TypeNo, AllocError>
        requires known { IsNumber self.old to }
        requires room { length self.old.kinds < 2 ^ 32 - 1 }
        ensures number { IfOk result (λ number. (number, self.new) ≡ added (Pointer to) self.old) }
        ensures unchanged { OnErr result (self.new ≡ self.old) }
    {
        self.add(CType::Pointer(to), scalar(POINTER_SIZE))
    }

    /// The number of the type of an array of so many elements, which is added where the table lacks it.
    pub fn add_array(&mut self, of: TypeNo, count: u32) -> Result<TypeNo, TypeError>
        requires known { IsNumber self.old of }
        requires room { length self.old.kinds < 2 ^ 32 - 1 }
        ensures number { IfOk result (λ number. (number, self.new) ≡ added (Array of count) self.old) }
        ensures fault { Refuses result (array_fault (shape_of self.old of) count) }
        ensures unchanged { OnErr result (self.new ≡ self.old) }
    {
        let row = self.array_row(of, count)?;
        let number = self.add(CType::Array(of, count), row)?;
        Ok(number)
    }

    /// The number of the type of an open array, which is added where the table lacks it.
    pub fn add_flexible(&mut self, of: TypeNo) -> Result<TypeNo, TypeError>
        requires known { IsNumber self.old of }
        requires room { length self.old.kinds < 2 ^ 32 - 1 }
        ensures number { IfOk result (λ number. (number, self.new) ≡ added (Flexible of) self.old) }
        ensures fault { Refuses result (open_fault (shape_of self.old of)) }
        ensures unchanged { OnErr result (self.new ≡ self.old) }
    {
        let element = self.element_row(of)?;
        let row = TypeRow {
            form: Form::Open,
            size: 0,
            alignment: element.alignment,
        };
        let number = self.add(CType::Flexible(of), row)?;
        Ok(number)
    }

    /// Adds a struct or a union without members, which equals no other type. The name is empty where it has none.
    pub fn add_tag(&mut self, union_tag: bool, name: Text) -> Result<TypeNo, AllocError>
        requires room { length self.old.kinds < 2 ^ 32 - 1 }
        ensures number { IfOk result (λ number. (number, self.new) ≡ added_tag union_tag name self.old) }
        ensures unchanged { OnErr result (self.new ≡ self.old) }
    {
        self.rows.reserve(1)?;
        self.tags.reserve(1)?;
        let tag = self.tags.len() as u32;
        self.kinds.insert(tag_kind(union_tag, tag))?;
        let stored: Result<_, _> = self.rows.push(UNKNOWN);
        stored.unwrap();
        let members = Items::new(self.alloc);
        let stored: Result<_, _> = self.tags.push(TagRow {
            union_tag,
            name,
            members,
        });
        stored.unwrap();
        Ok(self.kinds.len() as u32)
    }

    /// Completes a struct with its members. On a refusal nothing changes.
    pub fn add_struct(&mut self, tag: TypeNo, fields: &[Field]) -> Result<(), TypeError>
        requires number { IsNumber self.old tag }
        requires tag { IsTagOf self.old false tag }
        requires fields { AreFields self.old fields.now }
        ensures completed { OnOk result (Ok self.new ≡ completed self.old false tag fields.now) }
        ensures fault { Refuses result (fault_beside (fields_of self.old.tags (tag_of self.old tag)) (members_fault (shape_of self.old) false tag fields.now)) }
        ensures unchanged { OnErr result (self.new ≡ self.old) }
    {
        let laid = laid_out(self.alloc, self, false, tag, fields)?;
        self.complete(tag, laid)?;
        Ok(())
    }

    /// Completes a union with its members. On a refusal nothing changes.
    pub fn add_union(&mut self, tag: TypeNo, fields: &[Field]) -> Result<(), TypeError>
        requires number { IsNumber self.old tag }
        requires tag { IsTagOf self.old true tag }
        requires fields { AreFields self.old fields.now }
        ensures completed { OnOk result (Ok self.new ≡ completed self.old true tag fields.now) }
        ensures fault { Refuses result (fault_beside (fields_of self.old.tags (tag_of self.old tag)) (members_fault (shape_of self.old) true tag fields.now)) }
        ensures unchanged { OnErr result (self.new ≡ self.old) }
    {
        let laid = laid_out(self.alloc, self, true, tag, fields)?;
        self.complete(tag, laid)?;
        Ok(())
    }

    /// Completes a tag with members that were laid out.
    fn complete(&mut self, n: TypeNo, laid: Laid) -> Result<(), AllocError>
        requires known { IsNumber self.old n }
        requires tag { laid.tag < length self.old.tags }
        requires laid { IsLaid self.old n laid }
        ensures completed { OnOk result (self.new ≡ record self.old { tags = completed_tags self.old.tags laid.tag (map field_of laid.members) }) }
        ensures unchanged { OnErr result (self.new ≡ self.old) }
    {
        self.order.reserve(1)?;
        self.tags[laid.tag as usize].members = laid.members;
        self.rows[n as usize - 1] = laid.row;
        let stored: Result<_, _> = self.order.push(n);
        stored.unwrap();
        Ok(())
    }

    /// How many types there are.
    pub fn len(&self) -> usize
        ensures { result ≡ length self.now.kinds }
    {
        self.kinds.len()
    }

    /// The type of a number, if it is one of the table.
    pub fn find(&self, t: TypeNo) -> Option<CType>
        ensures { result ≡ kind_of self.now t }
    {
        if t == 0 {
            return None;
        }
        self.kinds.as_slice().get(t as usize - 1).copied()
    }

    /// The type of a number.
    pub fn get(&self, t: TypeNo) -> CType
        requires { IsNumber self.now t }
        ensures kind { kind_of self.now t ≡ Some result }
        ensures made { IsMade self.now t result }
    {
        self.kinds.as_slice()[t as usize - 1]
    }

    /// What is kept of the type of a number.
    pub(crate) fn row(&self, t: TypeNo) -> TypeRow
        requires { IsNumber self.now t }
        ensures row { result ≡ row_of (shape_of self.now t) }
        ensures small { IsSmall result }
    {
        self.rows[t as usize - 1]
    }

    /// The size of a type in bytes, if it has one (C11 6.5.3.4).
    pub fn size_of(&self, t: TypeNo) -> Option<u32>
        requires { IsNumber self.now t }
        ensures { result ≡ size_of_shape (shape_of self.now t) }
    {
        let row = self.row(t);
        row.is_sized().then_some(row.size)
    }

    /// The alignment of a type in bytes, if it has a size (C11 6.2.8).
    pub fn align_of(&self, t: TypeNo) -> Option<u32>
        requires { IsNumber self.now t }
        ensures { result ≡ alignment_of_shape (shape_of self.now t) }
    {
        let row = self.row(t);
        row.is_sized().then_some(row.alignment)
    }

    /// The members of a tag.
    fn members_of(&self, tag: u32) -> &[Member]
        requires { tag < length self.now.tags }
        ensures { (sort : Bool) (n : ℕ) → kind_of self.now n ≡ Some (tag_kind sort tag) → result.now ≡ spec.members self.now n }
    {
        self.tags[tag as usize].members.as_slice()
    }

    /// The members of a struct or a union in order, with their offsets (C11 6.7.2.1p15 and p16). There are none where the
    /// type is not complete, or is none of the two.
    #[tactic(auto, unfolding(crate::specs::Table::members))]
    pub fn members(&self, t: TypeNo) -> &[Member]
        requires { IsNumber self.now t }
        ensures { result.now ≡ spec.members self.now t }
    {
        match self.get(t) {
            CType::Struct(tag) => self.members_of(tag),
            CType::Union(tag) => self.members_of(tag),
            CType::Void
            | CType::Num(..)
            | CType::Pointer(_)
            | CType::Array(..)
            | CType::Flexible(_) => &[],
        }
    }

    /// The tag of a struct or a union.
    pub(crate) fn tag_of(&self, t: TypeNo) -> u32
        requires { IsSomeTag self.now t }
        ensures number { result ≡ tag_of self.now t }
        ensures within { result < length self.now.tags }
    {
        match self.get(t) {
            CType::Struct(tag) => tag,
            CType::Union(tag) => tag,
            CType::Void
            | CType::Num(..)
            | CType::Pointer(_)
            | CType::Array(..)
            | CType::Flexible(_) => 0,
        }
    }

    /// The name of a tag, which is empty where it has none.
    pub fn tag_name(&self, tag: u32) -> &[u8]
        requires { tag < length self.now.tags }
        ensures { IfSome (slice_get self.now.tags tag) (λ found. result.now ≡ found.name) }
    {
        self.tags[tag as usize].name.bytes()
    }

    /// The types but incomplete structs and unions, each after those that it is made of.
    pub fn known_types(&self) -> &[TypeNo]
        ensures ordered { IsOrdered self.now result.now }
        ensures all { (n : ℕ) → IsNumber self.now n → IsFalse (is_unknown (shape_of self.now n)) → Contains result.now n }
    {
        self.order.as_slice()
    }

    /// What holds of each table.
    pub(crate) fn law(&self)
        ensures { IsTable self.now }
    {
        let _ = &self.rows;
    }
}
