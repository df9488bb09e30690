//! To make the rows of a type, of those of the types that it is made of.

ghost use Rattle.std.specs.Prelude.{ℕ, List, ◌⊎◌, ◌≡◌, ◌≤◌, ◌<◌, ◌+◌, ◌-◌, ◌*◌, ◌^◌, ◌∷◌, ◌++◌, Some, length, map, take, slice_get, Contains, IfOk};
ghost use Rattle.c_types.specs.Shapes.{size as size_of};
ghost use Rattle.c_types.specs.Table.{HasSize, IsNumber, shape_of};
ghost use Rattle.c_types.specs.Holds.{IsOrdered};
ghost use Rattle.layout_table.specs.declared.stored.StoredEntry.{StoredEntry};
ghost use Rattle.layout_table.specs.Tables.{rows_at};
ghost use Rattle.type_layout.specs.Listed.{In};
ghost use Rattle.layout_table.specs.declared.stored.StoredRow.{StoredRow};
ghost use Rattle.layout_table.specs.Stored.{AreOrdered};
ghost use Rattle.layout_table.specs.Ordering.{AreSameRows, StaysWithin};
ghost use Rattle.layout_table.specs.Growing.{level_around, rows_within};
ghost use Rattle.layout_table.specs.Making as making;
ghost use Rattle.c_types.specs.declared.kinds.Member.{Member};
ghost use Rattle.layout_table.specs.Making.{AreOwn, AreReadyMembers, IsReady, IsSoFar, IsTail, parts};

use crate::growing::{add_moved, add_within, push_moved};
use crate::matching::{is_open, key_of_kind};
use crate::ordering::order;
use crate::stored::{StoredEntry, StoredLevel, StoredRow, StoredTail, entry_of, rows_between};
use c_types::{CType, Member, TypeNo, TypeTable, law_table};
use std::alloc::{AllocError, Global};

/// A row for so many values of a type, at the beginning of what has them inside.
#[tactic(auto, using(crate::proofs::Tiers::key_known))]
fn row_for(types: &TypeTable, of: TypeNo, size: u32, count: u32) -> StoredRow
    requires known { IsNumber types.now of }
    requires fits { count * size < 2 ^ 32 }
    ensures { result ≡ making.row_for types.now of size count }
{
    StoredRow {
        key: key_of_kind(types.get(of), of),
        reach: count * size,
        kind: of,
        lo: 0,
        count,
        size,
        levels: 0,
    }
}

/// Adds the rows of a member: one for it, and those of its type.
fn add_member(
    types: &TypeTable,
    entries: &[StoredEntry],
    rows: &[StoredRow],
    own: &mut Vec<StoredRow>,
    kind: TypeNo,
    offset: u32,
) -> Result<(), AllocError>
    requires ready { IsReady types.now entries.now rows.now kind }
    requires fits { offset + size_of (shape_of types.now kind) ≤ 1048559 }
    ensures { IfOk result (λ _. own.new.items ≡ own.old.items ++ making.member_rows types.now entries.now rows.now kind offset) }
{
    let entry = entry_of(entries, kind);
    push_moved(own, row_for(types, kind, entry.size, 1), offset)?;
    let inside = rows_between(rows, entry.start, entry.end);
    add_moved(own, inside, offset)?;
    Ok(())
}

/// The rows of members, but for a flexible one.
fn rows_of_members(
    alloc: Global,
    types: &TypeTable,
    entries: &[StoredEntry],
    rows: &[StoredRow],
    members: &[Member],
) -> Result<Vec<StoredRow>, AllocError>
    requires ready { AreReadyMembers types.now entries.now rows.now members.now }
    ensures { IfOk result (λ own. own.items ≡ making.rows_of_members types.now entries.now rows.now members.now) }
{
    let mut own = Vec::new(alloc);
    for member in members {
        if !is_open(types, member.kind) {
            add_member(types, entries, rows, &mut own, member.kind, member.offset)?;
        }
    }
    Ok(own)
}

/// The rows of an array: one for its elements, and those of their type as they stand in each.
fn rows_of_array(
    alloc: Global,
    types: &TypeTable,
    entries: &[StoredEntry],
    rows: &[StoredRow],
    levels: &mut Vec<StoredLevel>,
    of: TypeNo,
    count: u32,
) -> Result<Vec<StoredRow>, AllocError>
    requires ready { IsReady types.now entries.now rows.now of }
    requires filled { 0 < count }
    requires fits { count * size_of (shape_of types.now of) ≤ 1048559 }
    ensures levels { IfOk result (λ _. (entry : StoredEntry) → slice_get entries.now (of - 1) ≡ Some entry → levels.new.items ≡ levels.old.items ++ map (level_around entry.size count) (rows_at rows.now entry)) }
    ensures rows { IfOk result (λ own. (entry : StoredEntry) → slice_get entries.now (of - 1) ≡ Some entry → own.items ≡ making.row_for types.now of entry.size count ∷ rows_within entry.size count (length levels.old.items) (rows_at rows.now entry)) }
{
    let entry = entry_of(entries, of);
    let mut own = Vec::new(alloc);
    own.push(row_for(types, of, entry.size, count))?;
    let inside = rows_between(rows, entry.start, entry.end);
    add_within(&mut own, levels, inside, entry.size, count)?;
    Ok(own)
}

/// The rows of a type.
fn rows_of_type(
    alloc: Global,
    types: &TypeTable,
    entries: &[StoredEntry],
    rows: &[StoredRow],
    levels: &mut Vec<StoredLevel>,
    t: TypeNo,
) -> Result<Vec<StoredRow>, AllocError>
    requires known { HasSize types.now t }
    requires parts { IsSoFar types.now (parts types.now t) entries.now rows.now levels.old.items }
    ensures { IfOk result (λ own. AreOwn types.now levels.old.items levels.new.items t own.items) }
{
    law_table(types);
    match types.get(t) {
        CType::Array(of, count) => {
            let own = rows_of_array(alloc, types, entries, rows, levels, of, count)?;
            Ok(own)
        }
        CType::Struct(_) | CType::Union(_) => {
            let own = rows_of_members(alloc, types, entries, rows, types.members(t))?;
            Ok(own)
        }
        CType::Void | CType::Num(..) | CType::Pointer(_) | CType::Flexible(_) => Ok(Vec::new(
            alloc,
        )),
    }
}

/// The flexible member among members.
fn tail_of_members(types: &TypeTable, members: &[Member]) -> StoredTail
    requires { (m : Member) → Contains members.now m → IsNumber types.now m.kind }
    ensures { result ≡ making.tail_of_members types.now members.now }
{
    let mut tail = StoredTail { of: 0, at: 0 };
    for member in members {
        if let CType::Flexible(of) = types.get(member.kind) {
            tail = StoredTail {
                of,
                at: member.offset,
            };
        }
    }
    tail
}

/// The flexible member of a type.
fn tail_of(types: &TypeTable, t: TypeNo) -> StoredTail
    requires { HasSize types.now t }
    ensures { IsTail types.now t result }
{
    law_table(types);
    match types.get(t) {
        CType::Struct(_) => tail_of_members(types, types.members(t)),
        _ => StoredTail { of: 0, at: 0 },
    }
}

/// Rows in both orders.
fn ordered_rows(own: Vec<StoredRow>) -> Vec<StoredRow>
    requires each { (row : StoredRow) → In row own.items → row.lo ≤ row.reach }
    ensures ordered { AreOrdered result.items }
    ensures same { AreSameRows own.items result.items }
    ensures short { StaysWithin own.items result.items }
{
    let mut own = own;
    order(&mut own);
    own
}

/// Adds rows behind others, and answers where they begin and end.
fn append(rows: &mut Vec<StoredRow>, own: &[StoredRow]) -> Result<(usize, usize), AllocError>
    ensures rows { IfOk result (λ _. rows.new.items ≡ rows.old.items ++ own.now) }
    ensures places { IfOk result (λ places. (places.0 ≡ length rows.old.items) × (places.1 ≡ length rows.old.items + length own.now)) }
{
    let start = rows.len();
    rows.extend_from_slice(own)?;
    Ok((start, rows.len()))
}

/// Adds a type that has a size, of so many bytes.
fn add_type(
    alloc: Global,
    types: &TypeTable,
    entries: &mut [StoredEntry],
    rows: &mut Vec<StoredRow>,
    levels: &mut Vec<StoredLevel>,
    t: TypeNo,
    size: u32,
) -> Result<(), AllocError>
    requires known { HasSize types.now t }
    requires sized { size ≡ size_of (shape_of types.now t) }
    requires parts { IsSoFar types.now (parts types.now t) entries.old rows.old.items levels.old.items }
    ensures { IfOk result (λ _. (done next : List ℕ) → IsSoFar types.now done entries.old rows.old.items levels.old.items → ((n : ℕ) → Contains next n → Contains done n ⊎ (n ≡ t)) → IsSoFar types.now next entries.new rows.new.items levels.new.items) }
{
    law_table(types);
    let tail = tail_of(types, t);
    let own = ordered_rows(rows_of_type(alloc, types, entries, rows, levels, t)?);
    let (start, end) = append(rows, &own)?;
    entries[t as usize - 1] = StoredEntry {
        size,
        start,
        end,
        tail: tail.of,
        tail_at: tail.at,
    };
    Ok(())
}

/// Adds the next type, behind those that it is made of.
pub(crate) fn add_next(
    alloc: Global,
    types: &TypeTable,
    entries: &mut [StoredEntry],
    rows: &mut Vec<StoredRow>,
    levels: &mut Vec<StoredLevel>,
    numbers: &[TypeNo],
    i: usize,
) -> Result<(), AllocError>
    requires ordered { IsOrdered types.now numbers.now }
    requires within { i < length numbers.now }
    requires so_far { IsSoFar types.now (take i numbers.now) entries.old rows.old.items levels.old.items }
    ensures { IfOk result (λ _. IsSoFar types.now (take (i + 1) numbers.now) entries.new rows.new.items levels.new.items) }
{
    let t = numbers[i];
    match types.size_of(t) {
        Some(size) => {
            add_type(alloc, types, entries, rows, levels, t, size)?;
            Ok(())
        }
        None => Ok(()),
    }
}
