//! To count the rows of the types of a table, before memory is taken for them.

ghost use Rattle.std.specs.Prelude.{◌≡◌, ℕ, ◌+◌, ◌≤◌, ◌<◌, length, take, slice_index, sum_by, Contains, IfOk, IfErr, if◌then◌else◌};
ghost use Rattle.c_types.specs.Shapes.{is_open as is_open_shape};
ghost use Rattle.c_types.specs.Table.{IsNumber, shape_of};
ghost use Rattle.c_types.specs.Holds.{IsOrdered};
ghost use Rattle.c_types.specs.declared.kinds.Member.{Member};
ghost use Rattle.layout_table.specs.Strides.{inner};
ghost use Rattle.layout_table.specs.Tables.{rows_total};
ghost use Rattle.layout_table.specs.Making.{parts};
ghost use Rattle.layout_table.specs.Counting.{capped, capped_rows, member_counts, IsCounted, IsCountedNumber, IsTold};

use crate::matching::is_open;
use crate::table::TableError;
use c_types::{CType, Member, TypeNo, TypeTable, law_table};
use std::alloc::Global;

/// How many rows the types of a table may have.
const MAX_ROWS: u32 = 1_000_000;

/// Where counts stop.
const CAP: u32 = 1_000_001;

/// The sum of two counts.
fn plus(a: u32, b: u32) -> u32
    requires first { a ≤ 1000001 }
    requires second { b ≤ 1000002 }
    ensures { result ≡ capped (a + b) }
{
    if a + b > MAX_ROWS { CAP } else { a + b }
}

/// The count of a type.
fn count_of(types: &TypeTable, counts: &[u32], t: TypeNo) -> u32
    requires lengths { length counts.now ≡ length types.now.kinds }
    requires counted { IsCountedNumber types.now counts.now t }
    ensures value { result ≡ capped (inner (shape_of types.now t)) }
{
    let _ = types;
    counts[t as usize - 1]
}

/// What a member of a type counts.
fn count_member(types: &TypeTable, counts: &[u32], t: TypeNo) -> u32
    requires lengths { length counts.now ≡ length types.now.kinds }
    requires counted { IsCountedNumber types.now counts.now t }
    ensures value { result ≡ (if is_open_shape (shape_of types.now t) then 0 else 1) + capped (inner (shape_of types.now t)) }
{
    let inner = count_of(types, counts, t);
    if is_open(types, t) { inner } else { 1 + inner }
}

/// What members count.
fn count_members(types: &TypeTable, counts: &[u32], members: &[Member]) -> u32
    requires lengths { length counts.now ≡ length types.now.kinds }
    requires counted { (m : Member) → Contains members.now m → IsCountedNumber types.now counts.now m.kind }
    ensures { result ≡ capped (sum_by (member_counts types.now) members.now) }
{
    let mut count = 0;
    for member in members {
        count = plus(count, count_member(types, counts, member.kind));
    }
    count
}

/// How many rows are inside a type.
fn inner_of(types: &TypeTable, counts: &[u32], t: TypeNo) -> u32
    requires number { IsNumber types.now t }
    requires lengths { length counts.now ≡ length types.now.kinds }
    requires counted { (p : ℕ) → Contains (parts types.now t) p → IsCountedNumber types.now counts.now p }
    ensures { result ≡ capped (inner (shape_of types.now t)) }
{
    law_table(types);
    match types.get(t) {
        CType::Array(of, _) => plus(1, count_of(types, counts, of)),
        CType::Flexible(of) => plus(1, count_of(types, counts, of)),
        CType::Struct(_) | CType::Union(_) => count_members(types, counts, types.members(t)),
        CType::Void | CType::Num(..) | CType::Pointer(_) => 0,
    }
}

/// Counts what is inside a type, and answers how many rows the type has, if it has a size.
fn count_next(types: &TypeTable, counts: &mut [u32], order: &[TypeNo], i: usize) -> u32
    requires ordered { IsOrdered types.now order.now }
    requires within { i < length order.now }
    requires so_far { IsCounted types.now (take i order.now) counts.old }
    ensures counted { IsCounted types.now (take (i + 1) order.now) counts.new }
    ensures rows { result ≡ capped_rows (shape_of types.now (slice_index order.now i)) }
    ensures small { result ≤ 1000002 }
{
    law_table(types);
    let t = order[i];
    let inner = inner_of(types, counts, t);
    counts[t as usize - 1] = inner;
    if types.size_of(t).is_some() {
        1 + inner
    } else {
        0
    }
}

/// Refuses types that have too many rows.
pub(crate) fn test_count(alloc: Global, types: &TypeTable) -> Result<(), TableError>
    ensures few { IfOk result (λ _. rows_total types.now ≤ 1000000) }
    ensures told { IfErr result (IsTold types.now) }
{
    law_table(types);
    let mut counts = vec![in alloc; 0; types.len()]?;
    let mut total = 0;
    let order = types.known_types();
    for i in 0..order.len() {
        total += count_next(types, &mut counts, order, i);
        if total > MAX_ROWS {
            return Err(TableError::TooManyRuns);
        }
    }
    Ok(())
}
