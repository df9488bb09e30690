//! To add the rows of a type, of those of the types that it is made of.

ghost use Rattle.std.specs.Prelude.{◌≡◌, ℕ, ◌≤◌, ◌<◌, ◌+◌, ◌-◌, ◌*◌, ◌^◌, ◌++◌, [], ◌∷◌, length, map, slice_index_or, IfOk};
ghost use Rattle.layout_table.specs.Growing as growing;

use crate::stored::{StoredLevel, StoredRow};
use std::alloc::AllocError;

/// Adds a row as it stands in an array, around which a level is added.
fn push_within(
    to: &mut Vec<StoredRow>,
    levels: &mut Vec<StoredLevel>,
    row: StoredRow,
    stride: u32,
    count: u32,
) -> Result<(), AllocError>
    requires fits { row.reach + count * stride < 2 ^ 32 }
    requires filled { 0 < count }
    ensures levels { IfOk result (λ _. levels.new.items ≡ levels.old.items ++ growing.level_around stride count row ∷ []) }
    ensures rows { IfOk result (λ _. to.new.items ≡ to.old.items ++ growing.row_within stride count (length levels.old.items + 1) row ∷ []) }
{
    levels.push(StoredLevel {
        stride,
        count,
        inside: row.levels,
    })?;
    to.push(StoredRow {
        reach: row.reach + (count - 1) * stride,
        levels: levels.len(),
        ..row
    })?;
    Ok(())
}

/// Adds rows as they stand in an array.
pub(crate) fn add_within(
    to: &mut Vec<StoredRow>,
    levels: &mut Vec<StoredLevel>,
    rows: &[StoredRow],
    stride: u32,
    count: u32,
) -> Result<(), AllocError>
    requires fits { (i : ℕ) (d : StoredRow) → i < length rows.now → (slice_index_or rows.now i d).reach + count * stride < 2 ^ 32 }
    requires filled { 0 < count }
    ensures levels { IfOk result (λ _. levels.new.items ≡ levels.old.items ++ map (growing.level_around stride count) rows.now) }
    ensures rows { IfOk result (λ _. to.new.items ≡ to.old.items ++ growing.rows_within stride count (length levels.old.items) rows.now) }
{
    for row in rows {
        push_within(to, levels, *row, stride, count)?;
    }
    Ok(())
}

/// Adds a row as it stands in a member at an offset.
pub(crate) fn push_moved(to: &mut Vec<StoredRow>, row: StoredRow, by: u32) -> Result<(), AllocError>
    requires fits { by + row.reach < 2 ^ 32 }
    requires ordered { row.lo ≤ row.reach }
    ensures rows { IfOk result (λ _. to.new.items ≡ to.old.items ++ growing.row_moved by row ∷ []) }
{
    to.push(StoredRow {
        lo: by + row.lo,
        reach: by + row.reach,
        ..row
    })?;
    Ok(())
}

/// Adds rows as they stand in a member at an offset.
pub(crate) fn add_moved(
    to: &mut Vec<StoredRow>,
    rows: &[StoredRow],
    by: u32,
) -> Result<(), AllocError>
    requires fits { (i : ℕ) (d : StoredRow) → i < length rows.now → by + (slice_index_or rows.now i d).reach < 2 ^ 32 }
    requires ordered { (i : ℕ) (d : StoredRow) → i < length rows.now → (slice_index_or rows.now i d).lo ≤ (slice_index_or rows.now i d).reach }
    ensures rows { IfOk result (λ _. to.new.items ≡ to.old.items ++ map (growing.row_moved by) rows.now) }
{
    for row in rows {
        push_moved(to, *row, by)?;
    }
    Ok(())
}
