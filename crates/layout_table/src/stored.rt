//! What the table keeps.

ghost use Rattle.std.specs.Prelude.{◌≡◌, ◌≤◌, ◌-◌, Some, length, slice_get, take, drop};

use c_types::TypeNo;

/// An array around a run: after how many bytes its next element begins, how many elements it has, and the number of the
/// next array inside it, or 0.
#[derive(Clone, Copy, Debug)]
pub(crate) struct StoredLevel {
    pub stride: u32,
    pub count: u32,
    pub inside: usize,
}

/// A run that stands once in each element of the arrays around it: the key that types have alike which may match, where the
/// last of this row and of those before it that have its key ends, its type, the offset of the first in a value, how many
/// values it has, the size of each, and the number of the outermost array, or 0.
#[derive(Clone, Copy, Debug)]
pub(crate) struct StoredRow {
    pub key: u32,
    pub reach: u32,
    pub kind: TypeNo,
    pub lo: u32,
    pub count: u32,
    pub size: u32,
    pub levels: usize,
}

/// So many values of a type, from an offset.
#[derive(Clone, Copy, Debug)]
pub(crate) struct StoredPart {
    pub kind: TypeNo,
    pub base: u64,
    pub count: u64,
}

/// A type that has a size: its size, its rows, which stand together, and its flexible member: the type of its elements, or
/// 0, and its offset. Of a type without a size, 0 throughout.
#[derive(Clone, Copy, Debug)]
pub(crate) struct StoredEntry {
    pub size: u32,
    pub start: usize,
    pub end: usize,
    pub tail: TypeNo,
    pub tail_at: u32,
}

/// A flexible member: the type of its elements, or 0 where there is none, and its offset.
#[derive(Clone, Copy, Debug)]
pub(crate) struct StoredTail {
    pub of: TypeNo,
    pub at: u32,
}

/// The entry of a type.
pub(crate) fn entry_of(entries: &[StoredEntry], t: TypeNo) -> StoredEntry
    requires { (1 ≤ t) × (t ≤ length entries.now) }
    ensures { slice_get entries.now (t - 1) ≡ Some result }
{
    entries[t as usize - 1]
}

/// The rows from one number up to another.
pub(crate) fn rows_between(rows: &[StoredRow], start: usize, end: usize) -> &[StoredRow]
    requires ordered { start ≤ end }
    requires within { end ≤ length rows.now }
    ensures { result.now ≡ take (end - start) (drop start rows.now) }
{
    &rows[start..end]
}
