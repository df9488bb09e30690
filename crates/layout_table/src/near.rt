//! The rows that may matter at a place of a value: those of a wanted key that begin before it and reach so far.

ghost use Rattle.std.specs.Prelude.{◌≡◌, ℕ, ◌≤◌, ◌<◌, ◌+◌, ◌-◌, ◌*◌, ◌^◌, length, take, drop, filter, slice_index_or, nat_le, nat_lt};
ghost use Rattle.std.specs.List.Sorted.{IsNonDecreasingBy};
ghost use Rattle.layout_table.specs.Stored.{from_of, keyed, may_end, may_hold, reach_of};

use crate::stored::StoredRow;

/// A key with a place.
pub(crate) fn keyed_place(key: u32, place: u32) -> u64
    ensures { result ≡ keyed key place }
{
    u64::from(key) * 4_294_967_296 + u64::from(place)
}

/// How many rows begin at a place or before.
fn from_up_to(rows: &[StoredRow], place: u64) -> usize
    requires { IsNonDecreasingBy from_of rows.now }
    ensures bound { result ≤ length rows.now }
    ensures below { (i : ℕ) (d : StoredRow) → i < result → from_of (slice_index_or rows.now i d) ≤ place }
    ensures above { (i : ℕ) (d : StoredRow) → result ≤ i → i < length rows.now → place < from_of (slice_index_or rows.now i d) }
{
    rows.partition_point(
        |row: &StoredRow| -> bool
            ensures { result ≡ nat_le (from_of row.now) place }
        { keyed_place(row.key, row.lo) <= place },
    )
}

/// How many rows begin before a place.
fn from_before(rows: &[StoredRow], place: u64) -> usize
    requires { IsNonDecreasingBy from_of rows.now }
    ensures bound { result ≤ length rows.now }
    ensures below { (i : ℕ) (d : StoredRow) → i < result → from_of (slice_index_or rows.now i d) < place }
    ensures above { (i : ℕ) (d : StoredRow) → result ≤ i → i < length rows.now → place ≤ from_of (slice_index_or rows.now i d) }
{
    rows.partition_point(
        |row: &StoredRow| -> bool
            ensures { result ≡ nat_lt (from_of row.now) place }
        { keyed_place(row.key, row.lo) < place },
    )
}

/// How many rows reach to a place at most.
fn reach_up_to(rows: &[StoredRow], place: u64) -> usize
    requires { IsNonDecreasingBy reach_of rows.now }
    ensures bound { result ≤ length rows.now }
    ensures below { (i : ℕ) (d : StoredRow) → i < result → reach_of (slice_index_or rows.now i d) ≤ place }
    ensures above { (i : ℕ) (d : StoredRow) → result ≤ i → i < length rows.now → place < reach_of (slice_index_or rows.now i d) }
{
    rows.partition_point(
        |row: &StoredRow| -> bool
            ensures { result ≡ nat_le (reach_of row.now) place }
        { keyed_place(row.key, row.reach) <= place },
    )
}

/// How many rows do not reach to a place.
fn reach_before(rows: &[StoredRow], place: u64) -> usize
    requires { IsNonDecreasingBy reach_of rows.now }
    ensures bound { result ≤ length rows.now }
    ensures below { (i : ℕ) (d : StoredRow) → i < result → reach_of (slice_index_or rows.now i d) < place }
    ensures above { (i : ℕ) (d : StoredRow) → result ≤ i → i < length rows.now → place ≤ reach_of (slice_index_or rows.now i d) }
{
    rows.partition_point(
        |row: &StoredRow| -> bool
            ensures { result ≡ nat_lt (reach_of row.now) place }
        { keyed_place(row.key, row.reach) < place },
    )
}

/// The rows from one place up to another.
fn part_of(rows: &[StoredRow], start: usize, end: usize) -> &[StoredRow]
    requires ordered { start ≤ end }
    requires within { end ≤ length rows.now }
    ensures { result.now ≡ take (end - start) (drop start rows.now) }
{
    &rows[start..end]
}

/// The rows of a key that may have a place inside.
pub(crate) fn holding(rows: &[StoredRow], key: u32, place: u32) -> &[StoredRow]
    requires from { IsNonDecreasingBy from_of rows.now }
    requires reach { IsNonDecreasingBy reach_of rows.now }
    requires ordered { (i : ℕ) (d : StoredRow) → i < length rows.now → from_of (slice_index_or rows.now i d) ≤ reach_of (slice_index_or rows.now i d) }
    ensures { result.now ≡ filter (may_hold key place) rows.now }
{
    let at = keyed_place(key, place);
    let start = reach_up_to(rows, at);
    let end = from_up_to(rows, at);
    part_of(rows, start, end)
}

/// The rows of a key that may end at a place.
pub(crate) fn ending(rows: &[StoredRow], key: u32, place: u32) -> &[StoredRow]
    requires from { IsNonDecreasingBy from_of rows.now }
    requires reach { IsNonDecreasingBy reach_of rows.now }
    requires ordered { (i : ℕ) (d : StoredRow) → i < length rows.now → from_of (slice_index_or rows.now i d) ≤ reach_of (slice_index_or rows.now i d) }
    ensures { result.now ≡ filter (may_end key place) rows.now }
{
    let at = keyed_place(key, place);
    let start = reach_before(rows, at);
    let end = from_before(rows, at);
    part_of(rows, start, end)
}
