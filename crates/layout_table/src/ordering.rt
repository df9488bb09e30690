//! To put the rows of a type in order.

ghost use Rattle.std.specs.Prelude.{◌≡◌, ℕ, ◌<◌, ◌≤◌, ◌-◌, ◌^◌, length, set, slice_index_or};
ghost use Rattle.std.specs.List.Sorted.{IsNonDecreasingBy, IsPermutation};
ghost use Rattle.layout_table.specs.Stored.{from_of, keyed, reach_of};
ghost use Rattle.type_layout.specs.Listed.{In};
ghost use Rattle.layout_table.specs.Stored.{AreOrdered};
ghost use Rattle.layout_table.specs.Ordering.{StaysWithin, AreRaised, AreSameRows, raised};

use crate::near::keyed_place;
use crate::stored::StoredRow;

/// Sorts rows by their keys, and then by their offsets.
fn sort(rows: &mut [StoredRow])
    ensures same { IsPermutation rows.old rows.new }
    ensures sorted { IsNonDecreasingBy from_of rows.new }
{
    rows.sort_unstable_by_key(
        |row: &StoredRow| -> u64
            ensures { result ≡ from_of row.now }
        { keyed_place(row.key, row.lo) },
    );
}

/// Lets a row reach as far as the one before it, where that has its key.
fn raise(rows: &mut [StoredRow], i: usize)
    requires behind { 0 < i }
    requires within { i < length rows.old }
    ensures short { (d : StoredRow) → ((slice_index_or rows.old (i - 1) d).reach < 2 ^ 32) × ((slice_index_or rows.old i d).lo < 2 ^ 32) }
    ensures raised { (d : StoredRow) → rows.new ≡ set rows.old i (raised (slice_index_or rows.old (i - 1) d) (slice_index_or rows.old i d)) }
{
    let before = rows[i - 1];
    let row = rows[i];
    if before.key == row.key && row.reach < before.reach {
        rows[i] = StoredRow {
            reach: before.reach,
            ..row
        };
    }
}

/// Lets each row reach as far as those before it that have its key.
fn spread(rows: &mut [StoredRow])
    requires sorted { IsNonDecreasingBy from_of rows.old }
    ensures raised { AreRaised rows.old rows.new }
    ensures sorted { IsNonDecreasingBy reach_of rows.new }
    ensures short { StaysWithin rows.old rows.new }
{
    for i in 1..rows.len() {
        raise(rows, i);
    }
}

/// Puts rows in both orders.
pub(crate) fn order(rows: &mut [StoredRow])
    requires each { (row : StoredRow) → In row rows.old → row.lo ≤ row.reach }
    ensures ordered { AreOrdered rows.new }
    ensures same { AreSameRows rows.old rows.new }
    ensures short { StaysWithin rows.old rows.new }
{
    sort(rows);
    spread(rows);
}
