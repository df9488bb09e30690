//! To find the runs of rows.

ghost use Rattle.std.specs.Prelude.{◌≡◌, ◌≤◌, ◌<◌, ◌+◌, ◌*◌, ◌^◌, length, map, IfSome};
ghost use Rattle.std.specs.Option.{option_map};
ghost use Rattle.c_types.specs.Shapes.{size as size_of};
ghost use Rattle.c_types.specs.Table.{HasSize, IsNumber, shape_of};
ghost use Rattle.type_layout.specs.Search.{IsOrdered};
ghost use Rattle.layout_table.specs.Strides as strides;
ghost use Rattle.layout_table.specs.Stored.{AreLevels, AreOrdered, AreRows, IsRow, chain, decoded, near, near_end, part_in, run_from, start_before, start_of};

use crate::known::KnownTypes;
use crate::matching::matched;
use crate::near::{ending, holding};
use crate::stored::{StoredLevel, StoredPart, StoredRow};
use c_types::TypeNo;
use type_layout::{Match, consider};

/// How far behind the start of its element, through all arrays of a chain, an offset is.
fn descend(levels: &[StoredLevel], head: usize, at: u64) -> Option<u64>
    requires levels { AreLevels levels.now }
    requires head { head ≤ length levels.now }
    ensures { result ≡ strides.descend (chain levels.now head) at }
{
    let mut head = head;
    let mut at = at;
    while head != 0 {
        let level = levels[head - 1];
        let stride = u64::from(level.stride);
        if at / stride >= u64::from(level.count) {
            return None;
        }
        at %= stride;
        head = level.inside;
    }
    Some(at)
}

/// Where the run of a row starts in a value at an offset, at or before a place of the value.
fn start_in(levels: &[StoredLevel], row: &StoredRow, at: u64, place: u64) -> Option<u64>
    requires levels { AreLevels levels.now }
    requires head { row.now.levels ≤ length levels.now }
    requires fits { at + place < 2 ^ 64 }
    ensures value { result ≡ start_of (chain levels.now row.now.levels) row.now at place }
    ensures within { IfSome result (λ lo. lo ≤ at + place) }
{
    let lo = u64::from(row.lo);
    if lo > place {
        return None;
    }
    let past = descend(levels, row.levels, place - lo)?;
    Some(at + (place - past))
}

/// Where the run of a row starts that ends at the offset `k`, in a value at an offset.
fn start_to(levels: &[StoredLevel], row: &StoredRow, at: u64, k: u64) -> Option<u64>
    requires levels { AreLevels levels.now }
    requires head { row.now.levels ≤ length levels.now }
    requires inside { at ≤ k }
    ensures value { result ≡ start_before (chain levels.now row.now.levels) row.now at k }
    ensures within { IfSome result (λ lo. lo ≤ k) }
{
    let width = u64::from(row.count) * u64::from(row.size);
    if width > k - at {
        return None;
    }
    start_in(levels, row, at, k - at - width)
}

/// The match of the run of a row that starts at an offset, if there is one and it matches.
fn match_at(types: &KnownTypes, row: &StoredRow, start: Option<u64>, want: TypeNo) -> Option<Match>
    requires kind { HasSize types.now row.now.kind }
    requires want { IsNumber types.now want }
    requires step { row.now.size ≡ size_of (shape_of types.now row.now.kind) }
    requires sized { 0 < row.now.size }
    requires small { IfSome start (λ lo. lo < 2 ^ 32) }
    ensures value { result ≡ strides.match_found (shape_of types.now want) (option_map (run_from types.now row.now) start) }
    ensures step { IfSome result (λ m. 0 < m.step) }
{
    let start = start?;
    matched(
        types,
        row.kind,
        start,
        u64::from(row.count),
        u64::from(row.size),
        want,
    )
}

/// The best match so far, and of the runs of rows that have the offset `k` inside, in a value at an offset.
fn scan_around(
    types: &KnownTypes,
    levels: &[StoredLevel],
    rows: &[StoredRow],
    at: u64,
    k: u64,
    want: TypeNo,
    best: Option<Match>,
) -> Option<Match>
    requires rows { AreRows types.now levels.now rows.now }
    requires levels { AreLevels levels.now }
    requires want { IsNumber types.now want }
    requires inside { at ≤ k }
    requires small { k < 2 ^ 32 }
    requires ordered { IsOrdered best }
    ensures value { result ≡ strides.scan k (shape_of types.now want) (strides.around at k) best (map (decoded types.now levels.now) rows.now) }
    ensures ordered { IsOrdered result }
{
    let mut best = best;
    for row in rows {
        let start = start_in(levels, row, at, k - at);
        best = consider(k, best, match_at(types, row, start, want));
    }
    best
}

/// The best match so far, and of the runs of rows that end at the offset `k`, in a value at an offset.
fn scan_before(
    types: &KnownTypes,
    levels: &[StoredLevel],
    rows: &[StoredRow],
    at: u64,
    k: u64,
    want: TypeNo,
    best: Option<Match>,
) -> Option<Match>
    requires rows { AreRows types.now levels.now rows.now }
    requires levels { AreLevels levels.now }
    requires want { IsNumber types.now want }
    requires inside { at ≤ k }
    requires small { k < 2 ^ 32 }
    requires ordered { IsOrdered best }
    ensures value { result ≡ strides.scan k (shape_of types.now want) (strides.before at k) best (map (decoded types.now levels.now) rows.now) }
    ensures ordered { IsOrdered result }
{
    let mut best = best;
    for row in rows {
        let start = start_to(levels, row, at, k);
        best = consider(k, best, match_at(types, row, start, want));
    }
    best
}

/// Where the value begins that the offset `k` is in, of so many values of a size from an offset.
fn value_at(bytes: u64, base: u64, count: u64, k: u64) -> Option<u64>
    requires { 0 < bytes }
    ensures value { result ≡ strides.value_at bytes base count k }
    ensures within { IfSome result (λ at. at ≤ k) }
{
    if base > k {
        return None;
    }
    let i = (k - base) / bytes;
    if i >= count {
        return None;
    }
    Some(base + i * bytes)
}

/// Where the value begins that the offset `k` is in or at the end of, but not at its beginning.
fn value_before(bytes: u64, base: u64, count: u64, k: u64) -> Option<u64>
    requires { 0 < bytes }
    ensures value { result ≡ strides.value_before bytes base count k }
    ensures within { IfSome result (λ at. at ≤ k) }
{
    if base >= k {
        return None;
    }
    value_at(bytes, base, count, k - 1)
}

/// The best match so far, and of what a part has at the offset `k`: its values, and what is inside the one there.
pub(crate) fn part_inside(
    types: &KnownTypes,
    levels: &[StoredLevel],
    rows: &[StoredRow],
    part: &StoredPart,
    bytes: u64,
    key: u32,
    k: u64,
    want: TypeNo,
    best: Option<Match>,
) -> Option<Match>
    requires rows { AreRows types.now levels.now rows.now }
    requires sorted { AreOrdered rows.now }
    requires levels { AreLevels levels.now }
    requires kind { IsNumber types.now part.now.kind }
    requires want { IsNumber types.now want }
    requires bytes { bytes ≡ size_of (shape_of types.now part.now.kind) }
    requires sized { 0 < bytes }
    requires fits { part.now.base + part.now.count * bytes < 2 ^ 64 }
    requires small { k < 2 ^ 32 }
    requires ordered { IsOrdered best }
    ensures value { result ≡ strides.part_inside k (shape_of types.now want) (map (decoded types.now levels.now) (near key k (strides.value_at bytes part.now.base part.now.count k) rows.now)) best (part_in types.now part.now) }
    ensures ordered { IsOrdered result }
{
    let best = consider(
        k,
        best,
        matched(types, part.kind, part.base, part.count, bytes, want),
    );
    match value_at(bytes, part.base, part.count, k) {
        Some(at) => {
            let rows = holding(rows, key, (k - at) as u32);
            scan_around(types, levels, rows, at, k, want, best)
        }
        None => best,
    }
}

/// The best match so far, and of what ends at the offset `k` inside a value of a part.
pub(crate) fn part_ends(
    types: &KnownTypes,
    levels: &[StoredLevel],
    rows: &[StoredRow],
    part: &StoredPart,
    bytes: u64,
    key: u32,
    k: u64,
    want: TypeNo,
    best: Option<Match>,
) -> Option<Match>
    requires rows { AreRows types.now levels.now rows.now }
    requires sorted { AreOrdered rows.now }
    requires levels { AreLevels levels.now }
    requires want { IsNumber types.now want }
    requires bytes { bytes ≡ size_of (shape_of types.now part.now.kind) }
    requires sized { 0 < bytes }
    requires small { k < 2 ^ 32 }
    requires ordered { IsOrdered best }
    ensures value { result ≡ strides.part_ends k (shape_of types.now want) (map (decoded types.now levels.now) (near_end key k (strides.value_before bytes part.now.base part.now.count k) rows.now)) best (part_in types.now part.now) }
    ensures ordered { IsOrdered result }
{
    match value_before(bytes, part.base, part.count, k) {
        Some(at) => {
            let rows = ending(rows, key, (k - at) as u32);
            scan_before(types, levels, rows, at, k, want, best)
        }
        None => best,
    }
}
