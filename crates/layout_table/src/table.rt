//! The table and its look-ups.

ghost use Rattle.std.specs.Prelude.{ℕ, ◌≡◌, ◌≢◌, ◌≤◌, ◌<◌, ◌+◌, ◌*◌, ◌^◌, ◌-◌, ◌↔◌, [], length, map, take, drop, slice_get, Some, IfSome, IfOk, IfErr, IsTrue};
ghost use Rattle.std.specs.Option.{option_map};
ghost use Rattle.c_types.specs.Shapes.{size as size_of};
ghost use Rattle.c_types.specs.Table.{HasSize, IsNumber, shape_of};
ghost use Rattle.type_layout.specs.Preferred.{pref, bounds_of as bounds_of_match};
ghost use Rattle.type_layout.specs.Search.{IsOrdered};
ghost use Rattle.layout_table.specs.Strides as strides;
ghost use Rattle.layout_table.specs.Stored.{own_count, part_in, tail_part};
ghost use Rattle.layout_table.specs.declared.table.TableError.TheVariants.{Memory};
ghost use Rattle.layout_table.specs.Making.{IsSoFar};
ghost use Rattle.layout_table.specs.Counting.{IsTold};
ghost use Rattle.layout_table.specs.Tables.{rows_total, size_in, IsPart, IsTableOf, both_parts, rows_ending, rows_inside};

use crate::counting::test_count;
use crate::known::KnownTypes;
use crate::making::add_next;
use crate::matching::{key_of, object_match};
use crate::search::{part_ends, part_inside};
use crate::stored::{StoredEntry, StoredLevel, StoredPart, StoredRow, entry_of, rows_between};
use c_types::{TypeNo, TypeTable, law_table};
use std::alloc::{AllocError, Global};
use std::marker::Model;
use thiserror::Error;
use type_layout::{Bounds, Match, consider};

/// The table, which contracts see as the list of the types that it was built from.
#[derive(Drop)]
pub struct Table {
    types: KnownTypes,
    entries: Vec<StoredEntry>,
    rows: Vec<StoredRow>,
    levels: Vec<StoredLevel>,
}

impl Model for Table {
    ghost use Rattle.c_types.specs.Table.{Types};

    ghost Value = { Types };

    ghost use Rattle.layout_table.specs.Tables.{IsTableOf};

    ghost view = { λ t. t.types };

    ghost invariant = { λ t. IsTableOf t.types t.entries.items t.rows.items t.levels.items };
}

/// The values of an object's own type.
fn whole_part(entry: &StoredEntry, elem: TypeNo, size: u64) -> StoredPart
    requires { 0 < entry.now.size }
    ensures value { result ≡ record { kind = elem; base = 0; count = own_count entry.now.tail entry.now.size size } }
{
    let bytes = u64::from(entry.size);
    let count = if entry.tail == 0 {
        size / bytes
    } else {
        u64::from(bytes <= size)
    };
    StoredPart {
        kind: elem,
        base: 0,
        count,
    }
}

/// The elements of an object's flexible member, if its type has one, where elements have so many bytes.
fn tail_part(entry: &StoredEntry, bytes: u64, size: u64) -> Option<StoredPart>
    requires { 0 < bytes }
    ensures value { result ≡ tail_part entry.now.tail entry.now.tail_at bytes size }
{
    let at = u64::from(entry.tail_at);
    if entry.tail == 0 || at > size {
        return None;
    }
    Some(StoredPart {
        kind: entry.tail,
        base: at,
        count: (size - at) / bytes,
    })
}

/// Whether a match goes before each that ends at the offset `k`.
fn is_settled(best: Option<Match>, k: u64) -> bool
    ensures { result ≡ strides.is_settled k best }
{
    match best {
        Some(best) => best.hi != k,
        None => false,
    }
}

/// The bounds of a match, if there is one.
fn bounds_of(best: Option<Match>) -> Option<Bounds>
    ensures { result ≡ option_map bounds_of_match best }
{
    best.map(|best| Bounds {
        lo: best.lo,
        hi: best.hi,
    })
}

/// The best match so far, and of what a part has at the offset `k`: its values, and what is inside the one there.
fn inside_one(
    types: &KnownTypes,
    entries: &[StoredEntry],
    rows: &[StoredRow],
    levels: &[StoredLevel],
    part: &StoredPart,
    key: u32,
    k: u64,
    want: TypeNo,
    best: Option<Match>,
) -> Option<Match>
    requires table { IsTableOf types.now entries.now rows.now levels.now }
    requires kind { HasSize types.now part.now.kind }
    requires want { IsNumber types.now want }
    requires fits { part.now.base + part.now.count * size_of (shape_of types.now part.now.kind) < 2 ^ 64 }
    requires small { k < 2 ^ 32 }
    requires ordered { IsOrdered best }
    ensures value { result ≡ strides.part_inside k (shape_of types.now want) (rows_inside types.now entries.now rows.now levels.now key k (part_in types.now part.now)) best (part_in types.now part.now) }
    ensures ordered { IsOrdered result }
{
    let entry = entry_of(entries, part.kind);
    let own = rows_between(rows, entry.start, entry.end);
    part_inside(
        types,
        levels,
        own,
        part,
        u64::from(entry.size),
        key,
        k,
        want,
        best,
    )
}

/// The best match so far, and of what ends at the offset `k` inside a value of a part.
fn ends_one(
    types: &KnownTypes,
    entries: &[StoredEntry],
    rows: &[StoredRow],
    levels: &[StoredLevel],
    part: &StoredPart,
    key: u32,
    k: u64,
    want: TypeNo,
    best: Option<Match>,
) -> Option<Match>
    requires table { IsTableOf types.now entries.now rows.now levels.now }
    requires kind { HasSize types.now part.now.kind }
    requires want { IsNumber types.now want }
    requires small { k < 2 ^ 32 }
    requires ordered { IsOrdered best }
    ensures value { result ≡ strides.part_ends k (shape_of types.now want) (rows_ending types.now entries.now rows.now levels.now key k (part_in types.now part.now)) best (part_in types.now part.now) }
    ensures ordered { IsOrdered result }
{
    let entry = entry_of(entries, part.kind);
    let own = rows_between(rows, entry.start, entry.end);
    part_ends(
        types,
        levels,
        own,
        part,
        u64::from(entry.size),
        key,
        k,
        want,
        best,
    )
}

/// The elements of an object's flexible member, if there is one.
fn tail_of(
    types: &KnownTypes,
    entries: &[StoredEntry],
    entry: &StoredEntry,
    size: u64,
) -> Option<StoredPart>
    requires known { entry.now.tail ≢ 0 → (1 ≤ entry.now.tail) × (entry.now.tail ≤ length entries.now) }
    requires sized { (e : StoredEntry) → entry.now.tail ≢ 0 → slice_get entries.now (entry.now.tail - 1) ≡ Some e → (e.size ≡ size_of (shape_of types.now entry.now.tail)) × (0 < e.size) }
    ensures value { result ≡ tail_part entry.now.tail entry.now.tail_at (size_of (shape_of types.now entry.now.tail)) size }
{
    let _ = types;
    if entry.tail == 0 {
        return None;
    }
    let bytes = u64::from(entry_of(entries, entry.tail).size);
    tail_part(entry, bytes, size)
}

/// The best match of what has the offset `k` inside, in both parts of an object.
fn inside_both(
    types: &KnownTypes,
    entries: &[StoredEntry],
    rows: &[StoredRow],
    levels: &[StoredLevel],
    own: &StoredPart,
    tail: Option<StoredPart>,
    key: u32,
    k: u64,
    want: TypeNo,
) -> Option<Match>
    requires table { IsTableOf types.now entries.now rows.now levels.now }
    requires own { IsPart types.now (2 ^ 32) own.now }
    requires tail { IfSome tail (λ part. IsPart types.now (2 ^ 32) part) }
    requires want { IsNumber types.now want }
    requires small { k < 2 ^ 32 }
    ensures value { result ≡ strides.all_inside k (shape_of types.now want) (rows_inside types.now entries.now rows.now levels.now key k) None (both_parts types.now own.now tail) }
    ensures ordered { IsOrdered result }
{
    let best = inside_one(types, entries, rows, levels, own, key, k, want, None);
    match tail {
        Some(tail) => inside_one(types, entries, rows, levels, &tail, key, k, want, best),
        None => best,
    }
}

/// The best match so far, and of what ends at the offset `k`, in both parts of an object.
fn ends_both(
    types: &KnownTypes,
    entries: &[StoredEntry],
    rows: &[StoredRow],
    levels: &[StoredLevel],
    own: &StoredPart,
    tail: Option<StoredPart>,
    key: u32,
    k: u64,
    want: TypeNo,
    best: Option<Match>,
) -> Option<Match>
    requires table { IsTableOf types.now entries.now rows.now levels.now }
    requires own { IsPart types.now (2 ^ 32) own.now }
    requires tail { IfSome tail (λ part. IsPart types.now (2 ^ 32) part) }
    requires want { IsNumber types.now want }
    requires small { k < 2 ^ 32 }
    requires ordered { IsOrdered best }
    ensures value { result ≡ strides.all_ends k (shape_of types.now want) (rows_ending types.now entries.now rows.now levels.now key k) best (both_parts types.now own.now tail) }
{
    let best = ends_one(types, entries, rows, levels, own, key, k, want, best);
    match tail {
        Some(tail) => ends_one(types, entries, rows, levels, &tail, key, k, want, best),
        None => best,
    }
}

/// The best match of an object at the offset `k`: of what has the offset inside, or else of what ends there.
fn best_of(
    types: &KnownTypes,
    entries: &[StoredEntry],
    rows: &[StoredRow],
    levels: &[StoredLevel],
    elem: TypeNo,
    own: &StoredPart,
    tail: Option<StoredPart>,
    size: u64,
    key: u32,
    k: u64,
    want: TypeNo,
) -> Option<Match>
    requires table { IsTableOf types.now entries.now rows.now levels.now }
    requires elem { IsNumber types.now elem }
    requires own { IsPart types.now (2 ^ 32) own.now }
    requires tail { IfSome tail (λ part. IsPart types.now (2 ^ 32) part) }
    requires want { IsNumber types.now want }
    requires small { k < 2 ^ 32 }
    ensures value { result ≡ strides.best_of_parts (shape_of types.now elem) size k (shape_of types.now want) (rows_inside types.now entries.now rows.now levels.now key k) (rows_ending types.now entries.now rows.now levels.now key k) (both_parts types.now own.now tail) }
{
    let inside = inside_both(types, entries, rows, levels, own, tail, key, k, want);
    let first = consider(k, inside, object_match(types, elem, size, want));
    if is_settled(first, k) {
        return first;
    }
    ends_both(types, entries, rows, levels, own, tail, key, k, want, first)
}

/// The preferred bounds at the offset `k` of an object of `size` bytes that is made of values of a type, for a wanted type.
fn find(
    types: &KnownTypes,
    entries: &[StoredEntry],
    rows: &[StoredRow],
    levels: &[StoredLevel],
    elem: TypeNo,
    size: u64,
    k: u64,
    want: TypeNo,
) -> Option<Bounds>
    requires table { IsTableOf types.now entries.now rows.now levels.now }
    requires elem { HasSize types.now elem }
    requires want { HasSize types.now want }
    requires size { size ≤ 1048559 }
    ensures value { result ≡ pref (shape_of types.now elem) size k (shape_of types.now want) }
{
    if k > size {
        return None;
    }
    let key = key_of(types, want);
    let entry = entry_of(entries, elem);
    let own = whole_part(&entry, elem, size);
    let tail = tail_of(types, entries, &entry, size);
    bounds_of(best_of(
        types, entries, rows, levels, elem, &own, tail, size, key, k, want,
    ))
}

/// Why a table is not built.
#[derive(Debug, Drop, Error)]
pub enum TableError {
    /// The types that have a size have more than 1,000,000 rows.
    #[error("too many runs")]
    TooManyRuns,
    #[error("out of memory")]
    Memory(AllocError),
}

impl From<AllocError> for TableError {
    ghost from_gives = { λ e r. r ≡ Memory e };

    fn from(e: AllocError) -> TableError {
        TableError::Memory(e)
    }
}

/// The size of a type by its entry, 0 where it has none.
fn size_in(entries: &[StoredEntry], t: TypeNo) -> u32
    ensures { result ≡ size_in entries.now t }
{
    if t == 0 || t as usize > entries.len() {
        return 0;
    }
    entry_of(entries, t).size
}

/// The entry of a type that has no size.
const NO_ENTRY: StoredEntry = StoredEntry {
    size: 0,
    start: 0,
    end: 0,
    tail: 0,
    tail_at: 0,
};

/// The entries before any type is added.
fn no_entries(alloc: Global, types: &TypeTable) -> Result<Vec<StoredEntry>, AllocError>
    ensures { IfOk result (λ entries. IsSoFar types.now [] entries.items [] []) }
{
    vec![in alloc; NO_ENTRY; types.len()]
}

impl Table {
    /// The table of these types. It is refused where the types that have a size have too many rows, before memory is taken
    /// for them.
    pub fn build(alloc: Global, types: &TypeTable) -> Result<Table, TableError>
        ensures built { IfOk result (λ table. table ≡ types.now) }
        ensures few { IfOk result (λ _. rows_total types.now ≤ 1000000) }
        ensures told { IfErr result (IsTold types.now) }
    {
        test_count(alloc, types)?;
        let known = KnownTypes::copy_of(alloc, types)?;
        let mut entries = no_entries(alloc, types)?;
        let mut rows = Vec::new(alloc);
        let mut levels = Vec::new(alloc);
        let numbers = types.known_types();
        for i in 0..numbers.len() {
            add_next(
                alloc,
                types,
                &mut entries,
                &mut rows,
                &mut levels,
                numbers,
                i,
            )?;
        }
        law_table(types);
        Ok(Table {
            types: known,
            entries,
            rows,
            levels,
        })
    }

    /// Whether a number is that of a type that has a size.
    pub fn has(&self, t: TypeNo) -> bool
        ensures { IsTrue result ↔ HasSize self.now t }
    {
        size_in(&self.entries, t) != 0
    }

    /// The preferred bounds at the offset `k` of an object of `size` bytes that is made of values of a type, for a wanted
    /// type. There are none where nothing there matches it.
    pub fn lookup(&self, elem: TypeNo, size: u64, k: u64, want: TypeNo) -> Option<Bounds>
        requires elem { HasSize self.now elem }
        requires want { HasSize self.now want }
        requires size { size ≤ 1048559 }
        ensures value { result ≡ pref (shape_of self.now elem) size k (shape_of self.now want) }
    {
        find(
            &self.types,
            &self.entries,
            &self.rows,
            &self.levels,
            elem,
            size,
            k,
            want,
        )
    }
}
