//! Look-ups with values from outside, and beside the slow way.

ghost use Rattle.std.specs.Prelude.{◌≡◌, map};
ghost use Rattle.c_types.specs.Table.{HasSize, shape_of};
ghost use Rattle.type_layout.specs.Runs.{runs_of_object, with_number};

use crate::made_types::{array, bounds_in, flexible, has_size, pointer, tagged};
use c_types::{TypeNo, TypeTable};
use layout_table::Table;
use std::alloc::Global;
use std::process::Abort;
use std::test::Fail;
use type_layout::{Run, preferred, runs};

/// The largest object.
const LARGEST: u64 = 1_048_559;

const VOID: TypeNo = 1;

const CHAR: TypeNo = 2;

const UNSIGNED_CHAR: TypeNo = 3;

const SHORT: TypeNo = 4;

const INT: TypeNo = 6;

const LONG: TypeNo = 8;

/// `struct { char s[8]; int n; int a[3]; }`
fn named(alloc: Global, types: &mut TypeTable) -> Result<TypeNo, Fail> {
    let name = array(types, CHAR, 8)?;
    let three = array(types, INT, 3)?;
    tagged(alloc, types, false, &[name, INT, three])
}

/// `union { struct { int a; int b[2]; } s; int c[2]; }`
fn either(alloc: Global, types: &mut TypeTable) -> Result<TypeNo, Fail> {
    let two = array(types, INT, 2)?;
    let inner = tagged(alloc, types, false, &[INT, two])?;
    tagged(alloc, types, true, &[inner, two])
}

/// `struct { int n; long v[]; }`
fn extended(alloc: Global, types: &mut TypeTable) -> Result<TypeNo, Fail> {
    let longs = flexible(types, LONG)?;
    tagged(alloc, types, false, &[INT, longs])
}

#[test]
fn a_new_table_has_the_first_types(rt: HostRuntime) -> Result<(), Fail> {
    let types = TypeTable::new(rt.alloc())?;
    let table = Table::build(rt.alloc(), &types)?;
    assert_eq!(rt; bounds_in(&table, INT, 8, 8, INT)?, Some((0, 8)));
    assert_eq!(rt; table.has(VOID), false);
    assert_eq!(rt; table.has(INT), true);
    assert_eq!(rt; table.has(0), false);
    assert_eq!(rt; table.has(10), false);
    Ok(())
}

/// Bounds of members: the element type, the size, the offset, the wanted type, and the bounds.
fn are_those_of_members(
    rt: &impl Abort,
    table: &Table,
    s: TypeNo,
    u: TypeNo,
    v: TypeNo,
) -> Result<(), Fail> {
    let cases = [
        (s, 24, 16, INT, Some((12, 24))),
        (s, 24, 12, INT, Some((12, 24))),
        (s, 24, 4, CHAR, Some((0, 8))),
        (s, 24, 8, CHAR, Some((0, 24))),
        (s, 24, 24, CHAR, Some((0, 24))),
        (s, 24, 2, INT, None),
        (s, 24, 25, INT, None),
        (s, 48, 36, INT, Some((36, 48))),
        (u, 12, 4, INT, Some((0, 8))),
        (v, 32, 16, LONG, Some((8, 32))),
        (v, 32, 32, LONG, Some((8, 32))),
    ];
    for (elem, size, k, want, found) in cases {
        assert_eq!(rt; bounds_in(table, elem, size, k, want)?, found);
    }
    Ok(())
}

#[test]
fn bounds_are_those_of_members(rt: HostRuntime) -> Result<(), Fail> {
    let mut types = TypeTable::new(rt.alloc())?;
    let s = named(rt.alloc(), &mut types)?;
    let u = either(rt.alloc(), &mut types)?;
    let v = extended(rt.alloc(), &mut types)?;
    let table = Table::build(rt.alloc(), &types)?;
    are_those_of_members(&rt, &table, s, u, v)
}

/// Types of each form: arrays of three levels, unions in arrays of structs, characters, pointers to different types.
fn add_many(alloc: Global, types: &mut TypeTable) -> Result<(), Fail> {
    let s = named(alloc, types)?;
    let u = either(alloc, types)?;
    extended(alloc, types)?;
    for of in [CHAR, UNSIGNED_CHAR, SHORT, INT, LONG, s, u] {
        let row = array(types, of, 3)?;
        let plane = array(types, row, 2)?;
        array(types, plane, 2)?;
        let to = pointer(types, of)?;
        let beside = tagged(alloc, types, false, &[of, to, row])?;
        tagged(alloc, types, true, &[plane, beside])?;
    }
    let to_void = pointer(types, VOID)?;
    let to_char = pointer(types, CHAR)?;
    let pair = tagged(alloc, types, false, &[to_void, to_char, CHAR])?;
    let pairs = array(types, pair, 2)?;
    let side = tagged(alloc, types, true, &[pairs, to_void])?;
    array(types, side, 2)?;
    Ok(())
}

/// Whether a look-up answers as the slow way does over the runs of the object.
fn agrees(
    types: &TypeTable,
    table: &Table,
    elem: TypeNo,
    size: u64,
    all: &[Run],
    k: u64,
    want: TypeNo,
) -> bool
    requires elem { HasSize types.now elem }
    requires want { HasSize types.now want }
    requires runs { all.now ≡ map with_number (runs_of_object (shape_of types.now elem) size) }
{
    if !table.has(elem) || !table.has(want) || size > LARGEST {
        return false;
    }
    preferred(types, elem, size, all, k, want) == table.lookup(elem, size, k, want)
}

/// How many look-ups of an object differ from the slow way: at each offset, for each type that has a size.
fn differences_over(types: &TypeTable, table: &Table, elem: TypeNo, size: u64, all: &[Run]) -> u32
    requires elem { HasSize types.now elem }
    requires runs { all.now ≡ map with_number (runs_of_object (shape_of types.now elem) size) }
{
    let mut count: u32 = 0;
    for want in 1..71 {
        if has_size(types, want) {
            for k in 0..size.saturating_add(2) {
                count = count.saturating_add(u32::from(!agrees(
                    types, table, elem, size, all, k, want,
                )));
            }
        }
    }
    count
}

fn differences(
    alloc: Global,
    types: &TypeTable,
    table: &Table,
    elem: TypeNo,
    size: u64,
) -> Result<u32, Fail> {
    if !has_size(types, elem) {
        return Ok(0);
    }
    let all = runs(alloc, types, elem, size)?;
    Ok(differences_over(types, table, elem, size, &all))
}

fn all_agree(rt: &impl Abort, alloc: Global, types: &TypeTable, table: &Table) -> Result<(), Fail> {
    for elem in 1..71 {
        for size in [24, 49, 60] {
            assert_eq!(rt; differences(alloc, types, table, elem, size)?, 0);
        }
    }
    Ok(())
}

#[test]
fn look_ups_agree_with_the_slow_way(rt: HostRuntime) -> Result<(), Fail> {
    let mut types = TypeTable::new(rt.alloc())?;
    add_many(rt.alloc(), &mut types)?;
    let table = Table::build(rt.alloc(), &types)?;
    all_agree(&rt, rt.alloc(), &types, &table)
}
