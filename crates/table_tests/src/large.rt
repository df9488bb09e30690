//! When a table is refused, and look-ups in large objects.

use crate::made_types::{array, bounds_in, tagged};
use c_types::{TypeNo, TypeTable};
use layout_table::Table;
use std::alloc::Global;
use std::process::Abort;
use std::test::Fail;

const CHAR: TypeNo = 2;

const INT: TypeNo = 6;

/// So many members that are structs of 1,000 characters.
fn structs_in_struct(alloc: Global, count: usize) -> Result<TypeTable, Fail> {
    let mut types = TypeTable::new(alloc)?;
    let chars = vec![in alloc; CHAR; 1000]?;
    let inner = tagged(alloc, &mut types, false, chars.as_slice())?;
    let members = vec![in alloc; inner; count]?;
    tagged(alloc, &mut types, false, members.as_slice())?;
    Ok(types)
}

#[test]
fn too_many_rows_are_refused(rt: HostRuntime) -> Result<(), Fail> {
    let types = structs_in_struct(rt.alloc(), 1000)?;
    assert!(rt; Table::build(rt.alloc(), &types).is_err());
    Ok(())
}

#[test]
fn fewer_rows_are_not_refused(rt: HostRuntime) -> Result<(), Fail> {
    let types = structs_in_struct(rt.alloc(), 900)?;
    let table = Table::build(rt.alloc(), &types)?;
    assert_eq!(rt; bounds_in(&table, 11, 900_000, 899_999, 10)?, None);
    assert_eq!(rt;
        bounds_in(&table, 11, 900_000, 899_000, 10)?,
        Some((899_000, 900_000))
    );
    Ok(())
}

/// Bounds in large arrays: of characters, and of pairs of them.
fn are_found_at_once(
    rt: &impl Abort,
    table: &Table,
    all: TypeNo,
    pair: TypeNo,
    pairs: TypeNo,
) -> Result<(), Fail> {
    assert_eq!(rt;
        bounds_in(table, all, 1_048_559, 1_048_558, CHAR)?,
        Some((0, 1_048_559))
    );
    assert_eq!(rt;
        bounds_in(table, pairs, 1_000_000, 999_998, pair)?,
        Some((0, 1_000_000))
    );
    assert_eq!(rt; bounds_in(table, pairs, 1_000_000, 999_999, INT)?, None);
    Ok(())
}

#[test]
fn an_array_has_rows_of_one_element(rt: HostRuntime) -> Result<(), Fail> {
    let mut types = TypeTable::new(rt.alloc())?;
    let all = array(&mut types, CHAR, 1_048_559)?;
    let pair = tagged(rt.alloc(), &mut types, false, &[CHAR, CHAR])?;
    let pairs = array(&mut types, pair, 500_000)?;
    let table = Table::build(rt.alloc(), &types)?;
    are_found_at_once(&rt, &table, all, pair, pairs)
}
