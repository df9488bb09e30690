//! Types, and bounds in objects of whole numbers.

use crate::numbers::is_whole_number;
use c_types::{TypeNo, TypeTable};
use std::alloc::Global;
use std::test::Fail;
use type_layout::{Run, preferred, runs};

const CHAR: TypeNo = 2;

const UNSIGNED_CHAR: TypeNo = 3;

const SHORT: TypeNo = 4;

const INT: TypeNo = 6;

const UNSIGNED_INT: TypeNo = 7;

const LONG: TypeNo = 8;

/// The bounds at an offset of an object, for a wanted type, both whole numbers.
fn bounds(
    alloc: Global,
    elem: TypeNo,
    size: u64,
    k: u64,
    want: TypeNo,
) -> Result<Option<(u64, u64)>, Fail> {
    if !is_whole_number(elem) || !is_whole_number(want) {
        return Err(Fail::from("no whole number"));
    }
    let types = TypeTable::new(alloc)?;
    let runs = runs(alloc, &types, elem, size)?;
    Ok(preferred(&types, elem, size, runs.as_slice(), k, want).map(|found| (found.lo, found.hi)))
}

#[test]
fn runs_are_whole_values(rt: HostRuntime) -> Result<(), Fail> {
    let elem = INT;
    if !is_whole_number(elem) {
        return Err(Fail::from("no whole number"));
    }
    let types = TypeTable::new(rt.alloc())?;
    let found = runs(rt.alloc(), &types, elem, 9)?;
    let wanted = [Run {
        kind: INT,
        lo: 0,
        count: 2,
    }];
    assert_eq!(rt; found.as_slice(), wanted.as_slice());
    Ok(())
}

#[test]
fn bounds_are_the_preferred_ones(rt: HostRuntime) -> Result<(), Fail> {
    // the element type, the size, the offset, the wanted type, and the bounds
    let cases: [(TypeNo, u64, u64, TypeNo, Option<(u64, u64)>); 13] = [
        // at each value of the run, and at its end
        (INT, 8, 0, INT, Some((0, 8))),
        (INT, 8, 4, INT, Some((0, 8))),
        (INT, 8, 8, INT, Some((0, 8))),
        (INT, 8, 2, INT, None),
        (INT, 8, 12, INT, None),
        // whole numbers of one width match
        (INT, 8, 4, UNSIGNED_INT, Some((0, 8))),
        (INT, 8, 0, LONG, None),
        // characters as anything, and anything as characters: the whole object
        (CHAR, 8, 3, INT, Some((0, 8))),
        (INT, 9, 9, CHAR, Some((0, 9))),
        (CHAR, 8, 5, UNSIGNED_CHAR, Some((0, 8))),
        // bytes after the last value
        (INT, 11, 8, INT, Some((0, 8))),
        // an object of no bytes
        (INT, 0, 0, INT, Some((0, 0))),
        (CHAR, 0, 0, SHORT, Some((0, 0))),
    ];
    for (elem, size, k, want, found) in cases {
        assert_eq!(rt; bounds(rt.alloc(), elem, size, k, want)?, found);
    }
    Ok(())
}
