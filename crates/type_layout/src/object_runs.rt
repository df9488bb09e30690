//! The runs of an object.

ghost use Rattle.std.specs.Prelude.{◌≡◌, IfOk, IfSome, map};
ghost use Rattle.std.specs.Option.{option_map};
ghost use Rattle.c_types.specs.Shapes.{size};
ghost use Rattle.c_types.specs.Table.{HasSize, shape_of};
ghost use Rattle.type_layout.specs.Runs.{runs_of_object, with_number};
ghost use Rattle.type_layout.specs.Runs as spec;

use crate::opening::list_run;
use c_types::{CType, TypeNo, TypeTable, law_table};
use std::alloc::{AllocError, Global};

/// Consecutive values of one type: their type, the offset of the first in bytes, and how many there are.
#[derive(Clone, Copy, Debug, PartialEq, Eq)]
pub struct Run {
    pub kind: TypeNo,
    pub lo: u64,
    pub count: u64,
}

/// A flexible member: its offset in bytes, and the type of its elements.
#[derive(Clone, Copy)]
struct Tail {
    offset: u64,
    of: TypeNo,
}

/// The size of a type in bytes.
pub fn size_in(types: &TypeTable, t: TypeNo) -> u64
    requires { HasSize types.now t }
    ensures { result ≡ size (shape_of types.now t) }
{
    match types.size_of(t) {
        Some(size) => u64::from(size),
        None => 0,
    }
}

/// The flexible member of a type, if it has one.
fn tail_of(types: &TypeTable, elem: TypeNo) -> Option<Tail>
    requires { HasSize types.now elem }
    ensures tail { option_map (λ tail. (tail.offset, shape_of types.now tail.of)) result ≡
        spec.flexible_of (shape_of types.now elem) }
    ensures known { IfSome result (λ tail. HasSize types.now tail.of) }
{
    law_table(types);
    let CType::Struct(_) = types.get(elem) else {
        return None;
    };
    let last = types.members(elem).last()?;
    match types.get(last.kind) {
        CType::Flexible(of) => Some(Tail {
            offset: u64::from(last.offset),
            of,
        }),
        _ => None,
    }
}

/// The runs of an object of `size` bytes that is made of values of one type, in the order in which they nest.
pub fn runs(
    alloc: Global,
    types: &TypeTable,
    elem: TypeNo,
    size: u64,
) -> Result<Vec<Run>, AllocError>
    requires { HasSize types.now elem }
    ensures { IfOk result (λ runs. runs.items ≡ map with_number (runs_of_object (shape_of types.now elem) size)) }
{
    law_table(types);
    let mut runs = Vec::new(alloc);
    let width = size_in(types, elem);
    let Some(tail) = tail_of(types, elem) else {
        let all = Run {
            kind: elem,
            lo: 0,
            count: size / width,
        };
        list_run(alloc, types, all, &mut runs)?;
        return Ok(runs);
    };
    let one = Run {
        kind: elem,
        lo: 0,
        count: u64::from(width <= size),
    };
    list_run(alloc, types, one, &mut runs)?;
    if tail.offset > size {
        return Ok(runs);
    }
    let elements = Run {
        kind: tail.of,
        lo: tail.offset,
        count: (size - tail.offset) / size_in(types, tail.of),
    };
    list_run(alloc, types, elements, &mut runs)?;
    Ok(runs)
}
