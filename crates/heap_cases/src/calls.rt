//! The calls that steps make.

use crate::types::type_no;
use crate::words::{bits, kind, pointer, reach, split, value};
use heap_model::Call;

fn alloc(rest: &str, fixed: bool) -> Option<Call> {
    let (elem, size) = split(rest);
    Some(Call::Alloc {
        elem: type_no(elem),
        size: bits(size)?,
        fixed,
    })
}

fn free(region: u32, rest: &str, fixed: bool) -> Option<Call> {
    Some(Call::Free {
        p: pointer(region, rest)?,
        fixed,
    })
}

fn check(region: u32, rest: &str) -> Option<Call> {
    let (p, want) = split(rest);
    Some(Call::Check {
        p: pointer(region, p)?,
        want: type_no(want),
    })
}

fn load(region: u32, rest: &str) -> Option<Call> {
    let (p, rest) = split(rest);
    let (within, of_kind) = split(rest);
    Some(Call::Load {
        p: pointer(region, p)?,
        reach: reach(region, within)?,
        kind: kind(of_kind)?,
    })
}

fn store(region: u32, rest: &str) -> Option<Call> {
    let (p, rest) = split(rest);
    let (within, rest) = split(rest);
    let (of_kind, stored) = split(rest);
    Some(Call::Store {
        p: pointer(region, p)?,
        reach: reach(region, within)?,
        kind: kind(of_kind)?,
        value: value(region, stored)?,
    })
}

fn add(region: u32, rest: &str) -> Option<Call> {
    let (p, rest) = split(rest);
    let (within, rest) = split(rest);
    let (of_kind, added) = split(rest);
    Some(Call::Add {
        p: pointer(region, p)?,
        reach: reach(region, within)?,
        kind: kind(of_kind)?,
        value: bits(added)?,
    })
}

/// The call of a step on the heap of a region, if its words make one.
pub fn call_of(region: u32, verb: &str, rest: &str) -> Option<Call> {
    match verb {
        "alloc" => alloc(rest, false),
        "alloc-fixed" => alloc(rest, true),
        "free" => free(region, rest, false),
        "free-fixed" => free(region, rest, true),
        "check" => check(region, rest),
        "load" => load(region, rest),
        "store" => store(region, rest),
        "add" => add(region, rest),
        _ => None,
    }
}
