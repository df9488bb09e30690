//! Two passes that meet.

ghost use Rattle.std.specs.Prelude.{◌≡◌, IfOk};
ghost use Rattle.region_lock.specs.Known.{newcomer};

use crate::asking::ask;
use heap_model::{Call, History};
use layout_table::Table;
use region_lock::{OpenGate, Pass};
use shared_heap::SharedHeap;
use std::alloc::{AllocError, Global};
use std::sync::Wait;

/// How many calls each pass may make.
const BUDGET: u64 = 10;

/// The last stamps that the passes knew: the first one's in the end, the second one's after the meeting and in the end.
#[derive(Clone, Copy, Debug, PartialEq, Eq)]
pub struct Stamps {
    pub first: u64,
    pub met: u64,
    pub second: u64,
}

/// A check of a pointer into a region, which names no object.
fn call_in(region: u64) -> Call {
    Call::Check {
        p: (1u64 << 40).saturating_add(region.saturating_mul(1 << 32)),
        want: 6,
    }
}

/// A new shared heap and its two passes.
fn pair(alloc: Global, table: &Table) -> Result<(SharedHeap<'_>, Pass, Pass), AllocError>
    ensures first { IfOk result (λ r. r.1 ≡ newcomer r.0.locks 0) }
    ensures second { IfOk result (λ r. r.2 ≡ newcomer r.0.locks 1) }
    ensures types { IfOk result (λ r. r.0.types ≡ table.entry.now) }
    ensures counts { IfOk result (λ r. (r.0.passes ≡ 2) × (r.0.budget ≡ 10)) }
{
    let (heap, mut passes) = SharedHeap::start(alloc, table, 1, BUDGET)?;
    let second = passes.pop().ok_or(AllocError)?;
    let first = passes.pop().ok_or(AllocError)?;
    Ok((heap, first, second))
}

/// The history of a heap whose two passes are back.
fn close(
    alloc: Global,
    heap: SharedHeap<'_>,
    first: Pass,
    second: Pass,
) -> Result<History, AllocError>
    requires passes { heap.passes ≡ 2 }
    requires own { (first.locks ≡ heap.locks) × (second.locks ≡ heap.locks) }
{
    let mut passes = Vec::new(alloc);
    passes.push(first)?;
    passes.push(second)?;
    heap.close(passes)
}

/// The first of two passes makes a call in region 1; the second meets it, and makes a call in region 2.
pub fn run_meeting<R: Wait>(
    rt: &R,
    alloc: Global,
    table: &Table,
) -> Result<(History, Stamps), AllocError> {
    let (heap, mut first, mut second) = pair(alloc, table)?;
    ask(rt, &heap, table, BUDGET, &mut first, &OpenGate, call_in(1));
    heap.meet(&mut second, &mut first);
    let met = second.last();
    ask(rt, &heap, table, BUDGET, &mut second, &OpenGate, call_in(2));
    let stamps = Stamps {
        first: first.last(),
        met,
        second: second.last(),
    };
    Ok((close(alloc, heap, first, second)?, stamps))
}
