//! Calls on a shared heap, once their conditions are tested.

ghost use Rattle.std.specs.Prelude.{◌≡◌, true, IsTrue};
ghost use Rattle.heap_model.specs.Layouts.{layouts_of};
ghost use Rattle.heap_model.specs.Legal as legal;

use heap_model::{Call, Reply, fits, region_for};
use layout_table::Table;
use region_lock::{Gate, Pass};
use shared_heap::SharedHeap;
use std::sync::Wait;

/// Whether the type that a call names is one of the table.
fn knows_types(table: &Table, call: &Call) -> bool
    ensures { IsTrue result → legal.knows_types (layouts_of table.now) call.now ≡ true }
{
    match *call {
        Call::Alloc { elem, .. } => table.has(elem),
        Call::Check { want, .. } => table.has(want),
        Call::Free { .. } | Call::Load { .. } | Call::Store { .. } | Call::Add { .. } => true,
    }
}

/// The reply to a call of a pass, and none where the heap does not take it, the pass made all its calls, or memory is
/// short.
pub fn ask<R: Wait, G: Gate>(
    rt: &R,
    heap: &SharedHeap<'_>,
    table: &Table,
    budget: u64,
    pass: &mut Pass,
    gate: &G,
    call: Call,
) -> Option<Reply>
    requires own { pass.old.locks ≡ heap.now.locks }
    requires types { heap.now.types ≡ table.now }
    requires budget { heap.now.budget ≡ budget }
    ensures { pass.new.locks ≡ pass.old.locks }
{
    if region_for(&call).is_none() || !fits(&call) || !knows_types(table, &call) {
        return None;
    }
    if pass.made() >= budget {
        return None;
    }
    heap.call(rt, pass, gate, call).ok()
}
