//! What each worker does.

ghost use Rattle.std.specs.Prelude.{◌≡◌};

use crate::asking::ask;
use heap_model::{AccessKind, Call, Reach, Reply, Value};
use layout_table::Table;
use lowfat_regions::{REGIONS, size_of_region};
use region_lock::{Gate, Pass};
use shared_heap::SharedHeap;
use std::sync::Wait;

/// The type `char`.
const CHAR: u32 = 2;

/// The type `int`.
const INT: u32 = 6;

/// The first object of region 1: its slot's first byte is 2^32, and its version 1.
pub const SHARED: u64 = (1 << 40) + (1 << 32) + 16;

/// The bytes of that object.
const SHARED_REACH: Reach = Reach {
    lo: (1 << 32) + 16,
    hi: (1 << 32) + 24,
};

/// What the workers do in turn.
#[derive(Clone, Copy)]
pub enum Script {
    /// Worker 0 makes an object of eight bytes, the first of region 1.
    Open,
    /// Each worker but worker 0 makes an object of one `int`.
    Place,
    /// Each worker but worker 0 adds 1 to that object so many times.
    Add(u32),
    /// Each worker but worker 0 makes all six calls in each region, and adds 1 to that object behind each.
    All,
    /// Each worker makes a call in 26 regions, one after the other. Worker 0 is one region behind the others.
    Rounds,
    /// Worker 0 loads what that object holds.
    Look,
}

/// A whole number of eight bytes.
fn number(bits: u64) -> Value {
    Value {
        bits,
        pointer: false,
    }
}

/// The addition of 1 to the shared object.
fn addition() -> Call {
    Call::Add {
        p: SHARED,
        reach: SHARED_REACH,
        kind: AccessKind::I64,
        value: 1,
    }
}

/// The calls on an object of a region, from its beginning to behind its end.
fn calls_on<R: Wait, G: Gate>(
    rt: &R,
    heap: &SharedHeap<'_>,
    table: &Table,
    budget: u64,
    pass: &mut Pass,
    gate: &G,
    p: u64,
)
    requires own { pass.old.locks ≡ heap.now.locks }
    requires types { heap.now.types ≡ table.now }
    requires budget { heap.now.budget ≡ budget }
    ensures { pass.new.locks ≡ pass.old.locks }
{
    let want = Call::Check { p, want: CHAR };
    let Some(Reply::Found(reach)) = ask(rt, heap, table, budget, pass, gate, want) else {
        return;
    };
    let kind = AccessKind::I64;
    let value = number(u64::from(pass.worker()));
    let load = Call::Load { p, reach, kind };
    let free = Call::Free { p, fixed: false };
    let calls = [
        Call::Store {
            p,
            reach,
            kind,
            value,
        },
        load,
        Call::Add {
            p,
            reach,
            kind,
            value: 3,
        },
        load,
        free,
        want,
        load,
        free,
    ];
    for call in calls {
        ask(rt, heap, table, budget, pass, gate, call);
    }
}

/// All six calls in a region.
fn visit<R: Wait, G: Gate>(
    rt: &R,
    heap: &SharedHeap<'_>,
    table: &Table,
    budget: u64,
    pass: &mut Pass,
    gate: &G,
    size: u64,
)
    requires own { pass.old.locks ≡ heap.now.locks }
    requires types { heap.now.types ≡ table.now }
    requires budget { heap.now.budget ≡ budget }
    ensures { pass.new.locks ≡ pass.old.locks }
{
    let alloc = Call::Alloc {
        elem: CHAR,
        size,
        fixed: false,
    };
    if let Some(Reply::Placed(p)) = ask(rt, heap, table, budget, pass, gate, alloc) {
        calls_on(rt, heap, table, budget, pass, gate, p);
    }
    ask(rt, heap, table, budget, pass, gate, addition());
}

/// The same call so many times.
fn repeat<R: Wait, G: Gate>(
    rt: &R,
    heap: &SharedHeap<'_>,
    table: &Table,
    budget: u64,
    pass: &mut Pass,
    gate: &G,
    call: Call,
    times: u32,
)
    requires own { pass.old.locks ≡ heap.now.locks }
    requires types { heap.now.types ≡ table.now }
    requires budget { heap.now.budget ≡ budget }
    ensures { pass.new.locks ≡ pass.old.locks }
{
    for _turn in 0..times {
        ask(rt, heap, table, budget, pass, gate, call);
    }
}

/// All six calls in each region, on an object as large as one of the region may be.
fn visit_all<R: Wait, G: Gate>(
    rt: &R,
    heap: &SharedHeap<'_>,
    table: &Table,
    budget: u64,
    pass: &mut Pass,
    gate: &G,
)
    requires own { pass.old.locks ≡ heap.now.locks }
    requires types { heap.now.types ≡ table.now }
    requires budget { heap.now.budget ≡ budget }
    ensures { pass.new.locks ≡ pass.old.locks }
{
    for region in 0..REGIONS {
        let size = size_of_region(region + 1).saturating_sub(17);
        visit(rt, heap, table, budget, pass, gate, size);
    }
}

/// A call in 26 regions, from region 1 on or from a later one.
fn go_round<R: Wait, G: Gate>(
    rt: &R,
    heap: &SharedHeap<'_>,
    table: &Table,
    budget: u64,
    pass: &mut Pass,
    gate: &G,
    first: u32,
)
    requires own { pass.old.locks ≡ heap.now.locks }
    requires types { heap.now.types ≡ table.now }
    requires budget { heap.now.budget ≡ budget }
    ensures { pass.new.locks ≡ pass.old.locks }
{
    for turn in 0..26u32 {
        let region = u64::from(turn.saturating_add(first));
        let p = (1u64 << 40).saturating_add(region.saturating_mul(1 << 32));
        let call = Call::Check { p, want: CHAR };
        ask(rt, heap, table, budget, pass, gate, call);
    }
}

/// Does what the script says.
pub fn play<R: Wait, G: Gate>(
    rt: &R,
    heap: &SharedHeap<'_>,
    table: &Table,
    budget: u64,
    pass: &mut Pass,
    gate: &G,
    script: Script,
)
    requires own { pass.old.locks ≡ heap.now.locks }
    requires types { heap.now.types ≡ table.now }
    requires budget { heap.now.budget ≡ budget }
    ensures { pass.new.locks ≡ pass.old.locks }
{
    let worker = pass.worker();
    let open = Call::Alloc {
        elem: CHAR,
        size: 8,
        fixed: false,
    };
    let look = Call::Load {
        p: SHARED,
        reach: SHARED_REACH,
        kind: AccessKind::I64,
    };
    let place = Call::Alloc {
        elem: INT,
        size: 4,
        fixed: false,
    };
    match (script, worker) {
        (Script::Open, 0) => repeat(rt, heap, table, budget, pass, gate, open, 1),
        (Script::Look, 0) => repeat(rt, heap, table, budget, pass, gate, look, 1),
        (Script::Rounds, _) => go_round(rt, heap, table, budget, pass, gate, 1 + worker.min(1)),
        (_, 0) => {}
        (Script::Place, _) => repeat(rt, heap, table, budget, pass, gate, place, 1),
        (Script::Add(times), _) => {
            repeat(rt, heap, table, budget, pass, gate, addition(), times);
        }
        (Script::All, _) => visit_all(rt, heap, table, budget, pass, gate),
        _ => {}
    }
}
