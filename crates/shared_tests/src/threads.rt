//! Threads that make calls through one shared heap.

ghost use Rattle.std.specs.Prelude.{◌≡◌, ◌≤◌, ◌^◌};
ghost use Rattle.std.specs.List.{All};

use crate::scripts::{Script, play};
use heap_model::History;
use layout_table::Table;
use region_lock::{Gate, Pass};
use shared_heap::SharedHeap;
use std::alloc::{AllocError, Global};
use std::sync::Wait;
use std::thread;
use std::thread::Threads;

// Each pass does what the script says, in a thread of its own.
fn work_all<R: Threads + Wait + Sync, G: Gate + Sync>(
    rt: &R,
    heap: &SharedHeap<'_>,
    table: &Table,
    budget: u64,
    passes: &mut [Pass],
    gate: &G,
    script: Script,
)
    requires own { All (λ p. p.locks ≡ heap.now.locks) passes.old }
    requires types { heap.now.types ≡ table.now }
    requires budget { heap.now.budget ≡ budget }
    ensures { All (λ p. p.locks ≡ heap.now.locks) passes.new }
{
    thread::for_each_mut(
        rt,
        passes,
        16,
        &|_i, pass: &mut Pass|
            requires own { pass.old.locks ≡ heap.now.locks }
            requires types { heap.now.types ≡ table.now }
            requires budget { heap.now.budget ≡ budget }
            ensures { pass.new.locks ≡ heap.entry.now.locks }
        { play(rt, heap, table, budget, pass, gate, script) },
    );
}

// All passes do what the scripts say, one script after the other.
fn work_in_turn<R: Threads + Wait + Sync, G: Gate + Sync>(
    rt: &R,
    heap: &SharedHeap<'_>,
    table: &Table,
    budget: u64,
    passes: &mut [Pass],
    gate: &G,
    scripts: &[Script],
)
    requires own { All (λ p. p.locks ≡ heap.now.locks) passes.old }
    requires types { heap.now.types ≡ table.now }
    requires budget { heap.now.budget ≡ budget }
    ensures { All (λ p. p.locks ≡ heap.now.locks) passes.new }
{
    for script in scripts {
        work_all(rt, heap, table, budget, passes, gate, *script);
    }
}

/// A new shared heap, through which each of up to nine passes does what the scripts say, in a thread of its own. Gives
/// the history, and how many calls each pass made.
pub fn run<R: Threads + Wait + Sync, G: Gate + Sync>(
    rt: &R,
    alloc: Global,
    table: &Table,
    gate: &G,
    workers: u32,
    budget: u64,
    scripts: &[Script],
) -> Result<(History, Vec<u64>), AllocError>
    requires workers { workers ≤ 8 }
    requires budget { budget ≤ 2 ^ 32 }
{
    let mut made = Vec::with_capacity(alloc, 16)?;
    let (heap, mut passes) = SharedHeap::start(alloc, table, workers, budget)?;
    work_in_turn(
        rt,
        &heap,
        table,
        budget,
        passes.as_mut_slice(),
        gate,
        scripts,
    );
    for pass in &passes {
        made.push(pass.made())?;
    }
    Ok((heap.close(passes)?, made))
}
