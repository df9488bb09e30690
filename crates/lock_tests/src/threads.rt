//! Threads that make calls through one value of locks.

ghost use Rattle.std.specs.Prelude.{◌≡◌, ◌+◌, ◌<◌, ◌≤◌, true, length};
ghost use Rattle.std.specs.List.{All};
ghost use Rattle.heap_model.specs.Forms.{suits_call};
ghost use Rattle.heap_model.specs.declared.calls.Reply.TheVariants.{Done};
ghost use Rattle.region_lock.specs.Shown.{identity_of, regions_of, budget_of};

use crate::counter::{ASKED, Counter, counters};
use heap_model::Call;
use region_lock::{Gate, Locks, Pass};
use std::alloc::{AllocError, Global};
use std::sync::Wait;
use std::thread;
use std::thread::Threads;

// One of the regions, by the turn. The first pass is one region behind the others.
fn region_at(turn: u32, worker: u32, regions: u32) -> u32
    requires { 0 < regions }
    ensures { (0 < result) × (result ≤ regions) }
{
    (turn.saturating_add(worker.min(1))) % regions + 1
}

// Makes up to `turns` calls, in one region after the other.
fn work<R: Wait, G: Gate>(
    rt: &R,
    locks: &Locks<Counter>,
    pass: &mut Pass,
    gate: &G,
    regions: u32,
    turns: u32,
    call: &Call,
)
    requires own { pass.old.locks ≡ identity_of locks.now }
    requires regions { (0 < regions) × (regions ≡ regions_of locks.now) }
    requires call { suits_call call.now Done ≡ true }
    requires room { length pass.old.list + turns ≤ budget_of locks.now }
    ensures { pass.new.locks ≡ pass.old.locks }
{
    for turn in 0..turns {
        let region = region_at(turn, pass.worker(), regions);
        match locks.with(rt, pass, gate, region, call) {
            Ok(_) => {}
            Err(_) => return,
        }
    }
}

// Each pass makes up to `turns` calls, in a thread of its own.
fn work_all<R: Threads + Wait + Sync, G: Gate + Sync>(
    rt: &R,
    locks: &Locks<Counter>,
    passes: &mut [Pass],
    gate: &G,
    regions: u32,
    turns: u32,
    call: &Call,
)
    requires own { All (λ p. p.locks ≡ identity_of locks.now) passes.old }
    requires regions { (0 < regions) × (regions ≡ regions_of locks.now) }
    requires call { suits_call call.now Done ≡ true }
    requires room { All (λ p. length p.list + turns ≤ budget_of locks.now) passes.old }
    ensures { All (λ p. p.locks ≡ identity_of locks.now) passes.new }
{
    thread::for_each_mut(
        rt,
        passes,
        16,
        &|_i, pass: &mut Pass|
            requires own { pass.old.locks ≡ identity_of locks.now }
            requires regions { (0 < regions) × (regions ≡ regions_of locks.now) }
            requires call { suits_call call.now Done ≡ true }
            requires room { length pass.old.list + turns ≤ budget_of locks.now }
            ensures { pass.new.locks ≡ identity_of locks.entry.now }
        { work(rt, locks, pass, gate, regions, turns, call) },
    );
}

/// New locks of 1 to 27 counters, through which each of 1 to 16 passes makes up to `turns` calls in a thread of its own,
/// and has then no call left. Gives the counters back, and how many calls were made.
pub fn run<R: Threads + Wait + Sync, G: Gate + Sync>(
    rt: &R,
    alloc: Global,
    gate: &G,
    regions: u32,
    passes: u32,
    turns: u32,
) -> Result<(Vec<Counter>, u64), AllocError> {
    if regions == 0 || regions > 27 || passes == 0 || passes > 16 {
        return Err(AllocError);
    }
    let values = counters(alloc, regions)?;
    let (locks, mut passes) = Locks::new(alloc, values, passes, u64::from(turns))?;
    work_all(
        rt,
        &locks,
        passes.as_mut_slice(),
        gate,
        regions,
        turns,
        &ASKED,
    );
    let mut made: u64 = 0;
    for pass in &passes {
        made = made.saturating_add(pass.made());
    }
    Ok((locks.close(passes)?, made))
}
