//! The heap that threads share.

ghost use Rattle.std.specs.Prelude.{◌≡◌, ◌+◌, ◌<◌, ◌≤◌, ◌^◌, ℕ, true, length, max, vec_len, Some, IsSome, IfOk, OnErr};
ghost use Rattle.std.specs.List.{All};
ghost use Rattle.heap_model.specs.declared.calls.Entry.{Entry};
ghost use Rattle.heap_model.specs.Forms.{fits_call, suits_call};
ghost use Rattle.heap_model.specs.Forms as forms;
ghost use Rattle.heap_model.specs.Layouts.{layouts_of};
ghost use Rattle.heap_model.specs.Legal.{knows_types, own, InRegions};
ghost use Rattle.heap_model.specs.Order.{IsRecord};
ghost use Rattle.region_lock.specs.Known.{Makes, newcomers};
ghost use Rattle.shared_heap.specs.Closing.{made_by};

use crate::region::HeldRegion;
use crate::regions::{histories_of, new_regions};
use clock_order::merge;
use heap_model::{Call, History, Reply, law_restrictions, region_for};
use layout_table::Table;
use region_lock::{Gate, Locks, Pass};
use std::alloc::{AllocError, Global};
use std::marker::Model;
use std::sync::Wait;

/// The heaps of the regions from 1 to 27, each under a lock of its own, with the histories of the calls on them. Contracts
/// see which locks they are, the types that calls may name, how many passes there are, and how many calls each may make.
#[derive(Drop)]
pub struct SharedHeap<'a> {
    alloc: Global,
    table: &'a Table,
    locks: Locks<HeldRegion<'a>>,
}

impl<'a> Model for SharedHeap<'a> {
    ghost use Rattle.shared_heap.specs.Shared.{Shared, shared, IsShared};

    ghost Value = { Shared };

    ghost view = { shared };

    ghost invariant = { IsShared };
}

impl<'a> SharedHeap<'a> {
    /// Empty regions over a table of types, and passes for workers 1 to `workers` and for worker 0, who opens and
    /// finishes. Each pass may make as many calls as the budget says.
    pub fn start(
        alloc: Global,
        table: &'a Table,
        workers: u32,
        budget: u64,
    ) -> Result<(SharedHeap<'a>, Vec<Pass>), AllocError>
        requires workers { workers ≤ 8 }
        requires budget { budget ≤ 2 ^ 32 }
        ensures types { IfOk result (λ r. r.0.types ≡ table.entry.now) }
        ensures counts { IfOk result (λ r. (r.0.passes ≡ workers + 1) × (r.0.budget ≡ budget)) }
        ensures passes { IfOk result (λ r. r.1.items ≡ newcomers r.0.locks (workers + 1)) }
    {
        let regions = new_regions(alloc, table)?;
        let (locks, passes) = Locks::new(alloc, regions, workers + 1, budget)?;
        Ok((
            SharedHeap {
                alloc,
                table,
                locks,
            },
            passes,
        ))
    }

    /// Waits until the call's region is home, holds it, calls the gate once, makes the call on the region's heap, and
    /// gives the region home. The history's place is made before the call. Where memory is short, no entry is added.
    pub fn call<R: Wait, G: Gate>(
        &self,
        rt: &R,
        pass: &mut Pass,
        gate: &G,
        call: Call,
    ) -> Result<Reply, AllocError>
        requires own { pass.old.locks ≡ self.now.locks }
        requires region { IsSome (forms.region_for call) }
        requires fits { fits_call call ≡ true }
        requires types { knows_types (layouts_of self.now.types) call ≡ true }
        requires budget { length pass.old.list < self.now.budget }
        ensures same { (pass.new.locks ≡ pass.old.locks) × (pass.new.worker ≡ pass.old.worker) }
        ensures ok { IfOk result (λ r. (e : Entry) × Makes pass.old e pass.new
            × (forms.region_for call ≡ Some e.region) × (e.call ≡ call) × (e.reply ≡ r)) }
        ensures suits { IfOk result (λ r. suits_call call r ≡ true) }
        ensures err { OnErr result (pass.new ≡ pass.old) }
    {
        let region = region_for(&call).unwrap();
        let reply = self.locks.with(rt, pass, gate, region, &call)?;
        Ok(reply)
    }

    /// Raises the last stamp of a pass to another's, where that is greater. It takes no memory and waits for nobody.
    pub fn meet(&self, pass: &mut Pass, other: &mut Pass)
        requires own { (pass.old.locks ≡ self.now.locks) × (other.old.locks ≡ self.now.locks) }
        ensures same { (pass.new.locks ≡ pass.old.locks) × (pass.new.worker ≡ pass.old.worker)
            × (pass.new.list ≡ pass.old.list) }
        ensures last { pass.new.last ≡ max pass.old.last other.old.last }
        ensures other { other.new ≡ other.old }
    {
        self.locks.meet(pass, other);
    }

    /// The history of all calls, once all passes are back: each worker's are those of its pass, and the replies are those
    /// of the typed heap. Equal stamps are of different regions and different workers.
    pub fn close(self, passes: Vec<Pass>) -> Result<History, AllocError>
        requires count { vec_len passes ≡ self.passes }
        requires own { All (λ p. p.locks ≡ self.locks) passes.items }
        ensures recorded { IfOk result (λ h.
            IsRecord (layouts_of self.entry.types) (made_by passes.items) h.entries) }
        ensures own { IfOk result (λ h. All (λ p. own h.entries p.worker ≡ p.list) passes.items) }
        ensures regions { IfOk result (λ h. InRegions h.entries) }
    {
        let SharedHeap {
            alloc,
            table: _,
            locks,
        } = self;
        let regions = locks.close(passes)?;
        let histories = histories_of(alloc, regions)?;
        law_restrictions();
        let history = merge(alloc, histories)?;
        Ok(history)
    }
}
