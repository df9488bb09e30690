//! The heap of one region.

ghost use Rattle.std.specs.Prelude.{◌≡◌, ℕ, [], Some, true, IfOk, OnErr};
ghost use Rattle.heap_model.specs.Answers.{Words, next};
ghost use Rattle.heap_model.specs.Forms.{fits_call, region_for, suits_call};
ghost use Rattle.heap_model.specs.Heap.{empty};
ghost use Rattle.heap_model.specs.Layouts.{layouts_of};
ghost use Rattle.heap_model.specs.Legal.{Answers, knows_types};
ghost use Rattle.heap_model.specs.State.{StandsFor, live_objects, all_versions};
ghost use Rattle.lowfat_regions.specs.Regions as regions;
ghost use Rattle.object_slots.specs.Objects.{AreStored};
ghost use Rattle.region_calls.specs.Serving.{HasPieces, KnowsElements, takes_memory};
ghost use Rattle.slot_store.specs.Slots.{Contents};

use heap_model::{Call, Reply};
use layout_table::Table;
use object_slots::Slots;
use region_calls::answer;
use std::alloc::{AllocError, Global};
use std::marker::Model;

/// The heap of one region, which contracts see as the states of its slots. It stands for a heap of objects.
#[derive(Drop)]
pub struct RegionHeap {
    slots: Slots,
}

impl Model for RegionHeap {
    ghost use Rattle.heap_model.specs.State.{State};

    ghost Value = { State };

    ghost use Rattle.typed_heap.specs.Region.{IsHeapOfRegion};

    ghost view = { λ a. a.slots };

    ghost invariant = { λ a. IsHeapOfRegion a.slots };
}

/// There are cells in which each live object stands behind the 16 bytes of its header: its type, its version, whether it is
/// fixed, and its size.
pub fn law_headers(heap: &RegionHeap)
    ensures { (cells : Contents) × AreStored cells heap.now }
{
    object_slots::law_headers(&heap.slots);
}

/// A region's heap stands for a heap of objects.
pub fn law_stands(heap: &RegionHeap)
    ensures { (h : Words) × StandsFor heap.now h }
{
    let _slots = &heap.slots;
}

/// Pointers stand whole in the live objects, and none of them is null.
pub fn law_pieces(heap: &RegionHeap)
    ensures { HasPieces heap.now }
{
    let _slots = &heap.slots;
}

impl RegionHeap {
    /// The empty heap of a region.
    pub fn new(alloc: Global, region: u32) -> Result<RegionHeap, AllocError>
        requires { regions.IsRegion region }
        ensures region { IfOk result (λ heap. heap.region ≡ region) }
        ensures empty { IfOk result (λ heap. heap.states ≡ []) }
        ensures rested { IfOk result (λ heap. heap.resting ≡ []) }
        ensures stands { IfOk result (λ heap. StandsFor heap empty) }
    {
        Ok(RegionHeap {
            slots: Slots::new(alloc, region),
        })
    }

    /// The region's number.
    pub fn region(&self) -> u32
        ensures { result ≡ self.now.region }
    {
        self.slots.region()
    }

    /// How many objects live in the region.
    pub fn live(&self) -> u32
        ensures { result ≡ live_objects self.now }
    {
        self.slots.live()
    }

    /// How many objects were ever made in the region.
    pub fn made(&self) -> u32
        ensures { result ≡ all_versions self.now }
    {
        self.slots.made()
    }

    /// Answers a call of this region. Only an allocation can be out of memory.
    pub fn step(&mut self, table: &Table, call: &Call) -> Result<Reply, AllocError>
        requires region { region_for call.now ≡ Some self.old.region }
        requires fits { fits_call call.now ≡ true }
        requires types { knows_types (layouts_of table.now) call.now ≡ true }
        requires elements { KnowsElements (layouts_of table.now) self.old }
        ensures answers { IfOk result (λ reply. (h : Words) → StandsFor self.old h
            → Answers (layouts_of table.now) h self.old.region call.now reply) }
        ensures next { IfOk result (λ reply. (worker number : ℕ) (h : Words) → StandsFor self.old h
            → StandsFor self.new (next worker number h call.now reply)) }
        ensures suits { IfOk result (λ reply. suits_call call.now reply ≡ true) }
        ensures elements { KnowsElements (layouts_of table.now) self.new }
        ensures region { self.new.region ≡ self.old.region }
        ensures unchanged { OnErr result (self.new ≡ self.old) }
        ensures memory { OnErr result (takes_memory call.now ≡ true) }
    {
        answer(&mut self.slots, table, call)
    }
}
