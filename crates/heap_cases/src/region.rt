//! The heap of a region, and the calls that it takes.

ghost use Rattle.std.specs.Prelude.{◌≡◌, true, IsTrue};
ghost use Rattle.heap_model.specs.Layouts.{layouts_of};
ghost use Rattle.heap_model.specs.Legal as legal;
ghost use Rattle.lowfat_regions.specs.Regions.{IsRegion};
ghost use Rattle.region_calls.specs.Serving.{KnowsElements};

use heap_model::{Call, Reply, fits, region_for};
use layout_table::Table;
use lowfat_regions::REGIONS;
use std::alloc::{AllocError, Global};
use typed_heap::RegionHeap;

/// The heap of a region over the types of the cases.
#[derive(Drop)]
pub struct Region {
    table: Table,
    heap: RegionHeap,
    ghost known: { KnowsElements (layouts_of table) heap },
}

/// What comes of a call: the reply, or why the heap does not take it.
#[derive(Clone, Copy, Debug)]
pub enum Answer {
    Replied(Reply),
    /// It is made in this region, or in none.
    Elsewhere(Option<u32>),
    Unfit,
    Untyped,
}

/// Whether the type that a call names is one of the table.
fn knows_types(table: &Table, call: &Call) -> bool
    ensures { IsTrue result → legal.knows_types (layouts_of table.now) call.now ≡ true }
{
    match *call {
        Call::Alloc { elem, .. } => table.has(elem),
        Call::Check { want, .. } => table.has(want),
        Call::Free { .. } | Call::Load { .. } | Call::Store { .. } | Call::Add { .. } => true,
    }
}

/// Whether there is a region of this number.
fn is_region(region: u32) -> bool
    ensures { IsTrue result → IsRegion region }
{
    1 <= region && region <= REGIONS
}

impl Region {
    /// The empty heap of region 1.
    pub fn new(alloc: Global, table: Table) -> Result<Region, AllocError> {
        let heap = RegionHeap::new(alloc, 1)?;
        Ok(Region { table, heap })
    }

    /// Begins anew with the empty heap of a region, if there is one of this number.
    pub fn renew(&mut self, alloc: Global, region: u32) -> Result<(), AllocError> {
        if is_region(region) {
            self.heap = RegionHeap::new(alloc, region)?;
        }
        Ok(())
    }

    pub fn number(&self) -> u32 {
        self.heap.region()
    }

    /// How many objects live, and how many were ever made.
    pub fn counts(&self) -> (u32, u32) {
        (self.heap.live(), self.heap.made())
    }

    /// What comes of a call.
    pub fn ask(&mut self, call: &Call) -> Result<Answer, AllocError> {
        let region = region_for(call);
        if region != Some(self.heap.region()) {
            return Ok(Answer::Elsewhere(region));
        }
        if !fits(call) {
            return Ok(Answer::Unfit);
        }
        if !knows_types(&self.table, call) {
            return Ok(Answer::Untyped);
        }
        Ok(Answer::Replied(self.heap.step(&self.table, call)?))
    }
}
