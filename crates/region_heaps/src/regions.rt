//! The heaps of the regions, as a list from region 1 on.

ghost use Rattle.std.specs.Prelude.{◌≡◌, ◌+◌, ◌≤◌, Some, true, length, IfOk, OnErr};
ghost use Rattle.heap_model.specs.Forms.{fits_call, region_for};
ghost use Rattle.heap_model.specs.Layouts.{layouts_of};
ghost use Rattle.heap_model.specs.Legal.{knows_types};
ghost use Rattle.region_calls.specs.Serving.{KnowsElements};
ghost use Rattle.region_heaps.specs.Regions.{AreEmpty, Steps, heap_of};

use heap_model::{Call, Reply};
use layout_table::Table;
use lowfat_regions::REGIONS;
use std::alloc::{AllocError, Global};
use typed_heap::RegionHeap;

/// The empty heaps of all regions.
pub(crate) fn empty_heaps(alloc: Global) -> Result<Vec<RegionHeap>, AllocError>
    ensures count { IfOk result (λ heaps. length heaps.items ≡ REGIONS) }
    ensures each { IfOk result (λ heaps. AreEmpty heaps.items REGIONS) }
{
    let mut heaps = Vec::new(alloc);
    for region in 1..REGIONS + 1 {
        heaps.push(RegionHeap::new(alloc, region)?)?;
    }
    Ok(heaps)
}

/// Makes a call on the heap of its region.
pub(crate) fn step(
    heaps: &mut [RegionHeap],
    table: &Table,
    region: u32,
    call: &Call,
) -> Result<Reply, AllocError>
    requires low { 1 ≤ region }
    requires high { region ≤ length heaps.old }
    requires region { region_for call.now ≡ Some region }
    requires of_region { (heap_of heaps.old region).region ≡ region }
    requires fits { fits_call call.now ≡ true }
    requires types { knows_types (layouts_of table.now) call.now ≡ true }
    requires elements { KnowsElements (layouts_of table.now) (heap_of heaps.old region) }
    ensures steps { IfOk result (λ reply. Steps (layouts_of table.now) heaps.old heaps.new region call.now reply) }
    ensures unchanged { OnErr result (heaps.new ≡ heaps.old) }
{
    heaps[region as usize - 1].step(table, call)
}
