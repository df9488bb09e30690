//! All regions, before the first call and after the last.

ghost use Rattle.std.specs.Prelude.{◌≡◌, IfOk};
ghost use Rattle.shared_heap.specs.Regions.{fresh_regions};
ghost use Rattle.shared_heap.specs.Closing.{AreHistoriesOf};

use crate::region::HeldRegion;
use heap_model::History;
use layout_table::Table;
use lowfat_regions::REGIONS;
use std::alloc::{AllocError, Global};

/// The regions from 1 on, on which no call was made.
pub(crate) fn new_regions(alloc: Global, table: &Table) -> Result<Vec<HeldRegion<'_>>, AllocError>
    ensures { IfOk result (λ v. v.items ≡ fresh_regions table.entry.now) }
{
    let mut regions = Vec::new(alloc);
    for at in 0..REGIONS {
        regions.push(HeldRegion::new(alloc, table, at + 1)?)?;
    }
    Ok(regions)
}

/// The history of each region.
pub(crate) fn histories_of(
    alloc: Global,
    regions: Vec<HeldRegion<'_>>,
) -> Result<Vec<History>, AllocError>
    ensures { IfOk result (λ v. AreHistoriesOf regions.entry.items v.items) }
{
    let mut histories = Vec::new(alloc);
    for region in regions {
        histories.push(region.into_history())?;
    }
    Ok(histories)
}
