//! What the lock of a region keeps.

ghost use Rattle.std.specs.Prelude.{◌≡◌, [], IfOk};
ghost use Rattle.lowfat_regions.specs.Regions.{IsRegion};
ghost use Rattle.heap_model.specs.Layouts.{layouts_of};
ghost use Rattle.heap_model.specs.Legal.{IsLegal};
ghost use Rattle.region_lock.specs.Entries.{last_stamp};
ghost use Rattle.shared_heap.specs.Regions.{fresh, rules_of, Allows};

use crate::rules::Rules;
use clock_order::stamp;
use heap_model::{Call, Entry, History};
use layout_table::Table;
use region_lock::Kept;
use std::alloc::{AllocError, Global};
use std::marker::Model;
use typed_heap::RegionHeap;

/// The heap of a region, with the history of the calls on it.
#[derive(Drop)]
pub struct HeldRegion<'a> {
    table: &'a Table,
    heap: RegionHeap,
    history: History,
}

impl<'a> Model for HeldRegion<'a> {
    ghost use Rattle.shared_heap.specs.Regions.{Region};
    ghost use Rattle.shared_heap.specs.Kept.{region, IsKept};

    ghost Value = { Region };

    ghost view = { region };

    ghost invariant = { IsKept };
}

/// The stamp of the last entry, 0 where there is none.
fn last_stamp_of(history: &History) -> u64
    ensures { result ≡ last_stamp history.now.entries }
{
    let count = history.len();
    if count == 0 {
        return 0;
    }
    history.get(count - 1).stamp
}

impl<'a> HeldRegion<'a> {
    /// A region on which no call was made.
    pub(crate) fn new(
        alloc: Global,
        table: &'a Table,
        region: u32,
    ) -> Result<HeldRegion<'a>, AllocError>
        requires { IsRegion region }
        ensures { IfOk result (λ r. r ≡ fresh table.entry.now region) }
    {
        let heap = RegionHeap::new(alloc, region)?;
        Ok(HeldRegion {
            table,
            heap,
            history: History::new(alloc),
        })
    }

    /// The history, and the end of the heap.
    pub(crate) fn into_history(self) -> History
        ensures entries { result.entries ≡ self.entry.entries }
        ensures legal { IsLegal (layouts_of self.entry.types) result.entries }
    {
        self.history
    }
}

impl<'a> Kept for HeldRegion<'a> {
    type Plain = Rules;

    ghost region = { λ r. r.number };

    ghost list = { λ r. r.entries };

    ghost plain = { rules_of };

    ghost allows = { Allows };

    fn step(
        &mut self,
        worker: u32,
        number: u64,
        last: u64,
        call: &Call,
    ) -> Result<Entry, AllocError> {
        self.history.room()?;
        let stamp = stamp(last, last_stamp_of(&self.history));
        let reply = self.heap.step(self.table, call)?;
        let entry = Entry {
            worker,
            number,
            stamp,
            region: self.heap.region(),
            call: *call,
            reply,
        };
        self.history.push(entry);
        Ok(entry)
    }
}
