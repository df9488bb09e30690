//! The heaps of all regions with their history.

ghost use Rattle.std.specs.Prelude.{◌≡◌, ◌+◌, ◌≤◌, [], ◌∷◌, ◌++◌, true, length, IsSome, IfOk, OnErr};
ghost use Rattle.std.specs.List.{AllByRecursion};
ghost use Rattle.heap_model.specs.Forms.{fits_call, suits_call};
ghost use Rattle.heap_model.specs.Forms as forms;
ghost use Rattle.heap_model.specs.History.{most_entries};
ghost use Rattle.heap_model.specs.Legal.{InRegions, IsLegal, IsWellNumbered, knows_types};
ghost use Rattle.heap_model.specs.Order.{IsStamped};
ghost use Rattle.heap_model.specs.Layouts.{layouts_of};
ghost use Rattle.region_heaps.specs.Entries.{StampsFrom, next_entry};

use crate::numbers::Numbers;
use crate::regions::{empty_heaps, step};
use heap_model::{Call, Entry, History, Reply, law_restrictions, region_for};
use layout_table::Table;
use std::alloc::{AllocError, Global};
use std::marker::Model;
use typed_heap::RegionHeap;

/// The heaps of the regions from 1 to 27 with the history of the calls on them. Contracts see the types of the table that
/// calls are answered from, and the list of entries.
#[derive(Drop)]
pub struct RegionHeaps<'a> {
    table: &'a Table,
    heaps: Vec<RegionHeap>,
    numbers: Numbers,
    history: History,
}

impl<'a> Model for RegionHeaps<'a> {
    ghost use Rattle.region_heaps.specs.Seen.{Heaps};

    ghost Value = { Heaps };

    ghost use Rattle.region_heaps.specs.Kept.{seen, IsKept};

    ghost view = { seen };

    ghost invariant = { IsKept };
}

/// What holds of each history: it is legal at the preference of the table's types, well numbered and stamped, with the stamps
/// 1, 2, 3 and so on, of regions from 1 to 27, and of 2^37 entries at most, so that no stamp is above 2^37.
pub fn law_history(heaps: &RegionHeaps)
    ensures legal { IsLegal (layouts_of heaps.now.types) heaps.now.entries }
    ensures numbered { IsWellNumbered heaps.now.entries }
    ensures stamped { IsStamped heaps.now.entries }
    ensures stamps { StampsFrom 1 heaps.now.entries }
    ensures regions { InRegions heaps.now.entries }
    ensures few { length heaps.now.entries ≤ most_entries }
    ensures bounded { AllByRecursion (λ e. e.stamp ≤ most_entries) heaps.now.entries }
{
    let _ = heaps.history.len();
    law_restrictions();
}

impl<'a> RegionHeaps<'a> {
    /// Empty heaps over a table of layouts, on which no call was made.
    pub fn new(alloc: Global, table: &'a Table) -> Result<RegionHeaps<'a>, AllocError>
        ensures types { IfOk result (λ heaps. heaps.types ≡ table.now) }
        ensures entries { IfOk result (λ heaps. heaps.entries ≡ []) }
    {
        Ok(RegionHeaps {
            table,
            heaps: empty_heaps(alloc)?,
            numbers: Numbers::new(alloc),
            history: History::new(alloc),
        })
    }

    /// Makes a call of a worker on the heap of the call's region, and adds it to the history with the heap's reply. The
    /// worker's calls are numbered from 0, and the stamps of the history from 1. The error is that it is out of memory.
    pub fn call(&mut self, worker: u32, call: &Call) -> Result<Reply, AllocError>
        requires region { IsSome (forms.region_for call.now) }
        requires fits { fits_call call.now ≡ true }
        requires types { knows_types (layouts_of self.old.types) call.now ≡ true }
        ensures entry { IfOk result (λ reply. self.new.entries ≡ self.old.entries ++ next_entry self.old.entries worker call.now reply ∷ []) }
        ensures types { self.new.types ≡ self.old.types }
        ensures suits { IfOk result (λ reply. suits_call call.now reply ≡ true) }
        ensures unchanged { OnErr result (self.new ≡ self.old) }
    {
        self.history.room()?;
        let number = self.numbers.next(worker)?;
        let stamp = self.history.len() + 1;
        let region = region_for(call).unwrap();
        let reply = step(&mut self.heaps, self.table, region, call)?;
        self.history.push(Entry {
            worker,
            number,
            stamp,
            region,
            call: *call,
            reply,
        });
        self.numbers.count(worker);
        Ok(reply)
    }

    /// The history, and the end of the heaps.
    pub fn into_history(self) -> History
        ensures { result.entries ≡ self.entry.entries }
    {
        self.history
    }
}
