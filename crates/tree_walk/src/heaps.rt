//! The heaps of a program, whose types are the basic ones.

ghost use Rattle.std.specs.Prelude.{◌≡◌, [], ◌∷◌, ◌++◌, true, IsSome, IfOk};
ghost use Rattle.c_types.specs.Table.{basic_types};
ghost use Rattle.heap_model.specs.Forms.{fits_call, suits_call};
ghost use Rattle.heap_model.specs.Forms as forms;
ghost use Rattle.heap_model.specs.Legal.{IsLegal, IsWellNumbered, knows_types};
ghost use Rattle.heap_model.specs.Order.{IsStamped};
ghost use Rattle.plain_meaning.specs.Run.{layouts};
ghost use Rattle.region_heaps.specs.Entries.{StampsFrom, next_entry};

use heap_model::{Call, History, Reply};
use layout_table::Table;
use region_heaps::{RegionHeaps, law_history};
use std::alloc::{AllocError, Global};
use std::marker::Model;

/// The heaps over the table of the basic types, which contracts see as the list of the calls on them.
#[derive(Drop)]
pub(crate) struct ProgramHeaps<'a> {
    heaps: RegionHeaps<'a>,
}

impl<'a> Model for ProgramHeaps<'a> {
    ghost use Rattle.std.specs.Prelude.{List, ◌≡◌};
    ghost use Rattle.c_types.specs.Table.{basic_types};
    ghost use Rattle.heap_model.specs.declared.calls.Entry.{Entry};

    ghost Value = { List Entry };

    ghost view = { λ a. a.heaps.entries };

    ghost invariant = { λ a. a.heaps.types ≡ basic_types };
}

/// What holds of the calls on them.
pub(crate) fn law_calls(heaps: &ProgramHeaps)
    ensures legal { IsLegal layouts heaps.now }
    ensures numbered { IsWellNumbered heaps.now }
    ensures stamped { IsStamped heaps.now }
    ensures stamps { StampsFrom 1 heaps.now }
{
    law_history(&heaps.heaps);
}

impl<'a> ProgramHeaps<'a> {
    /// Empty heaps, on which no call was made.
    pub(crate) fn new(alloc: Global, table: &'a Table) -> Result<ProgramHeaps<'a>, AllocError>
        requires { table.now ≡ basic_types }
        ensures { IfOk result (λ heaps. heaps ≡ []) }
    {
        Ok(ProgramHeaps {
            heaps: RegionHeaps::new(alloc, table)?,
        })
    }

    /// Makes a call of a worker, and adds it to the list with its reply.
    pub(crate) fn call(&mut self, worker: u32, call: &Call) -> Result<Reply, AllocError>
        requires region { IsSome (forms.region_for call.now) }
        requires fits { fits_call call.now ≡ true }
        requires types { knows_types layouts call.now ≡ true }
        ensures entry { IfOk result (λ reply. self.new ≡ self.old ++ next_entry self.old worker call.now reply ∷ []) }
        ensures suits { IfOk result (λ reply. suits_call call.now reply ≡ true) }
    {
        self.heaps.call(worker, call)
    }

    /// The list of the calls, and the end of the heaps.
    pub(crate) fn into_history(self) -> History
        ensures { result.entries ≡ self.entry }
    {
        self.heaps.into_history()
    }
}
