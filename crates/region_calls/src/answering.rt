//! What a region answers to a call.

ghost use Rattle.std.specs.Prelude.{◌≡◌, ℕ, Some, true, IfOk, OnErr};
ghost use Rattle.heap_model.specs.Answers.{Words, next};
ghost use Rattle.heap_model.specs.Forms.{fits_call, region_for, suits_call};
ghost use Rattle.heap_model.specs.Layouts.{layouts_of};
ghost use Rattle.heap_model.specs.Legal.{Answers, knows_types};
ghost use Rattle.heap_model.specs.State.{StandsFor};
ghost use Rattle.region_calls.specs.Serving.{HasPieces, KnowsElements, takes_memory};

use crate::adds::add;
use crate::checks::check;
use crate::frees::free;
use crate::loads::load;
use crate::placement::allocate;
use crate::stores::store;
use heap_model::{Call, Reply};
use layout_table::Table;
use object_slots::Slots;
use std::alloc::AllocError;

/// Answers a call of this region. Only an allocation can be out of memory.
pub fn answer(slots: &mut Slots, table: &Table, call: &Call) -> Result<Reply, AllocError>
    requires region { region_for call.now ≡ Some slots.old.region }
    requires fits { fits_call call.now ≡ true }
    requires types { knows_types (layouts_of table.now) call.now ≡ true }
    requires elements { KnowsElements (layouts_of table.now) slots.old }
    requires pieces { HasPieces slots.old }
    ensures answers { IfOk result (λ reply. (h : Words) → StandsFor slots.old h
        → Answers (layouts_of table.now) h slots.old.region call.now reply) }
    ensures next { IfOk result (λ reply. (worker number : ℕ) (h : Words) → StandsFor slots.old h
        → StandsFor slots.new (next worker number h call.now reply)) }
    ensures suits { IfOk result (λ reply. suits_call call.now reply ≡ true) }
    ensures elements { KnowsElements (layouts_of table.now) slots.new }
    ensures pieces { HasPieces slots.new }
    ensures region { slots.new.region ≡ slots.old.region }
    ensures unchanged { OnErr result (slots.new ≡ slots.old) }
    ensures memory { OnErr result (takes_memory call.now ≡ true) }
{
    match *call {
        Call::Alloc { elem, size, fixed } => allocate(slots, elem, size, fixed),
        Call::Free { p, fixed } => Ok(free(slots, p, fixed)),
        Call::Check { p, want } => Ok(check(slots, table, p, want)),
        Call::Load { p, reach, kind } => Ok(load(slots, p, &reach, kind)),
        Call::Store {
            p,
            reach,
            kind,
            value,
        } => Ok(store(slots, p, &reach, kind, value)),
        Call::Add {
            p,
            reach,
            kind,
            value,
        } => Ok(add(slots, p, &reach, kind, value)),
    }
}
