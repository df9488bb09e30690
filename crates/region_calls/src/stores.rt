//! What a store leaves.

ghost use Rattle.std.specs.Prelude.{◌≡◌, true};
ghost use Rattle.heap_model.specs.declared.calls.Call.TheVariants.{Store};
ghost use Rattle.heap_model.specs.Answers.{access, datum};
ghost use Rattle.heap_model.specs.Cells.{Stores, cells_after_store};
ghost use Rattle.heap_model.specs.Forms.{may_store};
ghost use Rattle.heap_model.specs.State.{live_by};
ghost use Rattle.object_slots.specs.SlotStates.{OfObject, with_cells_in};
ghost use Rattle.region_calls.specs.Naming.{IsPlace};
ghost use Rattle.region_calls.specs.Serving.{IsServed};

use crate::places::{Location, locate};
use heap_model::{AccessKind, Reach, Reply, Value, width_of};
use object_slots::Slots;

/// Writes a value to a place.
fn store_at(slots: &mut Slots, at: Location, kind: AccessKind, value: Value)
    requires place { IsPlace slots.old at.slot at.offset kind }
    requires fits { may_store kind value ≡ true }
    ensures { OfObject slots.old at.slot (λ o. slots.new ≡ with_cells_in slots.old at.slot o (cells_after_store kind at.offset (datum value) o.cells)) }
{
    if value.pointer {
        let word = slot_headers::Value {
            bits: value.bits,
            pointer: true,
        };
        slots.store_word(at.slot, at.offset, word);
    } else {
        slots.store(at.slot, at.offset, width_of(kind) as u32, value.bits);
    }
}

/// Stores a value that the kind may store: of a number its low bytes.
pub fn store(slots: &mut Slots, p: u64, reach: &Reach, kind: AccessKind, value: Value) -> Reply
    requires { may_store kind value ≡ true }
    ensures answer { result ≡ access (live_by slots.old) p reach.now kind (Stores (datum value)) }
    ensures served { IsServed slots.old slots.new (Store p reach.now kind value) result }
{
    match locate(slots, p, reach, kind) {
        Ok(at) => {
            store_at(slots, at, kind, value);
            Reply::Done
        }
        Err(report) => Reply::Report(report),
    }
}
