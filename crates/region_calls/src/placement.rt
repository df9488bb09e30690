//! Where an object is placed.

ghost use Rattle.std.specs.Prelude.{◌≡◌, ◌+◌, ◌==◌, ◌||◌, length, IfOk, OnErr};
ghost use Rattle.heap_model.specs.declared.calls.Call.TheVariants.{Alloc};
ghost use Rattle.heap_model.specs.Answers.{Words};
ghost use Rattle.heap_model.specs.Legal.{AllocAnswers};
ghost use Rattle.heap_model.specs.Objects.{max_objects};
ghost use Rattle.heap_model.specs.State.{StandsFor, live_objects, all_versions};
ghost use Rattle.lowfat_regions.specs.Regions as regions;
ghost use Rattle.object_slots.specs.Objects.{FitsIn};
ghost use Rattle.region_calls.specs.Serving.{IsServed};

use crate::naming::word_of;
use c_types::TypeNo;
use heap_model::{MAX_OBJECTS, Reply};
use lowfat_regions::slots_of;
use object_slots::{Slots, law_slots};
use std::alloc::AllocError;

/// Whether no further object can be placed.
fn is_full(slots: &Slots) -> bool
    ensures { result ≡ ((live_objects slots.now + length slots.now.resting == regions.slots slots.now.region) || (all_versions slots.now == max_objects)) }
{
    law_slots(slots);
    let used = u64::from(slots.live()) + u64::from(slots.resting());
    used == u64::from(slots_of(slots.region())) || slots.made() == MAX_OBJECTS
}

/// Places a new object, all its bytes zero, where there is room for one. `size` counts bytes. Of the slots that were given
/// back and rest no more it takes the one given back last, or else the next that was never taken.
pub fn allocate(
    slots: &mut Slots,
    elem: TypeNo,
    size: u64,
    fixed: bool,
) -> Result<Reply, AllocError>
    requires { FitsIn slots.old.region size }
    ensures answers { IfOk result (λ reply. (h : Words) → StandsFor slots.old h → AllocAnswers h slots.old.region reply) }
    ensures served { IfOk result (λ reply. IsServed slots.old slots.new (Alloc elem size fixed) reply) }
    ensures unchanged { OnErr result (slots.new ≡ slots.old) }
{
    law_slots(slots);
    if is_full(slots) {
        return Ok(Reply::NoSlot);
    }
    let slot = slots.take(elem, size as u32, fixed)?;
    Ok(Reply::Placed(word_of(slots, slot)))
}
