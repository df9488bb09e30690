//! How a table of locks begins and ends: each value goes into a box, and each box into a slot, and they come out again.

ghost use Rattle.std.specs.Prelude.{◌≡◌, ◌≤◌, ◌<◌, Some, [], map, IfOk, vec_len, vec_capacity};
ghost use Rattle.std.specs.Box.{box_value};
ghost use Rattle.std.specs.Mem.Slots.{slots_items, slots_len, IsFull};
ghost use Rattle.region_lock.specs.Closing.{AllThere};

use atomic_table::Closed;
use std::alloc::{AllocError, Global};

/// Each value in a box of its own.
pub fn in_boxes<V: Drop>(alloc: Global, values: Vec<V>) -> Result<Vec<Box<V>>, AllocError>
    ensures { IfOk result (λ v. map box_value v.items ≡ values.items) }
{
    let mut boxes = Vec::new(alloc);
    for value in values {
        boxes.push(Box::new(alloc, value)?)?;
    }
    Ok(boxes)
}

/// Each value in a slot.
pub fn in_slots<W: Drop>(alloc: Global, values: Vec<W>) -> Result<Vec<Option<W>>, AllocError>
    ensures { IfOk result (λ v. v.items ≡ map Some values.items) }
{
    values.into_iter().map(|v| Some(v)).collect(alloc)
}

/// Takes each value out of its slot.
pub fn out_of_slots<W>(mut closed: Closed<Option<W>, Global>, mut values: Vec<W>) -> Vec<W>
    requires full { IsFull closed.words × IsFull closed.slots }
    requires there { AllThere (slots_items closed.slots) }
    requires room { (values.items ≡ []) × (slots_len closed.slots ≤ vec_capacity values) }
    ensures { slots_items closed.slots ≡ map Some result.items }
{
    for i in 0..closed.slot_count() {
        values.push_reserved(closed.take(i).unwrap());
    }
    closed.free();
    values
}

/// Takes each value out of its box.
pub fn out_of_boxes<V: Drop>(boxes: Vec<Box<V>>, mut values: Vec<V>) -> Vec<V>
    requires { (values.items ≡ []) × (vec_len boxes ≤ vec_capacity values) }
    ensures { result.items ≡ map box_value boxes.items }
{
    for held in boxes {
        values.push_reserved(Box::into_inner(held));
    }
    values
}
